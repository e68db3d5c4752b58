//! The header of an image, written and read.
ghost use Rattle.std.specs.Prelude.{◌≡◌, ◌≤◌, ℕ, IsTrue, IfSome, IfNone};
ghost use Rattle.qn_model.specs.Sectors.{header_bytes, header_bytes_in};
ghost use Rattle.qn_model.specs.Timing.{has_periods};
ghost use Rattle.qn_model.specs.declared.times.Timing.{Timing};
ghost use Rattle.qn_sector.specs.Reading.{header_in, header_of, header_of_1, is_header, timing_at, SpellsHeader};

use crate::fields::{self, Sector};
use byteorder::{BigEndian, ByteOrder};
use qn_base::{add, add_u16, add_u64};
use qn_model::Timing;

/// Writes the header of an image of version 2 for that many nodes, 1 to 32, with times of 1 to `LONGEST_PERIOD`
/// milliseconds, over all 512 bytes.
pub fn put_header(nodes: u32, timing: &Timing, into: &mut [u8; 512])
    requires some_nodes { 1 ≤ nodes }
    requires few_nodes { nodes ≤ 32 }
    requires times { IsTrue (has_periods timing.now) }
    ensures { into.new ≡ header_bytes nodes timing.now }
{
    spell(2, nodes, timing, into);
}

/// Writes a header of that version.
#[tactic(auto, unfolding(qn_model::specs::Sectors::header_bytes_in))]
fn spell(version: u16, nodes: u32, timing: &Timing, into: &mut [u8; 512])
    requires { nodes ≤ 32 }
    ensures { into.new ≡ header_bytes_in version nodes timing.now }
{
    let mut sector = Sector::new();
    add(&mut sector, b"QNSBD001");
    add_u16(&mut sector, version);
    add_u16(&mut sector, nodes as u16);
    fields::add_zeros(&mut sector, 4);
    add_u64(&mut sector, timing.watchdog);
    add_u64(&mut sector, timing.msgwait);
    add_u64(&mut sector, timing.loop_ms);
    add_u64(&mut sector, timing.read_limit);
    add_u64(&mut sector, timing.feed_delay);
    fields::add_zeros(&mut sector, 456);
    into.copy_from_slice(&sector);
}

/// The number of nodes and the times of the header of version 2 that the 512 bytes spell. Whether the times
/// are safe is not tested.
pub fn get_header(from: &[u8; 512]) -> Option<(u32, Timing)>
    ensures some { IfSome result (λ h. SpellsHeader 2 from.now h.0 h.1) }
    ensures none { IfNone result
        ((nodes : ℕ) (timing : Timing) → SpellsHeader 2 from.now nodes timing → ⊥) }
    ensures gives { result ≡ header_of from.now }
{
    read_header(2, from)
}

/// The same of a header of version 1.
pub fn get_header_1(from: &[u8; 512]) -> Option<(u32, Timing)>
    ensures some { IfSome result (λ h. SpellsHeader 1 from.now h.0 h.1) }
    ensures none { IfNone result
        ((nodes : ℕ) (timing : Timing) → SpellsHeader 1 from.now nodes timing → ⊥) }
    ensures gives { result ≡ header_of_1 from.now }
{
    read_header(1, from)
}

#[tactic(auto, unfolding(crate::specs::Reading::header_in))]
fn read_header(version: u16, from: &[u8; 512]) -> Option<(u32, Timing)>
    ensures { result ≡ header_in version from.now }
{
    let nodes = u32::from(BigEndian::read_u16(from.split_at(10).1));
    let timing = read_times(from);
    if !is_header(nodes, &timing) {
        return None;
    }
    let mut spelled = [0; 512];
    spell(version, nodes, &timing, &mut spelled);
    if spelled.as_slice() == from.as_slice() {
        Some((nodes, timing))
    } else {
        None
    }
}

fn read_times(from: &[u8; 512]) -> Timing
    ensures { result ≡ timing_at from.now }
{
    Timing {
        watchdog: BigEndian::read_u64(from.split_at(16).1),
        msgwait: BigEndian::read_u64(from.split_at(24).1),
        loop_ms: BigEndian::read_u64(from.split_at(32).1),
        read_limit: BigEndian::read_u64(from.split_at(40).1),
        feed_delay: BigEndian::read_u64(from.split_at(48).1),
    }
}

fn is_header(nodes: u32, timing: &Timing) -> bool
    ensures exact { result ≡ is_header nodes timing.now }
    ensures some_nodes { IsTrue result → 1 ≤ nodes }
    ensures few_nodes { IsTrue result → nodes ≤ 32 }
    ensures times { IsTrue result → IsTrue (has_periods timing.now) }
{
    nodes >= 1 && nodes <= 32 && timing.has_periods()
}
