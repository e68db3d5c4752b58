//! The node while it boots: each answer of the disk, and what comes of it.
ghost use Rattle.std.specs.Prelude.{◌≡◌, [], ◌∷◌, ℕ, List, Option, None, Some};
ghost use Rattle.qn_model.specs.declared.outputs.HaltKind.{HaltKind};
ghost use Rattle.qn_model.specs.declared.outputs.Out.{Out};
ghost use Rattle.qn_model.specs.declared.life.Phase.{Phase};
ghost use Rattle.qn_model.specs.declared.configuration.Settings.{Settings};
ghost use Rattle.qn_model.specs.declared.entries.What.{What};
ghost use Rattle.qn_model.specs.Log.{Line};
ghost use Rattle.qn_model.specs.Wanted.{rank_of};
ghost use Rattle.qn_model.specs.Fitting.{read_as};
ghost use Rattle.qn_model.specs.Moments.{begin_of};
ghost use Rattle.qn_model.specs.NodeOutputs.{newest_outs, with_read};
ghost use Rattle.qn_boot.specs.Boot.{WantCheckFor, WantClaimFor, WantClearFor, WantHeaderFor, WantSlotFor};
ghost use Rattle.qn_fence.specs.Fence.{IsAskedInside};
ghost use Rattle.qn_node.specs.declared.resource.Resource.{Resource};
ghost use Rattle.qn_node.specs.declared.stage.Stage.{Stage};
ghost use Rattle.qn_node.specs.Stage.{StageFor, installs_in};

use crate::live::Live;
use crate::own::Own;
use crate::resource::Resource;
use crate::rest::Rest;
use crate::stage::Stage;
use qn_boot::{AfterSlot, Boot, WantCheck, WantClaim, WantClear, WantHeader, WantSlot};
use qn_model::{BootCause, DiskOp, HaltKind, Out, Outs, Phase, SlotSeen, What};

/// The first entry. Where it is neither Begin nor BeginClean the boot never begins.
pub fn begin(own: &Own, tick: u64, what: What, outs: &mut Outs) -> Stage
    requires { outs.old ≡ [] }
    ensures few { installs_in result ≡ 0 }
    ensures stands { StageFor result own.now.settings own.now.me.0
        (with_read own.now.settings own.now.me.0 [] tick
        (read_as own.now.settings own.now.me.0 [] what)) }
    ensures outs { outs.new ≡ newest_outs
        (with_read own.now.settings own.now.me.0 [] tick
        (read_as own.now.settings own.now.me.0 [] what)) }
{
    match what {
        What::Begin => begun(own, false, outs),
        What::BeginClean => begun(own, true, outs),
        What::Header(_)
        | What::SlotRead(..)
        | What::MailChecked(_)
        | What::Claimed(_)
        | What::Cleared(_)
        | What::MailRead(_)
        | What::MailWritten(..)
        | What::View(_)
        | What::Ask(_)
        | What::Tell(_)
        | What::Device(_)
        | What::Tick
        | What::Stopped(_)
        | What::Leave
        | What::Closed(_) => Stage::Rest(Rest {
            phase: Phase::Booting,
            claims: None,
            resource: Resource::Free,
        }),
    }
}

/// The boot begins, as a clean start or not.
fn begun(own: &Own, clean: bool, outs: &mut Outs) -> Stage
    requires { outs.old ≡ [] }
    ensures few { installs_in result ≡ 0 }
    ensures stands { (tick : ℕ) → StageFor result own.now.settings own.now.me.0
        (with_read own.now.settings own.now.me.0 [] tick (begin_of clean)) }
    ensures outs { outs.new ≡ Out.Disk DiskOp.ReadHeader ∷ [] }
{
    outs.push(Out::Disk(DiskOp::ReadHeader));
    Stage::Header(Boot::begin(u32::from(own.count()), clean))
}

/// An entry while the header is awaited.
pub fn header(boot: Boot<WantHeader>, own: &Own, tick: u64, what: What, outs: &mut Outs) -> Stage
    requires { outs.old ≡ [] }
    ensures few { installs_in result ≡ 0 }
    ensures stands { (log : List Line)
        → WantHeaderFor own.now.settings boot log
        → StageFor result own.now.settings own.now.me.0
        (with_read own.now.settings own.now.me.0 log tick
        (read_as own.now.settings own.now.me.0 log what)) }
    ensures outs { (log : List Line)
        → WantHeaderFor own.now.settings boot log
        → outs.new ≡ newest_outs
        (with_read own.now.settings own.now.me.0 log tick
        (read_as own.now.settings own.now.me.0 log what)) }
{
    qn_boot::law_boot_waits();
    let What::Header(seen) = what else {
        return Stage::Header(boot);
    };
    match boot.header(seen) {
        Ok(next) => {
            go_on(DiskOp::ReadSlot(own.me), outs);
            Stage::Slot(next)
        }
        Err(halt) => halted(halt.cause, None, outs),
    }
}

/// An entry while the own slot is awaited.
pub fn slot(boot: Boot<WantSlot>, own: &Own, tick: u64, what: What, outs: &mut Outs) -> Stage
    requires { outs.old ≡ [] }
    ensures few { installs_in result ≡ 0 }
    ensures stands { (log : List Line)
        → WantSlotFor own.now.settings own.now.me.0 boot log
        → StageFor result own.now.settings own.now.me.0
        (with_read own.now.settings own.now.me.0 log tick
        (read_as own.now.settings own.now.me.0 log what)) }
    ensures outs { (log : List Line)
        → WantSlotFor own.now.settings own.now.me.0 boot log
        → outs.new ≡ newest_outs
        (with_read own.now.settings own.now.me.0 log tick
        (read_as own.now.settings own.now.me.0 log what)) }
{
    qn_boot::law_boot_waits();
    let What::SlotRead(rank, seen) = what else {
        return Stage::Slot(boot);
    };
    if rank.0 != own.me.0 {
        return Stage::Slot(boot);
    }
    own_slot(boot, seen, outs)
}

/// The own slot was read.
fn own_slot(boot: Boot<WantSlot>, seen: SlotSeen, outs: &mut Outs) -> Stage
    requires { outs.old ≡ [] }
    ensures few { installs_in result ≡ 0 }
    ensures stands { (s : Settings) (me tick : ℕ) (log : List Line)
        → WantSlotFor s me boot log
        → StageFor result s me (with_read s me log tick (What.SlotRead (rank_of me) seen)) }
    ensures outs { (s : Settings) (me tick : ℕ) (log : List Line)
        → WantSlotFor s me boot log
        → outs.new ≡ newest_outs (with_read s me log tick (What.SlotRead (rank_of me) seen)) }
{
    match boot.slot(seen) {
        Ok(AfterSlot::Check(next)) => {
            go_on(DiskOp::CheckMail, outs);
            Stage::Check(next)
        }
        Ok(AfterSlot::Claim(next)) => {
            go_on(DiskOp::WriteClaim(next.claims()), outs);
            Stage::Claim(next)
        }
        Err(halt) => halted(halt.cause, None, outs),
    }
}

/// An entry while the check of the own mailbox is awaited.
pub fn checked(boot: Boot<WantCheck>, own: &Own, tick: u64, what: What, outs: &mut Outs) -> Stage
    requires { outs.old ≡ [] }
    ensures few { installs_in result ≡ 0 }
    ensures stands { (log : List Line)
        → WantCheckFor own.now.settings boot log
        → StageFor result own.now.settings own.now.me.0
        (with_read own.now.settings own.now.me.0 log tick
        (read_as own.now.settings own.now.me.0 log what)) }
    ensures outs { (log : List Line)
        → WantCheckFor own.now.settings boot log
        → outs.new ≡ newest_outs
        (with_read own.now.settings own.now.me.0 log tick
        (read_as own.now.settings own.now.me.0 log what)) }
{
    qn_boot::law_boot_waits();
    let What::MailChecked(seen) = what else {
        return Stage::Check(boot);
    };
    match boot.checked(seen) {
        Ok(next) => {
            go_on(DiskOp::WriteClaim(next.claims()), outs);
            Stage::Claim(next)
        }
        Err(halt) => halted(halt.cause, None, outs),
    }
}

/// An entry while the claim is awaited.
pub fn claimed(boot: Boot<WantClaim>, own: &Own, tick: u64, what: What, outs: &mut Outs) -> Stage
    requires { outs.old ≡ [] }
    ensures few { installs_in result ≡ 0 }
    ensures stands { (log : List Line)
        → WantClaimFor own.now.settings boot log
        → StageFor result own.now.settings own.now.me.0
        (with_read own.now.settings own.now.me.0 log tick
        (read_as own.now.settings own.now.me.0 log what)) }
    ensures outs { (log : List Line)
        → WantClaimFor own.now.settings boot log
        → outs.new ≡ newest_outs
        (with_read own.now.settings own.now.me.0 log tick
        (read_as own.now.settings own.now.me.0 log what)) }
{
    qn_boot::law_boot_waits();
    let claims = boot.claims();
    let What::Claimed(ok) = what else {
        return Stage::Claim(boot);
    };
    match boot.claimed(ok) {
        Ok(next) => {
            go_on(DiskOp::WriteClear, outs);
            Stage::Clear(next)
        }
        Err(halt) => halted(halt.cause, Some(claims), outs),
    }
}

/// An entry while the clear of the own mailbox is awaited.
pub fn cleared(boot: Boot<WantClear>, own: &Own, tick: u64, what: What, outs: &mut Outs) -> Stage
    requires { outs.old ≡ [] }
    ensures few { installs_in result ≡ 0 }
    ensures stands { (log : List Line)
        → WantClearFor own.now.settings boot log
        → IsAskedInside log
        → StageFor result own.now.settings own.now.me.0
        (with_read own.now.settings own.now.me.0 log tick
        (read_as own.now.settings own.now.me.0 log what)) }
    ensures outs { (log : List Line)
        → WantClearFor own.now.settings boot log
        → outs.new ≡ newest_outs
        (with_read own.now.settings own.now.me.0 log tick
        (read_as own.now.settings own.now.me.0 log what)) }
{
    qn_boot::law_boot_waits();
    let claims = boot.claims();
    let What::Cleared(ok) = what else {
        return Stage::Clear(boot);
    };
    match boot.cleared(tick, ok) {
        Ok(ready) => {
            go_on(DiskOp::ReadMail, outs);
            Stage::Live(Live::new(own, ready))
        }
        Err(halt) => halted(halt.cause, Some(claims), outs),
    }
}

/// A step of the boot goes on: a Feed, and the next operation.
fn go_on(op: DiskOp, outs: &mut Outs)
    requires { outs.old ≡ [] }
    ensures { outs.new ≡ Out.Feed ∷ Out.Disk op ∷ [] }
{
    outs.push(Out::Feed);
    outs.push(Out::Disk(op));
}

/// A step of the boot halts it.
fn halted(cause: BootCause, claims: Option<u64>, outs: &mut Outs) -> Stage
    requires { outs.old ≡ [] }
    ensures stage { result
        ≡ Stage.Rest (record { phase = Phase.Gone; claims = claims; resource = Resource.Free }) }
    ensures outs { outs.new ≡ Out.Halt (HaltKind.Boot cause) ∷ [] }
{
    outs.push(Out::Halt(HaltKind::Boot(cause)));
    Stage::Rest(Rest {
        phase: Phase::Gone,
        claims,
        resource: Resource::Free,
    })
}
