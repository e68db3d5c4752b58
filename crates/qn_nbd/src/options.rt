//! How a connection begins: the greeting of the server, the wish for an export, and the replies to it.
ghost use Rattle.std.specs.Prelude.{◌≡◌, ◌≤◌, length};
ghost use Rattle.qn_nbd.specs.Options.{greeting_in, option_bytes, reply_in};

use crate::spelling::{add, add_u32};
use arrayvec::ArrayVec;
use byteorder::{BigEndian, ByteOrder};

/// How many bytes a greeting has.
pub const GREETING: usize = 18;

/// How many bytes the head of a reply has.
pub const REPLY: usize = 20;

/// The most bytes of the name of an export that is asked for.
pub const MOST_NAME: usize = 255;

/// `NBDMAGIC`, with which a greeting begins.
const GREETING_MAGIC: u64 = 0x4e42_444d_4147_4943;

/// `IHAVEOPT`, which follows where options can be told.
const OPTION_MAGIC: u64 = 0x4948_4156_454f_5054;

/// With which each reply to an option begins.
const REPLY_MAGIC: u64 = 0x0003_e889_0455_65a9;

/// NBD_OPT_GO, the only option that is told.
const GO: u32 = 7;

/// The most bytes of what a reply tells.
const MOST_TOLD: u32 = 4096;

/// What a reply to the wish for an export says.
#[derive(Clone, Copy, PartialEq, Eq)]
pub enum Reply {
    /// The export is there, and requests may follow.
    Granted,
    /// So many bytes follow that tell something of the export.
    Tells(u32),
    /// The server refuses the export.
    Refused,
    /// It is no reply to that wish, or too long: the connection is of no more use.
    Strange,
}

/// The flags with which a greeting is to be answered (those of the server's that are known here: fixed newstyle, and no zeros after an
/// export); None where it is no greeting of a server of fixed newstyle.
#[tactic(auto, unfolding(crate::specs::Options::greeting_in))]
pub fn greeting_of(bytes: &[u8; GREETING]) -> Option<u32>
    ensures { result ≡ greeting_in bytes.now }
{
    let (magic, rest) = bytes.split_at(8);
    let (option, flags) = rest.split_at(8);
    let flags = BigEndian::read_u16(flags);
    let is_greeting = BigEndian::read_u64(magic) == GREETING_MAGIC
        && BigEndian::read_u64(option) == OPTION_MAGIC
        && flags % 2 == 1;
    if is_greeting {
        Some(u32::from(flags % 4))
    } else {
        None
    }
}

/// Empties `into` and writes the answer to a greeting: these flags, and the wish for the export of that name, whose block sizes are asked for.
#[tactic(auto, unfolding(crate::specs::Options::option_bytes))]
pub fn put_option(flags: u32, name: &[u8], into: &mut ArrayVec<u8, 288>)
    requires { length name.now ≤ 255 }
    ensures { into.new.items ≡ option_bytes flags name.now }
{
    let length = name.len() as u32;
    into.clear();
    add_u32(into, flags);
    add(into, b"IHAVEOPT");
    add_u32(into, GO);
    add_u32(into, length + 8);
    add_u32(into, length);
    add(into, name);
    add(into, &[0, 1, 0, 3]);
}

/// What the head of a reply says to the wish for an export.
#[tactic(auto, unfolding(crate::specs::Options::reply_in))]
pub fn reply_of(bytes: &[u8; REPLY]) -> Reply
    ensures { result ≡ reply_in bytes.now }
{
    let (magic, rest) = bytes.split_at(8);
    let (option, rest) = rest.split_at(4);
    let (kind, count) = rest.split_at(4);
    let count = BigEndian::read_u32(count);
    let is_reply = BigEndian::read_u64(magic) == REPLY_MAGIC && BigEndian::read_u32(option) == GO;
    if !is_reply || count > MOST_TOLD {
        return Reply::Strange;
    }
    match BigEndian::read_u32(kind) {
        1 => Reply::Granted,
        3 => Reply::Tells(count),
        _ => Reply::Refused,
    }
}
