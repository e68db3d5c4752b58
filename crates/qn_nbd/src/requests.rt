//! Reads and writes of an export: requests, and what the answers say.
ghost use Rattle.std.specs.Prelude.{◌≡◌};
ghost use Rattle.qn_nbd.specs.Requests.{answer_of, request_bytes};

use crate::spelling::{add, add_u32, add_u64};
use arrayvec::ArrayVec;
use byteorder::{BigEndian, ByteOrder};

/// How many bytes an answer has, before what was read.
pub const ANSWER: usize = 16;

/// NBD_SIMPLE_REPLY_MAGIC.
const ANSWER_MAGIC: u32 = 0x6744_6698;

/// What a server is asked for.
#[derive(Clone, Copy)]
pub enum Command {
    Read,
    /// A write that lasts when it is answered.
    Write,
}

/// What an answer says.
#[derive(Clone, Copy, PartialEq, Eq)]
pub enum Answer {
    Done,
    /// The server could not do it.
    Failed,
    /// It is no answer to that request: the connection is of no more use.
    Strange,
}

/// Empties `into` and writes the head of a request with that number for so many bytes at that place of the export. At a write the bytes
/// follow it.
#[tactic(auto, unfolding(crate::specs::Requests::request_bytes))]
pub fn put_request(command: Command, number: u64, at: u64, count: u32, into: &mut ArrayVec<u8, 28>)
    ensures { into.new.items ≡ request_bytes command number at count }
{
    into.clear();
    add(into, &[0x25, 0x60, 0x95, 0x13]);
    match command {
        Command::Read => add(into, &[0, 0, 0, 0]),
        Command::Write => add(into, &[0, 1, 0, 1]),
    }
    add_u64(into, number);
    add_u64(into, at);
    add_u32(into, count);
}

/// What these 16 bytes say to the request of that number.
#[tactic(auto, unfolding(crate::specs::Requests::answer_of))]
pub fn answer_to(number: u64, bytes: &[u8; ANSWER]) -> Answer
    ensures { result ≡ answer_of number bytes.now }
{
    let (magic, rest) = bytes.split_at(4);
    let (error, own) = rest.split_at(4);
    if BigEndian::read_u32(magic) != ANSWER_MAGIC || BigEndian::read_u64(own) != number {
        Answer::Strange
    } else if BigEndian::read_u32(error) == 0 {
        Answer::Done
    } else {
        Answer::Failed
    }
}
