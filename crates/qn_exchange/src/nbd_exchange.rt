//! One request to a block server (NBD), and the head of its answer.
ghost use Rattle.std.specs.Prelude.{◌++◌, OnOk, OnErr, IfOk};
ghost use Rattle.std.specs.Io.KnownBytes.{Appends};
ghost use Rattle.qn_nbd.specs.Requests.{request_bytes};
ghost use Rattle.qn_exchange.specs.Exchanges.{ReadsHead};
ghost use Rattle.qn_exchange.specs.Writes.{SendsFront};

use crate::again::write_whole;
use arrayvec::ArrayVec;
use qn_nbd::{ANSWER, Answer, Command, answer_to, put_request};
use std::io::{self, Read, Write};

/// A request for so many bytes at that place of an export.
#[derive(Clone, Copy)]
pub struct Request {
    pub command: Command,
    pub number: u64,
    pub at: u64,
    pub count: u32,
}

/// Sends a request, with these bytes after it, and reads the head of the answer: what its 16 bytes say to the request of that number. Else a
/// part of the request was sent, or all of it and no whole head was read: the connection is of no more use then.
pub fn ask_server<W: Write, R: Read>(
    request: Request,
    bytes: &[u8],
    writer: &mut W,
    reader: &mut R,
) -> io::Result<Answer>
    ensures sent { OnOk result (Appends (W.contents writer.old) (W.contents writer.new)
        (request_bytes request.command request.number request.at request.count ++ bytes.now)) }
    ensures answered { IfOk result (λ answer.
        ReadsHead (R.remaining reader.old) (R.remaining reader.new) request.number answer) }
    ensures unsent { OnErr result (SendsFront (W.contents writer.old) (W.contents writer.new)
        (request_bytes request.command request.number request.at request.count ++ bytes.now)) }
{
    let mut head = ArrayVec::new();
    put_request(
        request.command,
        request.number,
        request.at,
        request.count,
        &mut head,
    );
    write_two(writer, head.as_slice(), bytes)?;
    let mut answer = [0; ANSWER];
    reader.read_exact(&mut answer)?;
    Ok(answer_to(request.number, &answer))
}

/// Writes two texts, one after the other. At a failure a prefix of both together was written.
fn write_two<W: Write>(writer: &mut W, first: &[u8], second: &[u8]) -> io::Result<()>
    ensures whole { OnOk result
        (Appends (W.contents writer.old) (W.contents writer.new) (first.now ++ second.now)) }
    ensures front { OnErr result
        (SendsFront (W.contents writer.old) (W.contents writer.new) (first.now ++ second.now)) }
{
    write_whole(writer, first)?;
    write_whole(writer, second)
}
