//! One request to a member of an etcd cluster, and its answer.
ghost use Rattle.std.specs.Prelude.{◌≡◌, ◌≤◌, IfOk, OnOk, OnErr, length};
ghost use Rattle.std.specs.Io.KnownBytes.{Appends, Consumes, Keeps};
ghost use Rattle.qn_etcd.specs.Heads.{IsWhole};
ghost use Rattle.qn_exchange.specs.Exchanges.{ReadsAnswer, ReadsNoAnswer};
ghost use Rattle.qn_exchange.specs.Writes.{SendsFront};

use crate::line::Line;
use arrayvec::ArrayVec;
use qn_etcd::{Head, head_of};
use std::io::{self, ErrorKind};

/// How many bytes an answer has at most.
pub const ANSWER: usize = 8192;

/// How many bytes of it are read at once.
const PART: usize = 2048;

/// The status of an answer to a transaction.
const OK: u16 = 200;

/// Sends a request and reads the answer: it is done only where the whole request was sent and what was read is an answer of status 200, all of
/// it and nothing after it, whose body is this text. Else a part of the request was sent, or all of it and what was read is no such answer of up
/// to 8192 bytes: the line is of no more use then.
pub fn exchange<'a, L: Line>(
    request: &[u8],
    line: &mut L,
    answer: &'a mut ArrayVec<u8, ANSWER>,
) -> io::Result<&'a str>
    ensures sent { OnOk result (Appends (L.written line.old) (L.written line.new) request.now) }
    ensures answered { IfOk result (λ body.
        ReadsAnswer (L.unread line.old) (L.unread line.new) body.now) }
    ensures unsent { OnErr result
        (SendsFront (L.written line.old) (L.written line.new) request.now) }
    ensures unanswered { OnErr result
        (ReadsNoAnswer (L.unread line.old) (L.unread line.new)) }
{
    line.send(request)?;
    let head = read_answer(line, answer)?;
    if head.code != OK {
        return Err(io::Error::other("the cluster could not do it"));
    }
    let body = answer.as_slice().split_at(head.body).1;
    match str::from_utf8(body) {
        Ok(text) => Ok(text),
        Err(_) => Err(strange()),
    }
}

/// Empties `answer` and reads an answer into it to its end, and nothing after it: what its head says.
fn read_answer<L: Line>(line: &mut L, answer: &mut ArrayVec<u8, ANSWER>) -> io::Result<Head>
    ensures within { IfOk result (λ head. head.body ≤ length answer.new.items) }
    ensures taken { OnOk result (Consumes (L.unread line.old) (L.unread line.new) answer.new.items) }
    ensures whole { IfOk result (λ head. IsWhole answer.new.items head) }
    ensures none { OnErr result (ReadsNoAnswer (L.unread line.old) (L.unread line.new)) }
    ensures left { Keeps (L.written line.old) (L.written line.new) }
{
    answer.clear();
    'parts: for _ in 0..ANSWER {
        let mut part = [0; PART];
        let more = line.read_some(&mut part)?;
        if more == 0 {
            return Err(io::Error::new(ErrorKind::UnexpectedEof, "the answer ends early"));
        }
        if answer.try_extend_from_slice(part.split_at(more).0).is_err() {
            return Err(strange());
        }
        let found = match head_of(answer.as_slice()) {
            Ok(found) => found,
            Err(_) => return Err(strange()),
        };
        let Some(head) = found else {
            continue 'parts;
        };
        let body = (answer.len() - head.body) as u64;
        if body > head.length {
            return Err(strange());
        }
        if body == head.length {
            return Ok(head);
        }
    }
    Err(strange())
}

/// What came is no answer to what was asked.
pub fn strange() -> io::Error {
    io::Error::other("not the answer to what was asked")
}
