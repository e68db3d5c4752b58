//! An order to the agent of a resource, and its answer.
ghost use Rattle.std.specs.Prelude.{◌≡◌, [], ◌∷◌, OnOk, OnErr, IfOk, codes};
ghost use Rattle.std.specs.Io.KnownBytes.{Appends, Consumes, Keeps};
ghost use Rattle.qn_exchange.specs.Orders.{agent_line, Declines};
ghost use Rattle.qn_exchange.specs.Writes.{SendsFront};

use crate::line::{Line, Spent};
use crate::order::{Obeyed, Order};
use std::io::{self, ErrorKind};

/// Sends an order over a line of its own and reads the answer: it is obeyed only where the whole line of the order was sent and the answer begins
/// with the line `ok`. Nothing more is sent over that line, so that nothing that comes of it is taken for another answer.
pub fn ask_agent<L: Line + Drop>(order: Order, line: L) -> io::Result<(Spent<L>, Obeyed)>
    ensures sent { IfOk result (λ r. Appends (L.written line) (L.written r.0.line) (agent_line order)) }
    ensures answered { IfOk result (λ r. Consumes (L.unread line) (L.unread r.0.line) (codes "ok\n")) }
    ensures obeyed { IfOk result (λ r. r.1 ≡ order) }
{
    let mut line = line;
    ask_over(order, &mut line)?;
    Ok((Spent { line }, Obeyed::of(order)))
}

/// Sends an order over a line and reads the answer: it is done only where the whole line of the order was sent and the answer
/// begins with the line `ok`. Else a part of the line was sent, or all of it and bytes were read that are not `ok` and its end.
pub fn ask_over<L: Line>(order: Order, line: &mut L) -> io::Result<()>
    ensures sent { OnOk result (Appends (L.written line.old) (L.written line.new) (agent_line order)) }
    ensures answered { OnOk result (Consumes (L.unread line.old) (L.unread line.new) (codes "ok\n")) }
    ensures unsent { OnErr result
        (SendsFront (L.written line.old) (L.written line.new) (agent_line order)) }
    ensures declined { OnErr result (Declines (L.unread line.old) (L.unread line.new)) }
{
    line.send(order.agent_line())?;
    read_answer(line)
}

/// Reads the answer, up to the first byte in which it is not the line `ok`.
fn read_answer<L: Line>(line: &mut L) -> io::Result<()>
    ensures answered { OnOk result (Consumes (L.unread line.old) (L.unread line.new) (codes "ok\n")) }
    ensures declined { OnErr result (Declines (L.unread line.old) (L.unread line.new)) }
    ensures left { Keeps (L.written line.old) (L.written line.new) }
{
    for wanted in b"ok\n" {
        let byte = read_byte(line)?;
        if byte != *wanted {
            return Err(io::Error::other("the answer is not ok"));
        }
    }
    Ok(())
}

/// Reads the next byte of an answer.
fn read_byte<L: Line>(line: &mut L) -> io::Result<u8>
    ensures took { IfOk result (λ byte.
        Consumes (L.unread line.old) (L.unread line.new) (byte ∷ [])) }
    ensures kept { OnErr result (Keeps (L.unread line.old) (L.unread line.new)) }
    ensures left { Keeps (L.written line.old) (L.written line.new) }
{
    let mut byte = [0];
    match line.read_some(&mut byte)? {
        0 => Err(closed()),
        _ => Ok(byte[0]),
    }
}

/// The agent closed the connection before it had answered.
fn closed() -> io::Error {
    io::Error::new(ErrorKind::UnexpectedEof, "closed before an answer")
}
