//! A connection to a server, which is written and read.
ghost use Rattle.std.specs.Prelude.{ℕ, ◌≤◌, List, Option, None, IfOk, OnOk, OnErr, length};
ghost use Rattle.std.specs.Io.KnownBytes.{Appends, Consumes, Keeps, ReadConsumes};
ghost use Rattle.qn_exchange.specs.Writes.{SendsFront};

use crate::again::{read_again, write_whole};
use std::io::{self, Read, Write};

/// A connection to a server. What is written to it takes nothing of what is still to be read of it, and the other way round.
pub trait Line {
    ghost written: { Self → Option (List ℕ) } = { λ _. None };

    ghost unread: { Self → Option (List ℕ) } = { λ _. None };

    /// Writes all of some bytes. At a failure a prefix of them was written.
    fn send(&mut self, from: &[u8]) -> io::Result<()>
        ensures sent { OnOk result (Appends (written self.old) (written self.new) from.now) }
        ensures unsent { OnErr result (SendsFront (written self.old) (written self.new) from.now) }
        ensures left { Keeps (unread self.old) (unread self.new) };

    /// Reads so many bytes as there is room for. After a failure nothing is known of the line.
    fn fill(&mut self, into: &mut [u8]) -> io::Result<()>
        ensures read { OnOk result (Consumes (unread self.old) (unread self.new) into.new) }
        ensures left { OnOk result (Keeps (written self.old) (written self.new)) };

    /// Reads what there is, at most so many bytes as there is room for; none only at the end of the line.
    fn read_some(&mut self, into: &mut [u8]) -> io::Result<usize>
        ensures within { IfOk result (λ count. count ≤ length into.new) }
        ensures read { ReadConsumes (unread self.old) (unread self.new) result into.new }
        ensures left { Keeps (written self.old) (written self.new) };
}

/// A line of a writer and a reader that are apart.
#[derive(Drop)]
pub struct Ends<W: Write + Drop, R: Read + Drop> {
    pub writer: W,
    pub reader: R,
}

impl<W: Write + Drop, R: Read + Drop> Line for Ends<W, R> {
    ghost written = { λ ends. W.contents ends.writer };

    ghost unread = { λ ends. R.remaining ends.reader };

    #[tactic(auto, using(crate::proofs::Lines::kept))]
    fn send(&mut self, from: &[u8]) -> io::Result<()> {
        write_whole(&mut self.writer, from)
    }

    #[tactic(auto, using(crate::proofs::Lines::kept))]
    fn fill(&mut self, into: &mut [u8]) -> io::Result<()> {
        self.reader.read_exact(into)
    }

    #[tactic(auto, using(crate::proofs::Lines::kept))]
    fn read_some(&mut self, into: &mut [u8]) -> io::Result<usize> {
        read_again(&mut self.reader, into)
    }
}

/// A line that one request was sent over. Nothing more is sent over it, so that what comes of it is never taken for another answer.
#[derive(Drop)]
pub struct Spent<L: Drop> {
    pub(crate) line: L,
}
