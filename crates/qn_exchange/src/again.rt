//! Real calls that are made again after each interruption, a bounded number of times.
ghost use Rattle.std.specs.Prelude.{◌<◌, ◌≤◌, IfOk, OnOk, OnErr, length};
ghost use Rattle.std.specs.Io.KnownBytes.{Appends, ReadConsumes, WriteAppends};
ghost use Rattle.qn_exchange.specs.Writes.{SendsFront};

use std::io::{self, ErrorKind, Read, Write};

/// How often a real call is made that is interrupted each time; then it has failed.
pub const TRIES: u32 = 1000;

/// Reads once, again after each interruption.
pub fn read_again<R: Read>(reader: &mut R, into: &mut [u8]) -> io::Result<usize>
    ensures within { IfOk result (λ n. n ≤ length into.new) }
    ensures consumes { ReadConsumes (R.remaining reader.old)
        (R.remaining reader.new) result into.new }
{
    'tries: for _ in 0..TRIES {
        match reader.read(into) {
            Ok(count) => return Ok(count),
            Err(error) if error.kind() == ErrorKind::Interrupted => {}
            Err(error) => return Err(error),
        }
    }
    Err(io::Error::from(ErrorKind::Interrupted))
}

/// Writes once, again after each interruption. A write that takes nothing of bytes has failed.
pub fn write_again<W: Write>(writer: &mut W, from: &[u8]) -> io::Result<usize>
    ensures within { IfOk result (λ n. n ≤ length from.now) }
    ensures some { IfOk result (λ n. 0 < length from.now → 0 < n) }
    ensures appends { WriteAppends (W.contents writer.old) (W.contents writer.new) result from.now }
{
    'tries: for _ in 0..TRIES {
        match writer.write(from) {
            Ok(0) if !from.is_empty() => return Err(io::Error::from(ErrorKind::WriteZero)),
            Ok(count) => return Ok(count),
            Err(error) if error.kind() == ErrorKind::Interrupted => {}
            Err(error) => return Err(error),
        }
    }
    Err(io::Error::from(ErrorKind::Interrupted))
}

/// Writes all of some bytes, in as many writes as the writer needs. At a failure a prefix of them was written.
pub fn write_whole<W: Write>(writer: &mut W, from: &[u8]) -> io::Result<()>
    ensures whole { OnOk result (Appends (W.contents writer.old) (W.contents writer.new) from.now) }
    ensures front { OnErr result
        (SendsFront (W.contents writer.old) (W.contents writer.new) from.now) }
{
    let mut rest = from;
    'writes: while !rest.is_empty() {
        let count = write_again(writer, rest)?;
        rest = rest.split_at(count).1;
    }
    Ok(())
}
