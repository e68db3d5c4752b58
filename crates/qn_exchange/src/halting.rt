//! What a halt has the machine do, as /proc/sysrq-trigger takes it.
ghost use Rattle.std.specs.Prelude.{◌<◌, OnOk, OnErr, length};
ghost use Rattle.std.specs.Io.KnownBytes.{Appends, Keeps};
ghost use Rattle.qn_exchange.specs.Halts.{halt_word};

use crate::again::write_again;
use std::io::{self, Write};

/// Writes what a halt of that code has the machine do: nothing where the watchdog is to end it. It fails only where there is something to
/// write, and has then written nothing.
pub fn put_halt<W: Write>(code: u8, writer: &mut W) -> io::Result<()>
    ensures told { OnOk result
        (Appends (W.contents writer.old) (W.contents writer.new) (halt_word code)) }
    ensures kept { OnErr result (Keeps (W.contents writer.old) (W.contents writer.new)) }
    ensures wanted { OnErr result (0 < length (halt_word code)) }
{
    let word: &[u8] = match code {
        2 => b"b",
        3 => b"o",
        5 => b"c",
        _ => return Ok(()),
    };
    write_again(writer, word)?;
    Ok(())
}
