//! The settings text on standard input.
use crate::trouble::Trouble;
use qn_conf::{ConfFault, MOST_TEXT_BYTES};
use qn_settings::TextFault;
use qn_usage::{IS_TYPED, is_typed};
use std::fs::File;
use std::io::Read;
use std::rt::Files;

/// How many bytes are read at a time.
const PIECE: usize = 4096;

/// All of standard input, or as much as no settings text has. Where that is a terminal, standard error says first that it is read.
pub fn read_input<R: Files<File = File> + Input + Eprint + AllocGlobal>(
    rt: &R,
) -> Result<Vec<u8>, Trouble> {
    if is_typed(rt) {
        let _ = eprintln!(rt; "quorumctl: a corosync.conf {IS_TYPED}");
    }
    read_text(rt)
}

fn read_text(rt: &(impl Input + AllocGlobal)) -> Result<Vec<u8>, Trouble> {
    let mut reader = rt.reader();
    let mut text = Vec::new(rt.alloc());
    let mut piece = [0; PIECE];
    for _ in 0..=MOST_TEXT_BYTES {
        let count = reader.read(&mut piece).map_err(Trouble::Input)?;
        if count == 0 || text.len() > MOST_TEXT_BYTES {
            break;
        }
        text.extend_from_slice(&piece[..count])?;
    }
    Ok(text)
}

/// Whether a fault is want of memory, which is no fault of the text.
pub fn is_memory(fault: &TextFault) -> bool {
    *fault == TextFault::Conf(ConfFault::NoMemory)
}
