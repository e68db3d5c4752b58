//! Parts of the opening of a node: the look at its watchdog, before that is armed or after it, and the file for halts.
use crate::edge::Edge;
use crate::halt_file::HaltFile;
use crate::reported::reported;
use crate::watchdog_look::{Finding, SYS, look};
use qn_base::Failed;
use std::fs::File;
use std::rt::Files;

/// Looks at the watchdog of that path before it is armed, beside the time of the images in milliseconds, and says what was found. A finding
/// may be a refusal.
pub(crate) fn look_before<R: Files<File = File>, E: Eprint>(
    rt: &R,
    errors: &E,
    path: &str,
    time: u64,
) -> Result<(), Failed> {
    let looked = reported(errors, path, look(rt, SYS, path))?;
    let Some(finding) = looked.finding(time) else {
        return Ok(());
    };
    say_finding(errors, path, finding);
    if finding.is_refused() {
        Err(Failed)
    } else {
        Ok(())
    }
}

/// Says what is found at a watchdog that is open, where no time is known beside which it is judged.
pub(crate) fn look_after<R: Files<File = File>, E: Eprint>(rt: &R, errors: &E, path: &str) {
    let looked = look(rt, SYS, path);
    if let Ok(Some(finding)) = looked.map(|looked| looked.finding(u64::MAX)) {
        say_finding(errors, path, finding);
    }
}

/// Says what was found. That it cannot be said is no fault.
fn say_finding<E: Eprint>(errors: &E, path: &str, finding: Finding) {
    let _ = eprintln!(errors; "quorumd: {path}: {finding}");
}

/// Opens the file that is told of a halt, where one is named.
pub(crate) fn open_halt<R: Files<File = File>, E: Eprint>(
    rt: &R,
    errors: &E,
    edge: &Edge,
) -> Result<Option<HaltFile>, Failed> {
    let Some(path) = &edge.halt else {
        return Ok(None);
    };
    let path = path.as_str();
    let opened = reported(errors, path, HaltFile::open(rt, path))?;
    if reported(errors, path, opened.is_plain(rt))? {
        let _ = eprintln!(errors;
            "quorumd: {path}: a file: a halt that is told to it ends nothing"
        );
    }
    Ok(Some(opened))
}
