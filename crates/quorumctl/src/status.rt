//! `status`: what the status files of the nodes of this host come to. It makes no call on a node.
use crate::clocks::Clocks;
use crate::images::{look, pause};
use crate::status_file::{Refusal, read_status_file};
use crate::trouble::{Trouble, say};
use qn_control::{
    ClusterStatus, ImageSeen, UnreadFile, cluster_json, cluster_metrics, cluster_text,
    image_lines_beside,
};
use qn_usage::{QUORUMCTL, file_of, has_word, value_of};
use qn_verdict::Verdict;
use std::alloc::{AllocError, Global};
use std::fs::{self, File};
use std::net::{Net, TcpStream};
use std::rt::Files;
use std::time::Clock;

/// Milliseconds between two texts of `--watch`.
const WATCH: u64 = 1000;

/// What a terminal does before a text of `--watch`: the cursor to the first place, and all behind it is erased (ECMA-48, CUP and ED).
const ERASE: &str = "\u{1b}[H\u{1b}[J";

/// Where systemd's unit has each node of this host write its status file, as `node-ID.json`, and look at its words, as `standing-ID`.
pub const HERE: &str = "/run/quorumd";

/// The form of the text.
#[derive(Clone, Copy)]
enum Form {
    Table,
    Json,
    Metrics,
}

/// The cluster as its status files show it, and the image where one is looked at.
#[derive(Drop)]
pub struct Seen {
    pub cluster: ClusterStatus,
    image: Option<ImageSeen>,
}

/// `status`: the words are those of the command. The exit status is the verdict's, and that of an unknown state where there is trouble.
pub fn status<
    R: Files<File = File>
        + Net<Stream = TcpStream>
        + Clock
        + Print
        + Eprint
        + AllocGlobal
        + Clone
        + Drop,
>(rt: &R, words: &[String]) -> u8 {
    let ended = if has_word(words, "--watch") {
        watch(rt, words)
    } else {
        look_once(rt, words)
    };
    match ended {
        Ok(verdict) => verdict.exit_status(),
        Err(trouble) => {
            let _ = eprintln!(rt; "quorumctl: {trouble}");
            Verdict::Unknown.exit_status()
        }
    }
}

/// Writes what the files say.
fn look_once<
    R: Files<File = File>
        + Net<Stream = TcpStream>
        + Clock
        + Print
        + Eprint
        + AllocGlobal
        + Clone
        + Drop,
>(rt: &R, words: &[String]) -> Result<Verdict, Trouble> {
    let form = if has_word(words, "--json") {
        Form::Json
    } else if has_word(words, "--prometheus") {
        Form::Metrics
    } else {
        Form::Table
    };
    let seen = see(rt, words)?;
    say(rt, text_of(rt.alloc(), &seen, form)?.as_str())?;
    Ok(seen.cluster.verdict())
}

/// Writes what the files say again and again, until it is interrupted.
fn watch<
    R: Files<File = File>
        + Net<Stream = TcpStream>
        + Clock
        + Print
        + Eprint
        + AllocGlobal
        + Clone
        + Drop,
>(rt: &R, words: &[String]) -> Result<Verdict, Trouble> {
    for _ in 0..u64::MAX {
        let seen = see(rt, words)?;
        let text = text_of(rt.alloc(), &seen, Form::Table)?;
        say(rt, format!(in rt.alloc(); "{ERASE}{text}")?.as_str())?;
        pause(rt, WATCH)?;
    }
    Ok(Verdict::Unknown)
}

/// Reads the files that the words name, without any those of this host, and the image. The clocks are read after them, so that no file is of a later moment.
pub fn see<
    R: Files<File = File> + Net<Stream = TcpStream> + Clock + Eprint + AllocGlobal + Clone + Drop,
>(rt: &R, words: &[String]) -> Result<Seen, Trouble> {
    let mut cluster = ClusterStatus {
        now: 0,
        nodes: Vec::new(rt.alloc()),
        unread: Vec::new(rt.alloc()),
    };
    if file_of(QUORUMCTL.commands, words, 0).is_none() {
        add_here(rt, &mut cluster)?;
    }
    for number in 0..words.len() {
        let Some(path) = file_of(QUORUMCTL.commands, words, number) else {
            break;
        };
        add_file(rt, &mut cluster, path)?;
    }
    let image = match value_of(words, "--image") {
        Some(path) => see_image(rt, &mut cluster, path)?,
        None => None,
    };
    let clocks = Clocks::read(rt)?;
    cluster.now = clocks.steady;
    for node in &mut cluster.nodes {
        clocks.steady_file(node);
    }
    Ok(Seen { cluster, image })
}

/// Adds the status file of that path, or that it cannot be read.
fn add_file<R: Files<File = File> + AllocGlobal>(
    rt: &R,
    cluster: &mut ClusterStatus,
    path: &str,
) -> Result<(), Trouble> {
    match read_status_file(rt, path) {
        Ok(node) => cluster.nodes.push(node)?,
        Err(refusal) => add_unread(rt.alloc(), cluster, path, &refusal)?,
    }
    Ok(())
}

/// Adds the status files of the nodes that systemd started on this host; where there is none, it is trouble.
fn add_here<R: Files<File = File> + AllocGlobal + Clone + Drop>(
    rt: &R,
    cluster: &mut ClusterStatus,
) -> Result<(), Trouble> {
    let mut is_any = false;
    if let Ok(entries) = fs::read_dir(rt, HERE) {
        for entry in entries {
            let entry = entry.map_err(Trouble::System)?;
            let name = entry.file_name();
            if name.starts_with("node-") && name.ends_with(".json") {
                let path = format!(in rt.alloc(); "{HERE}/{name}")?;
                add_file(rt, cluster, path.as_str())?;
                is_any = true;
            }
        }
    }
    if is_any { Ok(()) } else { Err(Trouble::NoNode) }
}

/// Adds a file that is no status file.
fn add_unread(
    alloc: Global,
    cluster: &mut ClusterStatus,
    path: &str,
    refusal: &Refusal,
) -> Result<(), Trouble> {
    if matches!(refusal, Refusal::NoMemory) {
        return Err(Trouble::NoMemory);
    }
    let path = String::from_str(alloc, path)?;
    let why = format!(in alloc; "{refusal}")?;
    cluster.unread.push(UnreadFile { path, why })?;
    Ok(())
}

/// Looks at the image; one that cannot be opened, or is none, is a file that cannot be read.
fn see_image<R: Files<File = File> + Net<Stream = TcpStream> + Clock + Eprint + AllocGlobal>(
    rt: &R,
    cluster: &mut ClusterStatus,
    path: &str,
) -> Result<Option<ImageSeen>, Trouble> {
    let alloc = rt.alloc();
    let why = match look(rt, path) {
        Ok(seen) if seen.header.is_some() => return Ok(Some(seen)),
        Ok(_) => format!(in alloc; "it is no image")?,
        Err(Trouble::File(_, error)) => format!(in alloc; "{error}")?,
        Err(trouble) => return Err(trouble),
    };
    let path = String::from_str(alloc, path)?;
    cluster.unread.push(UnreadFile { path, why })?;
    Ok(None)
}

/// The text in its form.
fn text_of(alloc: Global, seen: &Seen, form: Form) -> Result<String, AllocError> {
    match form {
        Form::Table => {
            let mut text = cluster_text(alloc, &seen.cluster)?;
            if let Some(image) = &seen.image {
                let lines = image_lines_beside(alloc, image, &seen.cluster)?;
                text.push_str(lines.as_str())?;
            }
            Ok(text)
        }
        Form::Json => cluster_json(alloc, &seen.cluster, seen.image.as_ref()),
        Form::Metrics => cluster_metrics(alloc, &seen.cluster),
    }
}
