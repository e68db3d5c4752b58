//! Reads the files that the words before the command name: the addresses and the digests of a settings text, and keys. Of the first that
//! is wrong a line on standard error says what is; nothing was opened then but these files.
use crate::before::{Before, MOST_KEYS, is_node, is_running};
use crate::same_text::Text;
use crate::{PROGRAM, id_in};
use qn_base::NodeId;
use qn_commands::Fault;
use qn_conf::{MOST_TEXT_BYTES, Tree, read_tree};
use qn_links::{
    ArbiterFault, ArbiterPlace, Links, Meaning, NodeSection, arbiter_of, device_of, meaning_of,
    name_of, networks_of, sections_of, standing_of,
};
use qn_machine::{Edge, Guard, Overwrites};
use qn_model::Settings;
use qn_seal::{Key, Keys, Texts, text_of};
use qn_settings::settings;
use qn_usage::{NO_MEMORY, USAGE, remedy_of};
use std::fmt::Display;
use std::fs::{self, File};
use std::io::{self, Read};
use std::os::unix::fs::PermissionsExt;
use std::rt::Files;

/// How many bytes a key file has.
const LEAST_KEY: u64 = 32;

const MOST_KEY: u64 = 4096;

/// The command that runs an arbiter.
pub const ARBITER: &str = "arbiter";

/// A settings text that was read, and the names of its nodes by rank, of those that can be shown.
#[derive(Drop)]
pub struct NamedText {
    pub text: Text,
    pub names: Vec<Option<String>>,
}

/// What of the outside these words say before a command, of which the words are these, and the settings text that was read; or the status to
/// end with.
pub fn edge_of<'words, R: Files<File = File> + AllocGlobal + Eprint>(
    rt: &R,
    before: &Before<'words>,
    words: &[String],
) -> Result<(Edge, Option<NamedText>), u8> {
    let mut edge = Edge::local();
    if before.is_anew {
        edge.overwrites = Overwrites::Anything;
    } else if before.is_blank {
        edge.overwrites = Overwrites::Nothing;
    }
    if let Some(path) = before.halt {
        edge.halt = Some(String::from_str(rt.alloc(), path).map_err(|_| NO_MEMORY)?);
    }
    if let Some(path) = before.leave {
        edge.leave = Some(String::from_str(rt.alloc(), path).map_err(|_| NO_MEMORY)?);
    }
    if let Some(path) = before.standing {
        edge.standing_file = Some(String::from_str(rt.alloc(), path).map_err(|_| NO_MEMORY)?);
    }
    edge.guard = match keys_of(rt, &before.keys)? {
        Some(keys) => Guard::Sealed(keys),
        None if before.is_open => Guard::ClosedNetwork,
        None => Guard::Unsaid,
    };
    let text = match before.links {
        Some(path) => {
            let bytes = read_file(rt, path, MOST_TEXT_BYTES as u64 + 1)?;
            let path = String::from_str(rt.alloc(), path).map_err(|_| NO_MEMORY)?;
            let text = Text { path, bytes };
            let names = take_text(rt, before, &text, words, &mut edge)?;
            Some(NamedText { text, names })
        }
        None => None,
    };
    Ok((edge, text))
}

/// Takes what a settings text says: where the nodes and their arbiter are, what stands for the text in a tag, and whether the node of these
/// words may hold; and gives how the nodes are called.
fn take_text<R: AllocGlobal + Eprint>(
    rt: &R,
    before: &Before<'_>,
    text: &Text,
    words: &[String],
    edge: &mut Edge,
) -> Result<Vec<Option<String>>, u8> {
    let command = words.first().map_or("", String::as_str);
    let (path, bytes) = (text.path.as_str(), text.bytes.as_slice());
    let tree = read_whole(rt, path, bytes)?;
    let settings = read_settings(rt, path, &tree)?;
    let sections = sections_of(rt.alloc(), &tree).map_err(|_| NO_MEMORY)?;
    let networks = networks_of(sections.as_slice(), settings.nodes.as_slice());
    let networks = networks.map_err(|fault| refuse(rt, path, fault))?;
    let arbiter = arbiter_of(device_of(&tree), &networks.first);
    edge.texts = texts_of(before, bytes, &settings, &networks.first, arbiter.ok());
    edge.arbiter = match arbiter {
        Ok(place) => Some(place),
        Err(fault) if command == ARBITER => return Err(refuse(rt, path, fault)),
        Err(fault) => {
            if is_running(command) && settings.device.is_some() {
                say_unpolled(rt, path, fault);
            }
            None
        }
    };
    edge.networks = Some(networks);
    if is_node(command) {
        take_standing(rt, path, sections.as_slice(), NodeId(id_in(words)), edge)?;
    }
    read_names(rt, path, sections.as_slice(), &settings)
}

/// What stands for a settings text in a tag: what is sealed beside is its bytes, or what it says where that was said before the command. The
/// other one is opened too.
fn texts_of(
    before: &Before<'_>,
    text: &[u8],
    settings: &Settings,
    links: &Links,
    arbiter: Option<ArbiterPlace>,
) -> Texts {
    let mut said = Meaning::new();
    meaning_of(settings, links, arbiter, &mut said);
    let (bytes, meaning) = (text_of(text), text_of(said.as_slice()));
    if before.seals_meaning {
        Texts {
            first: meaning,
            second: Some(bytes),
        }
    } else {
        Texts {
            first: bytes,
            second: Some(meaning),
        }
    }
}

/// Says what is wrong with a file, and gives the status to end with. That it cannot be said is no fault.
fn refuse<E: Eprint, W: Display + Drop>(errors: &E, path: &str, why: W) -> u8 {
    let _ = eprintln!(errors; "{PROGRAM}: {path}: {why}");
    USAGE
}

/// Says why a node polls no arbiter though its text has a host of one. That it cannot be said is no fault.
fn say_unpolled<E: Eprint>(errors: &E, path: &str, fault: ArbiterFault<'_>) {
    match fault {
        ArbiterFault::NoHost => {}
        ArbiterFault::NotAddress { .. }
        | ArbiterFault::OtherFamily { .. }
        | ArbiterFault::NotPort { .. } => {
            let _ = eprintln!(errors; "{PROGRAM}: {path}: {fault}: no arbiter is polled");
        }
    }
}

/// The bytes of a file, of a longer one so many.
fn read_file<R: Files<File = File> + AllocGlobal + Eprint>(
    rt: &R,
    path: &str,
    most: u64,
) -> Result<Vec<u8>, u8> {
    let mut bytes = Vec::new(rt.alloc());
    match read_into(rt, path, most, &mut bytes) {
        Ok(()) => Ok(bytes),
        Err(error) if error.kind() == io::ErrorKind::OutOfMemory => Err(NO_MEMORY),
        Err(error) => Err(refuse_file(rt, path, &error)),
    }
}

/// Says why the system refuses a file and what can be done, and gives the status to end with. That it cannot be said is no fault.
fn refuse_file<E: Eprint>(errors: &E, path: &str, error: &io::Error) -> u8 {
    let remedy = remedy_of(error.kind());
    let _ = eprintln!(errors; "{PROGRAM}: {path}: {error}{remedy}");
    USAGE
}

fn read_into<R: Files<File = File>>(
    rt: &R,
    path: &str,
    most: u64,
    bytes: &mut Vec<u8>,
) -> io::Result<()> {
    let file = File::open(rt, path)?;
    file.take(most).read_to_end(bytes)?;
    Ok(())
}

/// The keys of these files, where there is one.
fn keys_of<R: Files<File = File> + AllocGlobal + Eprint>(
    rt: &R,
    paths: &[Option<&str>; MOST_KEYS],
) -> Result<Option<Keys>, u8> {
    let [Some(path), second, third] = *paths else {
        return Ok(None);
    };
    let first = read_key(rt, path)?;
    let second = match second {
        Some(path) => Some(other_key(rt, path, &[Some(first)])?),
        None => None,
    };
    let third = match third {
        Some(path) => Some(other_key(rt, path, &[Some(first), second])?),
        None => None,
    };
    Ok(Some(Keys {
        first,
        second,
        third,
    }))
}

/// The key of a file, which is none of the others.
fn other_key<R: Files<File = File> + AllocGlobal + Eprint>(
    rt: &R,
    path: &str,
    others: &[Option<Key>],
) -> Result<Key, u8> {
    let key = read_key(rt, path)?;
    if others.iter().any(|other| *other == Some(key)) {
        return Err(refuse(rt, path, "the same key twice"));
    }
    Ok(key)
}

/// The key of a file that its owner alone may read.
fn read_key<R: Files<File = File> + AllocGlobal + Eprint>(rt: &R, path: &str) -> Result<Key, u8> {
    let about = match fs::metadata(rt, path) {
        Ok(about) => about,
        Err(error) => return Err(refuse_file(rt, path, &error)),
    };
    if !about.is_file() {
        return Err(refuse(rt, path, "a key is a regular file"));
    }
    if about.permissions().mode() % 64 != 0 {
        let _ = eprintln!(rt; "{PROGRAM}: {path}: others may read it; chmod 600 {path}");
        return Err(USAGE);
    }
    let size = about.len();
    if size < LEAST_KEY || size > MOST_KEY {
        return Err(refuse_size(rt, path, size));
    }
    let bytes = read_file(rt, path, MOST_KEY + 1)?;
    let size = bytes.len() as u64;
    if size < LEAST_KEY || size > MOST_KEY {
        return Err(refuse_size(rt, path, size));
    }
    Ok(Key::new(bytes.as_slice()))
}

fn refuse_size<E: Eprint>(errors: &E, path: &str, size: u64) -> u8 {
    let _ = eprintln!(errors;
        "{PROGRAM}: {path}: {size} bytes, a key has {LEAST_KEY} to {MOST_KEY}; copy that of another host"
    );
    USAGE
}

/// The tree of a settings text.
fn read_whole<'text, R: AllocGlobal + Eprint>(
    rt: &R,
    path: &str,
    text: &'text [u8],
) -> Result<Tree<'text>, u8> {
    read_tree(rt.alloc(), text).map_err(|fault| refuse_text(rt, path, Fault::BadConf(fault)))
}

/// The settings of a settings text.
fn read_settings<R: AllocGlobal + Eprint>(
    rt: &R,
    path: &str,
    tree: &Tree<'_>,
) -> Result<Settings, u8> {
    settings(tree).map_err(|fault| refuse_text(rt, path, Fault::BadSettings(fault)))
}

/// Takes whether that node may hold, and how gladly it is to, by its section.
fn take_standing<E: Eprint>(
    errors: &E,
    path: &str,
    sections: &[NodeSection<'_>],
    id: NodeId,
    edge: &mut Edge,
) -> Result<(), u8> {
    let said = standing_of(sections, id).map_err(|fault| refuse(errors, path, fault))?;
    edge.standing.standby = said.is_standby;
    edge.standing.weight = said.score;
    Ok(())
}

/// The names of the nodes by rank. Of a name that cannot be shown a line says why.
fn read_names<R: AllocGlobal + Eprint>(
    rt: &R,
    path: &str,
    sections: &[NodeSection<'_>],
    settings: &Settings,
) -> Result<Vec<Option<String>>, u8> {
    let mut names = Vec::new(rt.alloc());
    for node in settings.nodes.as_slice() {
        let name = match name_of(sections, node.id) {
            Ok(Some(name)) => Some(String::from_str(rt.alloc(), name).map_err(|_| NO_MEMORY)?),
            Ok(None) => None,
            Err(fault) => {
                let id = node.id.0;
                let _ = eprintln!(rt;
                    "{PROGRAM}: {path}: the name of node {id} {fault}: its id is shown"
                );
                None
            }
        };
        names.push(name).map_err(|_| NO_MEMORY)?;
    }
    Ok(names)
}

/// Says what `create` would answer for the text.
fn refuse_text<E: Eprint>(errors: &E, path: &str, fault: Fault) -> u8 {
    if let Fault::BadConf(qn_conf::ConfFault::NoMemory) = fault {
        return NO_MEMORY;
    }
    let line = fault.line();
    let said = str::from_utf8(line.as_slice()).unwrap_or("");
    let said = said.trim().trim_start_matches("fault ");
    let _ = eprintln!(errors;
        "{PROGRAM}: {path}: {said}; quorumctl settings < {path} shows its lines"
    );
    USAGE
}
