//! What an operator can do where the system refuses a file or an image.
use std::io::ErrorKind;

/// What can be done where a file or an image cannot be opened or read. It stands behind the system's words.
pub fn remedy_of(kind: ErrorKind) -> &'static str {
    match kind {
        ErrorKind::NotFound => "; look at the path, and whether its file system is mounted",
        ErrorKind::PermissionDenied => "; root may read it",
        ErrorKind::ConnectionRefused => "; start its server, or name the port that it has",
        ErrorKind::IsADirectory => "; name a file in it",
        _ => "",
    }
}
