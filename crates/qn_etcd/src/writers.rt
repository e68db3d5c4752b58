//! Who reads and writes an image.
ghost use Rattle.std.specs.Prelude.{◌≡◌, ◌<◌, ◌≤◌, IfNone, IfSome, length};
ghost use Rattle.qn_etcd.specs.Answers.{said_by};
ghost use Rattle.qn_etcd.specs.Openings.{is_of_machine, opening};
ghost use Rattle.qn_etcd.specs.Writers.{token_text};

use crate::answers::ReadAnswer;
use crate::requests::FREE;
use arrayvec::ArrayVec;

/// How many bytes a token has at most.
pub const TOKEN: usize = 128;

/// What tells the boots of a node apart.
pub type Token = ArrayVec<u8, TOKEN>;

/// A boot of a node that has opened an image.
#[derive(Drop)]
pub struct Boot {
    pub rank: u8,
    pub token: Token,
}

/// Who reads and writes an image.
#[derive(Drop)]
pub enum Writer {
    /// A boot of a node, which opened it.
    Boot(Boot),
    /// A command that is no node, with the revision of its last write of sector 0.
    Command(Option<u64>),
}

impl Writer {
    ghost use Rattle.std.specs.Prelude.{◌≡◌};
    ghost use Rattle.qn_etcd.specs.Writers.{writer_after};

    /// Notes that a write of a sector was done at that revision.
    pub fn note_write(&mut self, sector: u32, revision: u64)
        ensures { self.new ≡ writer_after self.old sector revision }
    {
        if let Writer::Command(written) = self
            && sector == 0
        {
            *written = Some(revision);
        }
    }
}

/// The token of a start of a node: of which machine, in which boot of that machine, and which start. None where that is longer than 128 bytes.
#[tactic(auto, unfolding(crate::specs::Writers::token_text))]
pub fn token_of(machine: &[u8], boot: &[u8], start: &[u8]) -> Option<Token>
    ensures token { IfSome result
        (λ token. token.items ≡ token_text machine.now boot.now start.now) }
    ensures long { IfNone result (TOKEN < length (token_text machine.now boot.now start.now)) }
{
    let mut token = Token::new();
    token.try_extend_from_slice(machine).ok()?;
    token.try_extend_from_slice(b" ").ok()?;
    token.try_extend_from_slice(boot).ok()?;
    token.try_extend_from_slice(b" ").ok()?;
    token.try_extend_from_slice(start).ok()?;
    Some(token)
}

/// The revision at which the writer's key has to be still, for a node of that machine to open after it read this there; None where
/// the node is of another machine, which has not left.
pub fn opening_revision(machine: &[u8], found: &ReadAnswer) -> Option<u64>
    requires { length machine.now ≤ 64 }
    ensures { result ≡ opening machine.now (said_by found.now) }
{
    match found {
        ReadAnswer::Refused => None,
        ReadAnswer::Absent => Some(0),
        ReadAnswer::Present(entry) => {
            let value = entry.value.as_slice();
            let is_to_open = value == FREE.as_slice() || is_of_machine(value, machine);
            if is_to_open {
                Some(entry.revision)
            } else {
                None
            }
        }
    }
}

/// Whether a token is of that machine.
fn is_of_machine(token: &[u8], machine: &[u8]) -> bool
    requires { length machine.now ≤ 64 }
    ensures { result ≡ is_of_machine token.now machine.now }
{
    let mut own = Token::new();
    let _ = own.try_extend_from_slice(machine);
    let _ = own.try_extend_from_slice(b" ");
    token.starts_with(own.as_slice())
}
