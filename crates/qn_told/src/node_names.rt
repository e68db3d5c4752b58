//! The names of the nodes.
ghost use Rattle.std.specs.Prelude.{◌≡◌};
ghost use Rattle.qn_told.specs.Names.{name_at, named_line};

use qn_event::EventLine;

/// The most bytes of a name.
const MOST_NAME: usize = 63;

/// The names of the nodes by rank, of those that have one which can be shown.
#[derive(Clone, Copy)]
pub struct NodeNames<'a> {
    /// As many as there are nodes, or none at all.
    names: &'a [Option<String>],
}

impl<'a> NodeNames<'a> {
    ghost use Rattle.std.specs.Prelude.{◌≡◌, option_map};
    ghost use Rattle.qn_told.specs.Names.{name_at};

    /// The names that stand at the places of the ranks.
    pub fn new(names: &'a [Option<String>]) -> NodeNames<'a>
        ensures { result.names.now ≡ names.now }
    {
        NodeNames { names }
    }

    /// The name at the place of a rank.
    pub fn at(&self, rank: usize) -> Option<&'a str>
        ensures { option_map (λ name. name.now) result ≡ name_at self.now rank }
    {
        match self.names.get(rank) {
            Some(Some(name)) => Some(name.as_str()),
            Some(None) | None => None,
        }
    }
}

/// Adds the name of the node at the place of a rank, where it has one, as the last word of a line.
pub(crate) fn add_name(line: &mut EventLine, names: &NodeNames<'_>, rank: usize)
    ensures { line.new ≡ named_line (name_at names.now rank) line.old }
{
    if let Some(name) = names.at(rank) {
        line.word(b"name", name.as_bytes(), MOST_NAME);
    }
}
