//! Node ids, ranks, masks of ranks, views, and what a Hello says.

/// The id of a node in the settings text: 1 or more (corosync.conf(5), `nodeid`).
#[derive(Clone, Copy, PartialEq, Eq, PartialOrd, Ord, Default, Debug)]
pub struct NodeId(pub u32);

/// The place of a node among the configured nodes in ascending id, from 0: below 32.
#[derive(Clone, Copy, PartialEq, Eq, PartialOrd, Ord, Default, Debug)]
pub struct Rank(pub u8);

/// A set of ranks: bit `r` stands for rank `r`.
#[derive(Clone, Copy, PartialEq, Eq, Default, Debug)]
pub struct Mask(pub u32);

/// What a node is told of the cluster: the nodes that it sees, under a number.
#[derive(Clone, Copy, PartialEq, Eq, Default, Debug)]
pub struct View {
    pub id: u64,
    pub members: Mask,
}

/// What a Hello says of its sender.
#[derive(Clone, Copy, PartialEq, Eq, Debug)]
pub struct Said {
    /// The nodes that it hears, and itself.
    pub hears: Mask,
    /// The able node that it follows, where there is one.
    pub follows: Option<Rank>,
    /// Whether the nodes that it sees, from its own rank on, have the votes that a side needs.
    pub able: bool,
}

/// What a node says of itself beside its Hello: two bytes that are handed on as they came. Both are 0 so far.
#[derive(Clone, Copy, PartialEq, Eq, Default, Debug)]
pub struct Standing {
    pub flags: u8,
    pub weight: u8,
}

impl Mask {
    ghost use Rattle.std.specs.Prelude.{◌≡◌, ◌<◌};
    ghost use Rattle.qn_base.specs.Members.{is_member};

    /// Whether the rank is one of the members.
    pub fn contains(self, rank: Rank) -> bool
        requires { rank.0 < 32 }
        ensures { result ≡ is_member self rank.0 }
    {
        self.0 >> rank.0 & 1 == 1
    }
}
