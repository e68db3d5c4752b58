//! What a node does with the resource: free, held, stopping, or a stop that failed.
use qn_model::What;

/// What a node does with the resource. Ticks are milliseconds of the node's clock.
#[derive(Clone, Copy, PartialEq, Eq)]
pub enum Resource {
    /// The node does not hold it.
    Free,
    /// The node holds it, and gave no Stop since it started it.
    Held,
    /// A Stop is unanswered.
    Stopping,
    /// The last Stop was answered unsuccessful at that tick.
    StopFailed { tick: u64 },
}

impl Resource {
    ghost use Rattle.std.specs.Prelude.{◌≡◌};
    ghost use Rattle.qn_node.specs.Resource.{after_entry, after_outs, is_held, is_stopping, may_give_stop};

    /// Whether the node holds it.
    pub fn is_held(self) -> bool
        ensures { result ≡ is_held self }
    {
        self != Resource::Free
    }

    /// Whether a Stop is unanswered.
    pub fn is_stopping(self) -> bool
        ensures { result ≡ is_stopping self }
    {
        self == Resource::Stopping
    }

    /// Whether a Stop may be given at this tick, where the node holds: none was given since the Start, or
    /// the last one failed at least `wait` ticks ago.
    pub fn may_give_stop(self, wait: u64, tick: u64) -> bool
        ensures { result ≡ may_give_stop self wait tick }
    {
        match self {
            Resource::Free | Resource::Held => true,
            Resource::Stopping => false,
            Resource::StopFailed { tick: failed } => tick >= failed && tick - failed >= wait,
        }
    }

    /// After an entry at this tick: the answer of a Stop counts where one is unanswered.
    pub fn after_entry(self, tick: u64, what: What) -> Self
        ensures { result ≡ after_entry tick what self }
    {
        match what {
            What::Stopped(true) if self.is_stopping() => Resource::Free,
            What::Stopped(false) if self.is_stopping() => Resource::StopFailed { tick },
            What::Begin
            | What::BeginClean
            | What::Header(_)
            | What::SlotRead(..)
            | What::MailChecked(_)
            | What::Claimed(_)
            | What::Cleared(_)
            | What::MailRead(_)
            | What::MailWritten(..)
            | What::View(_)
            | What::Ask(_)
            | What::Tell(_)
            | What::Device(_)
            | What::Tick
            | What::Stopped(_)
            | What::Leave
            | What::Closed(_) => self,
        }
    }

    /// After a Stop and a Start, each where it was given.
    pub fn after_outs(self, stops: bool, starts: bool) -> Self
        ensures { result ≡ after_outs stops starts self }
    {
        if starts {
            Resource::Held
        } else if stops {
            Resource::Stopping
        } else {
            self
        }
    }
}
