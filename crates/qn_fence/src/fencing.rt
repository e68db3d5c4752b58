//! The fencer: what it keeps of each rank, its next operation, and the licences that it gives.
ghost use Rattle.std.specs.Prelude.{◌≡◌};
ghost use Rattle.qn_fence.specs.Fence.{fresh_outside};

use qn_base::{Mask, Rank, View};
use qn_model::{DiskOp, Settings, SlotSeen};

/// What the fencing asks of the disk next (this project's profile, after sbd(8), `message`).
#[derive(Clone, Copy, PartialEq, Eq)]
pub enum Want {
    /// Nothing.
    None,
    /// Read the slot of that node.
    ReadSlot(Rank),
    /// Write Reset to the mailbox of that node.
    WriteReset(Rank),
}

/// Why a node outside the view is known not to hold the resource, or how much of it remains (sbd(8),
/// `msgwait`; that a clean slot stands in place of a reset is this project's profile).
#[derive(Clone, Copy, PartialEq, Eq)]
pub enum Licence {
    /// Its slot was read as clean.
    Clean,
    /// A reset was written to it at least msgwait ago.
    Fenced,
    /// A reset was written to it, and that many ticks of msgwait remain.
    Waiting { left: u64 },
    /// Neither was seen.
    Unknown,
}

/// A node outside the view that has no licence: whether a reset was written to it, and then how many
/// ticks of msgwait remain, else 0.
#[derive(Clone, Copy, PartialEq, Eq)]
pub struct Unfenced {
    pub rank: Rank,
    pub written: bool,
    pub left: u64,
}

/// The fencer of a node that takes part in the cluster. Ticks are milliseconds of the node's clock.
#[derive(Drop)]
pub struct Fence {
    count: u8,
    msgwait: u64,
    members: Mask,
    clean: Mask,
    seen: Mask,
    written: Mask,
    ticks: [u64; 32],
    fresh: Option<Rank>,
}

impl Want {
    ghost use Rattle.std.specs.Prelude.{◌≡◌};
    ghost use Rattle.qn_fence.specs.Fence.{about_rank, op_of, want_of};

    /// The disk operation that is wanted.
    pub fn op(self) -> Option<DiskOp>
        ensures { result ≡ op_of self }
    {
        match self {
            Want::None => None,
            Want::ReadSlot(rank) => Some(DiskOp::ReadSlot(rank)),
            Want::WriteReset(rank) => Some(DiskOp::WriteReset(rank)),
        }
    }

    /// What a disk operation is to the fencing: nothing where it neither reads the slot of a node nor resets
    /// one.
    pub fn of(op: Option<DiskOp>) -> Want
        ensures { result ≡ want_of op }
    {
        match op {
            Some(DiskOp::ReadSlot(rank)) => Want::ReadSlot(rank),
            Some(DiskOp::WriteReset(rank)) => Want::WriteReset(rank),
            _ => Want::None,
        }
    }

    /// The node that it is about.
    fn rank(self) -> Option<Rank>
        ensures { result ≡ about_rank self }
    {
        match self {
            Want::None => None,
            Want::ReadSlot(rank) | Want::WriteReset(rank) => Some(rank),
        }
    }
}

impl Fence {
    ghost use Rattle.std.specs.Prelude.{◌≡◌, ◌<◌, ◌≤◌, ◌∷◌, ◌==◌, ◌&&◌, ◌||◌, ℕ, Some, None, List, Bool, true, false, if◌then◌else◌};
    ghost use Rattle.std.specs.Option.{option_map};
    ghost use Rattle.qn_base.specs.Members.{is_member};
    ghost use Rattle.qn_model.specs.declared.configuration.Settings.{Settings};
    ghost use Rattle.qn_model.specs.declared.entries.What.{What};
    ghost use Rattle.qn_model.specs.declared.outputs.DiskOp.{DiskOp};
    ghost use Rattle.qn_model.specs.declared.outputs.Out.{Out};
    ghost use Rattle.qn_model.specs.Fitting.{answers_op};
    ghost use Rattle.qn_model.specs.Log.{Line, ask_place, disk_of, now, op_out, timing};
    ghost use Rattle.qn_model.specs.NodeVotes.{view};
    ghost use Rattle.qn_model.specs.Licences.{is_clean_slot, is_seen_slot};
    ghost use Rattle.qn_model.specs.Unmet.{unfenced};
    ghost use Rattle.qn_model.specs.Wanted.{fencing_op};
    ghost use Rattle.qn_fence.specs.Fence.{op_of};
    ghost use Rattle.qn_fence.specs.Fence.{FenceFor, IsAskedInside, IsOutside, is_boot_end, is_fresh, is_waited_for, left_at, licence_of, unfenced_at, want_of, written_at};

    /// The fencer of a node whose boot has just ended, by the settings, the node's own rank, and the msgwait
    /// of its image in milliseconds: no slot was read and nothing was reset. The own rank changes nothing,
    /// since it is in every view.
    pub fn new(settings: &Settings, _me: Rank, msgwait: u64) -> Self
        ensures { (log : List Line) (line : Line) (ok : Bool)
            → line.what ≡ What.Cleared ok
            → IsAskedInside log
            → (timing (line ∷ log)).msgwait ≡ msgwait
            → view (line ∷ log) ≡ None
            → op_out (line ∷ log) ≡ Some DiskOp.ReadMail
            → FenceFor result settings.now (line ∷ log) }
    {
        Fence {
            count: settings.nodes.len() as u8,
            msgwait,
            members: Mask(0),
            clean: Mask(0),
            seen: Mask(0),
            written: Mask(0),
            ticks: [0; 32],
            fresh: None,
        }
    }

    /// A view is installed: for each of its members what was read and written before counts no more, and so
    /// does the answer of an operation that is out.
    pub fn on_view(&mut self, view: View)
        ensures { (s : Settings) (log : List Line) (line : Line)
            → FenceFor self.old s log
            → line.what ≡ What.View view
            → now log ≤ line.tick
            → disk_of line.outs ≡ None
            → FenceFor self.new s (line ∷ log) }
    {
        self.members = view.members;
        self.clean = self.clean.without(view.members);
        self.seen = self.seen.without(view.members);
        self.written = self.written.without(view.members);
        self.fresh = fresh_outside(self.fresh, view.members);
    }

    /// The next operation of the fencing, for a node that is quorate and chosen: to read the slot of the
    /// least node outside the view that was not read since it was last in one; else to reset the least one
    /// that was since then neither read as clean nor reset; else none.
    pub fn next(&self) -> Want
        ensures { (s : Settings) (log : List Line) → FenceFor self.now s log
            → op_of result ≡ fencing_op s log }
    {
        let outside = self.members.outside();
        if let Some(rank) = outside.without(self.seen).first(self.count) {
            return Want::ReadSlot(rank);
        }
        let left = outside.without(self.clean).without(self.written);
        match left.first(self.count) {
            Some(rank) => Want::WriteReset(rank),
            None => Want::None,
        }
    }

    /// Notes what the newest entry asks of the disk, once it was taken in. It is about no member of the
    /// present view.
    pub fn issued(&mut self, want: Want)
        ensures { (s : Settings) (log : List Line) (line : Line) (outs : List Out)
            → FenceFor self.old s (line ∷ log)
            → is_boot_end line.what ≡ false
            → disk_of line.outs ≡ None
            → want ≡ want_of (disk_of outs)
            → IsOutside (line ∷ log) (disk_of outs)
            → FenceFor self.new s (record line { outs = outs } ∷ log) }
    {
        self.fresh = want.rank().or(self.fresh);
    }

    /// The slot of that node was read, as the operation that is out asked.
    pub fn slot(&mut self, j: Rank, seen: SlotSeen)
        ensures { (s : Settings) (log : List Line) (line : Line)
            → FenceFor self.old s log
            → line.what ≡ What.SlotRead j seen
            → line.asked ≡ ask_place log
            → answers_op (op_out log) line.what ≡ true
            → now log ≤ line.tick
            → disk_of line.outs ≡ None
            → FenceFor self.new s (line ∷ log) }
    {
        if self.is_fresh(j) {
            self.note_slot(j, seen);
        }
    }

    /// The reset that is out was written to that node's mailbox, or not, at this tick.
    pub fn written(&mut self, j: Rank, tick: u64, ok: bool)
        ensures { (s : Settings) (log : List Line) (line : Line)
            → FenceFor self.old s log
            → line.what ≡ What.MailWritten j ok
            → line.tick ≡ tick
            → line.asked ≡ ask_place log
            → answers_op (op_out log) line.what ≡ true
            → now log ≤ line.tick
            → disk_of line.outs ≡ None
            → FenceFor self.new s (line ∷ log) }
    {
        if self.is_fresh(j) {
            self.note_reset(j, tick, ok);
        }
    }

    /// The licence of a node at a tick that is not below that of the last entry.
    pub fn licensed(&self, j: Rank, tick: u64) -> Licence
        requires { j.0 < 32 }
        ensures { (s : Settings) (log : List Line)
            → FenceFor self.now s log
            → now log ≤ tick
            → result ≡ licence_of log j.0 tick }
    {
        if self.clean.contains(j) {
            return Licence::Clean;
        }
        match self.left(j, tick) {
            Some(0) => Licence::Fenced,
            Some(left) => Licence::Waiting { left },
            None => Licence::Unknown,
        }
    }

    /// The least node outside the view that has no licence at a tick that is not below that of the last
    /// entry.
    pub fn unfenced(&self, tick: u64) -> Option<Unfenced>
        ensures { (s : Settings) (log : List Line)
            → FenceFor self.now s log
            → now log ≤ tick
            → result ≡ option_map (unfenced_at log tick) (unfenced s log tick) }
    {
        let unclean = self.members.outside().without(self.clean);
        let rank = unclean.without(self.fenced(tick)).first(self.count)?;
        let left = self.left(rank, tick);
        Some(Unfenced {
            rank,
            written: left.is_some(),
            left: left.unwrap_or(0),
        })
    }

    /// An equal fencer: it stands for each log that this one stands for.
    pub fn copy(&self) -> Self
        ensures equal { result ≡ self.now }
        ensures stands { (s : Settings) (log : List Line) → FenceFor self.now s log
            → FenceFor result s log }
    {
        Fence {
            count: self.count,
            msgwait: self.msgwait,
            members: self.members,
            clean: self.clean,
            seen: self.seen,
            written: self.written,
            ticks: self.ticks,
            fresh: self.fresh,
        }
    }
    /// Whether the operation that is out is about that node, and was asked for since the node was last in a
    /// view.
    fn is_fresh(&self, j: Rank) -> bool
        ensures { result ≡ is_fresh self.now j.0 }
    {
        self.fresh == Some(j)
    }

    /// Notes a read of a node's slot.
    fn note_slot(&mut self, j: Rank, seen: SlotSeen)
        ensures rest { self.new ≡ record self.old { seen = self.new.seen; clean = self.new.clean } }
        ensures seen { (rank : ℕ) → rank < 32
            → is_member self.new.seen rank
            ≡ ((j.0 == rank && is_seen_slot seen) || is_member self.old.seen rank) }
        ensures clean { (rank : ℕ) → rank < 32
            → is_member self.new.clean rank
            ≡ ((j.0 == rank && is_clean_slot seen) || is_member self.old.clean rank) }
    {
        match seen {
            SlotSeen::Read(slot) => {
                self.seen = self.seen.with(j);
                if slot.clean {
                    self.clean = self.clean.with(j);
                }
            }
            SlotSeen::Damaged => self.seen = self.seen.with(j),
            SlotSeen::Failed => {}
        }
    }

    /// Notes the write of a reset to a node at a tick.
    fn note_reset(&mut self, j: Rank, tick: u64, ok: bool)
        ensures rest { self.new
            ≡ record self.old { written = self.new.written; ticks = self.new.ticks } }
        ensures at { (rank : ℕ) → rank < 32
            → written_at self.new rank
            ≡ (if j.0 == rank && ok then Some tick else written_at self.old rank) }
    {
        if ok && j.0 < 32 {
            self.written = self.written.with(j);
            self.ticks[usize::from(j.0)] = tick;
        }
    }

    /// The ticks of msgwait that remain after the reset that was written to a node; None where none was.
    fn left(&self, j: Rank, tick: u64) -> Option<u64>
        requires { j.0 < 32 }
        ensures { result ≡ left_at self.now tick j.0 }
    {
        if self.written.contains(j) {
            let waited = tick.saturating_sub(self.ticks[usize::from(j.0)]);
            Some(self.msgwait.saturating_sub(waited))
        } else {
            None
        }
    }

    /// The nodes to which a reset was written at least msgwait ago.
    fn fenced(&self, tick: u64) -> Mask
        ensures { (rank : ℕ) → rank < 32
            → is_member result rank ≡ is_waited_for self.now tick rank }
    {
        let mut fenced = Mask(0);
        for rank in 0..32 {
            let j = Rank(rank);
            if self.left(j, tick) == Some(0) {
                fenced = fenced.with(j);
            }
        }
        fenced
    }
}

/// The node, where it is none of the members.
fn fresh_outside(fresh: Option<Rank>, members: Mask) -> Option<Rank>
    ensures { result ≡ fresh_outside members fresh }
{
    match fresh {
        Some(rank) if !members.has(rank) => Some(rank),
        _ => None,
    }
}
