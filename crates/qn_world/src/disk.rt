//! The disk of a world: what the operations took, the sectors of the one image and the leftovers. To `qn_cluster` the one
//! image is image 1.
ghost use Rattle.std.specs.Prelude.{◌≡◌, option_to_list};
ghost use Rattle.qn_model.specs.World.{given_up};

use crate::state::State;
use qn_base::{NoMemory, Rank};
use qn_model::{DiskOp, Message, What};

/// What an operation leaves over where it is given up now: a write that did not land.
fn given_up(op: Option<DiskOp>, took: Option<What>) -> Option<DiskOp>
    ensures { option_to_list result ≡ given_up op took }
{
    match (op, took) {
        (Some(op), None) if op.is_write() => Some(op),
        _ => None,
    }
}

impl State {
    ghost use Rattle.std.specs.Prelude.{◌≡◌, ◌≢◌, ◌<◌, ◌≤◌, ◌∷◌, [], None, Some, Option, OnOk, OnErr, OnSome, is_some, length, slice_get, slice_set, take};
    ghost use Rattle.qn_cluster.specs.Standing.{IsOpWithin, IsWithin};
    ghost use Rattle.qn_model.specs.declared.entries.What.{What};
    ghost use Rattle.qn_model.specs.Steps.{with_mail, written};
    ghost use Rattle.qn_model.specs.World.{World, given_up, numbered, put, taken, without};
    ghost use Rattle.qn_cluster.specs.WorldSteps.{Turns};
    ghost use Rattle.qn_world.specs.Standing.{WorldFor, one_image};
    ghost use Rattle.qn_world.specs.Stepping.{LeavesOver};

    /// What the operation of a rank took.
    pub(crate) fn took(&self, i: Rank) -> Option<What>
        requires { i.0 < 32 }
        ensures { (took : Option What) → slice_get self.now.took i.0 ≡ Some took → result ≡ took }
    {
        self.took[usize::from(i.0)]
    }

    /// What the operation of a rank took is this.
    pub(crate) fn take(&mut self, i: Rank, took: Option<What>)
        requires { i.0 < 32 }
        ensures { self.new ≡ record self.old { took = slice_set self.old.took i.0 took } }
    {
        self.took[usize::from(i.0)] = took;
    }

    /// The entry that answers an operation of a rank that lands: a read takes the value of its sector.
    pub(crate) fn taken(&self, i: Rank, op: DiskOp) -> What
        requires within { i.0 < 32 }
        requires target { IsWithin 32 op }
        ensures { (d : World) → WorldFor self.now d
            → result ≡ taken self.now.settings self.now.timing i.0 op d }
    {
        self.sectors
            .taken(self.cluster.settings(), self.timing, i, op)
    }

    /// The message in the mailbox of a rank.
    pub(crate) fn mailbox(&self, i: Rank) -> Message
        requires { i.0 < 32 }
        ensures { (d : World) → WorldFor self.now d → result ≡ d.mailboxes i.0 }
    {
        self.sectors.mailbox(i)
    }

    /// A message replaces what the mailbox of a rank holds.
    pub(crate) fn set_mailbox(&mut self, i: Rank, message: Message)
        requires { i.0 < 32 }
        ensures { Turns one_image self.old self.new (with_mail i.0 message) }
    {
        self.sectors.set_mailbox(i, message);
    }

    /// An operation of a rank lands: a write replaces the value of its sector.
    pub(crate) fn write(&mut self, i: Rank, op: DiskOp)
        requires within { i.0 < 32 }
        requires target { IsWithin 32 op }
        ensures { Turns one_image self.old self.new (written i.0 op) }
    {
        self.sectors.write(i, op);
    }

    /// A write is left over.
    fn leave_over(&mut self, i: Rank, op: DiskOp) -> Result<(), NoMemory>
        requires { (d : World) → WorldFor self.old d
            → IsWithin (length self.old.settings.nodes) op }
        ensures ok { OnOk result (LeavesOver self.old self.new i.0 (op ∷ [])) }
        ensures err { OnErr result (self.new ≡ self.old) }
    {
        self.left.leave(i, op, &[true, false, false])
    }

    /// An operation of a rank, which took this, is given up: a write that did not land is left over.
    pub(crate) fn give_up(
        &mut self,
        i: Rank,
        op: Option<DiskOp>,
        took: Option<What>,
    ) -> Result<(), NoMemory>
        requires { (d : World) → WorldFor self.old d
            → IsOpWithin (length self.old.settings.nodes) op }
        ensures ok { OnOk result (LeavesOver self.old self.new i.0 (given_up op took)) }
        ensures err { OnErr result (self.new ≡ self.old) }
        ensures cause { OnErr result (given_up op took ≢ []) }
    {
        match given_up(op, took) {
            Some(op) => self.leave_over(i, op),
            None => Ok(()),
        }
    }

    /// Whether there is a leftover of a rank with that number, from 1.
    pub(crate) fn has_left(&self, i: Rank, number: u64) -> bool
        requires { 1 ≤ number }
        ensures { (d : World) → WorldFor self.now d
            → result ≡ is_some (numbered (d.left i.0) number) }
    {
        self.left.has(i, 1, number)
    }

    /// How many leftovers there are of a rank.
    pub(crate) fn left_of(&self, i: Rank) -> u64
        ensures { (d : World) → WorldFor self.now d → result ≡ length (d.left i.0) }
    {
        self.left.count_of(i, 1)
    }

    /// The leftover of a rank with that number, from 1, leaves the list.
    pub(crate) fn take_left(&mut self, i: Rank, number: u64) -> Option<DiskOp>
        requires { 1 ≤ number }
        ensures op { (d : World) → WorldFor self.old d → result ≡ numbered (d.left i.0) number }
        ensures within { (d : World) → WorldFor self.old d
            → IsOpWithin (length self.old.settings.nodes) result }
        ensures rest { OnSome result (Turns one_image self.old self.new
            (λ d. record d { left = put d.left i.0 (without (d.left i.0) number) })) }
        ensures none { result ≡ None → self.new ≡ self.old }
    {
        self.left.take(i, 1, number)
    }

    /// The leftovers of a rank are dropped.
    pub(crate) fn drop_left(&mut self, i: Rank)
        ensures { Turns one_image self.old self.new (λ d. record d { left = put d.left i.0 [] }) }
    {
        self.left.drop_of(i);
    }

    /// How many leftovers there are.
    pub(crate) fn left_count(&self) -> usize
        ensures { result ≡ length self.now.left }
    {
        self.left.len()
    }

    /// Only the first leftovers stay.
    pub(crate) fn keep_left(&mut self, count: usize)
        ensures { self.new ≡ record self.old { left = take count self.old.left } }
    {
        self.left.keep(count);
    }
}
