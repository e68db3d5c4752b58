//! The laws of running nodes on three images that share one outside.
ghost use Rattle.std.specs.Prelude.{◌≡◌, ℕ, Bool, IsTrue, List, Option, Some, is_some};
ghost use Rattle.qn_base.specs.declared.calls.Call.{Call};
ghost use Rattle.qn_base.specs.declared.ids.Rank.{Rank};
ghost use Rattle.qn_base.specs.Calls.{blank};
ghost use Rattle.qn_base.specs.Plans.{left, question};
ghost use Rattle.qn_model.specs.declared.configuration.Settings.{Settings};
ghost use Rattle.qn_model.specs.declared.disk.Message.{Message};
ghost use Rattle.qn_model.specs.declared.times.Timing.{Timing};
ghost use Rattle.qn_model.specs.Timing.{is_safe};
ghost use Rattle.qn_live.specs.TripleRuns.{triple_plan};
ghost use Rattle.qn_joined.specs.Joints.{is_disk, waits_for};
ghost use Rattle.qn_joined.specs.TripleJoints as joints;
ghost use Rattle.qn_joined.specs.TripleJoints.{TripleHost, began_triple, plan_left, returned_triple};
ghost use Rattle.qn_joined.specs.TripleNodes.{KeepsAWorld, ReturnsALook, ReturnsPlainly};
ghost use Rattle.qn_joined.specs.TripleTheorem.{AlwaysOwnsOnThree, AtMostOneRunsOnThree, EveryTripleJointHasAWorld, OneAfterAnotherOnThree};
ghost use Rattle.qn_joined.specs.TripleWorldOf.{CallsAnswer};

use crate::laws::{law_mails_read_back, law_packets_read_back, law_takes_alike};
use qn_live::{law_triple_answers, law_triple_check, law_triple_writes};
use qn_safety::{law_triple_any_numbers, law_triple_nodes};

/// Law: a process of a joined run on three images makes the calls of the run of its node on three images: it begins with what
/// is left of that run where its host stands, and after each call of a run that is not over what is left is what is left where its
/// host stands then.
pub fn law_triple_stands()
    ensures begins { (s : Settings) (me : ℕ) (clean : Bool) (leave polls : Option ℕ) (turns time : ℕ)
        → triple_plan s me clean leave polls turns
        ≡ plan_left s me (began_triple s me clean leave polls turns time) }
    ensures goes_on { (s : Settings) (me : ℕ) (host : TripleHost) (made : Call) (time : ℕ)
        → IsTrue (is_some (waits_for s me host.one))
        → question host.call ≡ Some (blank made)
        → left (plan_left s me host) made ≡ plan_left s me (returned_triple s me made time host) }
{}

/// Law: the calls of a disk operation on three images, whatever each of them answers, end with the answer that the world of
/// three images gives, and leave the good images that it leaves.
pub fn law_triple_calls()
    ensures { (s : Settings) (t : Timing) → CallsAnswer s t }
{
    law_triple_answers();
    law_triple_check();
    law_triple_writes();
}

/// Law: where a joint of running nodes on three images is a world of three images, it is one after a disk call landed on the
/// image that it is made on: that is one event, and the image holds what the image of the world holds.
pub fn law_triple_lands()
    ensures { (s : Settings) (t : Timing) (rank : ℕ) → KeepsAWorld s t (joints.Lands rank) }
{
    law_takes_alike();
    law_triple_nodes();
    law_triple_calls();
}

/// Law: the same after the machine of a host is off: that is one event where its node takes part in time, and else none.
pub fn law_triple_ends()
    ensures { (s : Settings) (t : Timing) (rank : ℕ) → KeepsAWorld s t (joints.Ends rank) }
{
    law_triple_nodes();
    law_triple_calls();
}

/// Law: the same after a write that was given up on an image landed there after all.
pub fn law_triple_late()
    ensures { (s : Settings) (t : Timing) (rank image number : ℕ)
        → KeepsAWorld s t (joints.LandsLate rank image number) }
{}

/// Law: the same after time passed.
pub fn law_triple_passes()
    ensures { (s : Settings) (t : Timing) (dt : ℕ) (clocks : List (Rank × ℕ))
        → KeepsAWorld s t (joints.Passes dt clocks) }
{}

/// Law: the same after a process began: its node is off.
pub fn law_triple_begins()
    ensures { (s : Settings) (t : Timing) (rank : ℕ) (clean : Bool) (leave polls : Option ℕ) (turns : ℕ)
        → KeepsAWorld s t (joints.Begins rank clean leave polls turns) }
{}

/// Law: the same after a process looked at its clock for the first time: that is the boot of its node, on three good images.
pub fn law_triple_looks()
    ensures { (s : Settings) (t : Timing) (rank base : ℕ)
        → KeepsAWorld s t (joints.Looks rank base) }
{
    law_triple_nodes();
}

/// Law: the same after a feed took effect: that is one event where the node takes part in time, and else none.
pub fn law_triple_feeds()
    ensures { (s : Settings) (t : Timing) (rank : ℕ) → KeepsAWorld s t (joints.Feeds rank) }
{}

/// Law: the same after an operator wrote to a mailbox of an image.
pub fn law_triple_operates()
    ensures { (s : Settings) (t : Timing) (rank image : ℕ) (sent : Message)
        → KeepsAWorld s t (joints.Operates rank image sent) }
{
    law_mails_read_back();
}

/// Law: the same after a disk call on an image returned: where it failed its part fails in the world, and once all images told
/// those that were not asked fail too, and the node takes the answer that the world gives.
pub fn law_triple_tells()
    ensures { (s : Settings) (t : Timing) (rank : ℕ) (made : Call)
        → IsTrue (is_disk made) → KeepsAWorld s t (joints.Returns rank made) }
{
    law_triple_nodes();
    law_triple_calls();
}

/// Law: the same after a call returned that is none of the disk and no look at the clock.
pub fn law_triple_returns()
    ensures { (s : Settings) (t : Timing) (rank : ℕ) (made : Call) → ReturnsPlainly s t rank made }
{
    law_triple_nodes();
    law_triple_calls();
    law_packets_read_back();
}

/// Law: the same after a look at the clock returned, of a process that has looked before: that is the event of the entry that the
/// node is handed, and the parts of an operation that failed fail before it is answered.
pub fn law_triple_looks_return()
    ensures { (s : Settings) (t : Timing) (rank : ℕ) (made : Call) → ReturnsALook s t rank made }
{
    law_triple_nodes();
    law_triple_calls();
}

/// Law: the same after any call returned.
pub fn law_triple_returns_any()
    ensures { (s : Settings) (t : Timing) (rank : ℕ) (made : Call)
        → KeepsAWorld s t (joints.Returns rank made) }
{
    law_triple_tells();
    law_triple_returns();
    law_triple_looks_return();
}

/// Law: every joint of running nodes on three images has a world of three images: each joined run is a run of that world.
pub fn law_triple_worlds()
    ensures { (s : Settings) (t : Timing) → EveryTripleJointHasAWorld s t }
{
    law_triple_passes();
    law_triple_begins();
    law_triple_looks();
    law_triple_lands();
    law_triple_returns_any();
    law_triple_feeds();
    law_triple_late();
    law_triple_ends();
    law_triple_operates();
}

/// Law: in every joint of a joined run on three images a resource that runs is held by the log of its node.
pub fn law_triple_owned()
    ensures { (s : Settings) (t : Timing) → AlwaysOwnsOnThree s t }
{
    law_triple_nodes();
    law_triple_calls();
    law_packets_read_back();
    law_triple_worlds();
}

/// Law: at most one resource runs at any moment of a joined run on three images, for all safe timing, though any one image may
/// fail, lag behind or come back.
pub fn law_triple_one_owner()
    ensures { (s : Settings) (t : Timing) → IsTrue (is_safe t) → AtMostOneRunsOnThree s t }
{
    law_triple_any_numbers();
    law_triple_worlds();
    law_triple_owned();
}

/// The premises are met: there is a joined run on three images with safe times in which one image is lost all the time, the
/// resources of two nodes run, one after the other, and a deadly message stands in the mailbox of the first.
pub fn law_triple_joints_are_met()
    ensures { OneAfterAnotherOnThree }
{}
