//! The laws of running nodes that share one outside.
ghost use Rattle.std.specs.Prelude.{◌≡◌, ℕ, Bool, Option, IsTrue, Some};
ghost use Rattle.qn_base.specs.declared.calls.Call.{Call};
ghost use Rattle.qn_base.specs.Plans.{left};
ghost use Rattle.qn_model.specs.declared.configuration.Settings.{Settings};
ghost use Rattle.qn_model.specs.declared.times.Timing.{Timing};
ghost use Rattle.qn_joined.specs.Theorem.{AlwaysOwns, AtMostOneRuns, MailsReadBack, OneAfterAnother, OwnerIsReset, PacketsReadBack, RunsAreRuns, TakesAlike};
ghost use Rattle.qn_joined.specs.WorldOf.{EveryJointHasAWorld, WorldsGrow};
ghost use Rattle.qn_joined.specs.AnyImage.{AtMostOneRunsAgain, EveryJointHasAWorldAgain, NewImagesAreLeft};
ghost use Rattle.qn_joined.specs.Moves.{BeginsAsNode, BootsInWorld, EachIsOneEvent, EndsInWorld, FeedsInWorld, LooksInWorld, NewImageIsWorld};
ghost use Rattle.qn_joined.specs.Nodes.{LooksAsNode, ReturnsAsNode};
ghost use Rattle.qn_model.specs.Timing.{is_safe};
ghost use Rattle.qn_live.specs.Runs.{live_plan};
ghost use Rattle.qn_joined.specs.Stands.{Stand, after_call, first_stand, plan_at};
ghost use Rattle.qn_joined.specs.Joints.{Host, returned, waits_for};
ghost use Rattle.qn_base.specs.Calls.{blank};
ghost use Rattle.qn_joined.specs.Owning.{Owns};

use qn_safety::{law_any_numbers, law_node_logs};

/// Law: a run begins at its first stand, and after each call what is left of it is what is left at the stand after that call.
pub fn law_stands()
    ensures begins { (s : Settings) (me : ℕ) (clean : Bool) (leave polls : Option ℕ) (turns : ℕ)
        → live_plan s me clean leave polls turns ≡ plan_at s me leave (first_stand clean polls turns) }
    ensures goes_on { (s : Settings) (me : ℕ) (leave : Option ℕ) (stand : Stand) (call : Call)
        → left (plan_at s me leave stand) call ≡ plan_at s me leave (after_call s me leave stand call) }
{}

/// Law: at most one resource runs at any moment of a joined run, for all safe timing.
pub fn law_one_owner()
    ensures { (s : Settings) (t : Timing) → IsTrue (is_safe t) → AtMostOneRuns s t }
{
    law_any_numbers();
    law_worlds();
}

/// Law: every joint has a world: each joined run is a run of the world.
pub fn law_worlds()
    ensures { (s : Settings) (t : Timing) → EveryJointHasAWorld s t }
{
    law_node_logs();
    law_takes_alike();
    law_packets_read_back();
    law_mails_read_back();
}

/// Law: where further happenings lead from a joint that has a world to another one, further events lead from that world to a world
/// of the other.
pub fn law_worlds_grow()
    ensures { (s : Settings) (t : Timing) → WorldsGrow s t }
{
    law_node_logs();
    law_takes_alike();
    law_packets_read_back();
    law_mails_read_back();
}

/// Law: each thing that happens to a joint that has a world is one event of that world at most: a pass, the boot of a node, what a look
/// at the clock hands it, or an event that hands no view and no answer of the device. A new image, with every machine off, has the
/// world before any event.
pub fn law_each_is_one_event()
    ensures first { (s : Settings) (t : Timing) → NewImageIsWorld s t }
    ensures one { (s : Settings) (t : Timing) → EachIsOneEvent s t }
{
    law_node_logs();
    law_takes_alike();
    law_packets_read_back();
    law_mails_read_back();
}

/// Law: at most one resource runs at any moment of running nodes that began, every machine off, on an image that was used before,
/// whatever nodes and operators left in its slots and mailboxes, for all safe timing.
pub fn law_one_owner_again()
    ensures { (s : Settings) (t : Timing) → IsTrue (is_safe t) → AtMostOneRunsAgain s t }
{
    law_any_numbers();
    law_worlds_again();
}

/// Law: every such joint has a world.
pub fn law_worlds_again()
    ensures { (s : Settings) (t : Timing) → IsTrue (is_safe t) → EveryJointHasAWorldAgain s t }
{
    law_node_logs();
    law_takes_alike();
    law_packets_read_back();
    law_mails_read_back();
}

/// Law: a new image is one that nodes and operators may have left.
pub fn law_new_images_are_left()
    ensures { (s : Settings) (t : Timing) → NewImagesAreLeft s t }
{}

/// Law: a packet whose numbers fit their bytes is read as what it is.
pub fn law_packets_read_back()
    ensures { PacketsReadBack }
{
    qn_wire::law_read_back();
}

/// Law: a mailbox is read as what was written.
pub fn law_mails_read_back()
    ensures { MailsReadBack }
{
    qn_sector::law_read_back();
}

/// Law: what a node reads in the bytes of an image is what its operation takes in the world that the image is of.
pub fn law_takes_alike()
    ensures { (s : Settings) (t : Timing) → TakesAlike s t }
{
    qn_sector::law_read_back();
}

/// Law: the calls of each process that runs are the beginning of a run of its node.
pub fn law_processes()
    ensures { (s : Settings) (t : Timing) → RunsAreRuns s t }
{}

/// Law: where a call returns that a running node waits for, a resource that runs is still held.
pub fn law_returns_own()
    ensures { (s : Settings) (me time : ℕ) (host : Host) (made : Call)
        → waits_for s me host ≡ Some (blank made)
        → Owns host.stand.spot host.runs
        → Owns (returned s me made time host).stand.spot (returned s me made time host).runs }
{}

/// Law: in every joint a resource that runs is held by the log of its node.
pub fn law_owned()
    ensures { (s : Settings) (t : Timing) → AlwaysOwns s t }
{}

/// The premises are met: there is a joined run with safe times in which the resources of two nodes run, one after the other, and a
/// deadly message stands in the mailbox of the first.
pub fn law_joints_are_met()
    ensures { OneAfterAnother }
{}

/// The premises are met by two machines that run beside each other, with valid settings: an Ask and a Tell count, the owner is reset
/// while its resource runs, a write that failed lands after all, an operator writes, and the other node takes over.
pub fn law_owner_is_reset()
    ensures { OwnerIsReset }
{}

/// Law: a call that returns, and that is no look at the clock, leaves a running node the node of the world that it was.
pub fn law_returns_as_node()
    ensures { (s : Settings) (rank : ℕ) → ReturnsAsNode s rank }
{}

/// Law: a look at the clock hands the node of the world what it hands the running node, and leaves the one the other, where the
/// log of that node is as the logs of a world are.
pub fn law_looks_as_node()
    ensures { (s : Settings) (rank : ℕ) → LooksAsNode s rank }
{}

/// Law: a look at the clock of a running node is one event that the rules of its world allow, and leaves it the node of the world
/// after it; no other node and no sector changes.
pub fn law_looks_in_world()
    ensures { (s : Settings) (t : Timing) → LooksInWorld s t }
{
    law_node_logs();
}

/// Law: a process that begins is a node of the world that is off.
pub fn law_begins_as_node()
    ensures { (s : Settings) (rank : ℕ) → BeginsAsNode s rank }
{}

/// Law: the first look of a process at its clock is the boot of its node.
pub fn law_boots_in_world()
    ensures { (s : Settings) (t : Timing) → BootsInWorld s t }
{
    law_node_logs();
}

/// Law: a feed that takes effect is one event of the world where the node takes part in time, and else none.
pub fn law_feeds_in_world()
    ensures { (s : Settings) (t : Timing) → FeedsInWorld s t }
{}

/// Law: a machine that is off is one event of the world where its node takes part in time, and else none.
pub fn law_ends_in_world()
    ensures { (s : Settings) (t : Timing) → EndsInWorld s t }
{
    law_node_logs();
}
