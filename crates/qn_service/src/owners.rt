//! The laws of running nodes by their worlds: the loop's time, what runs, and an owner that is well.
ghost use Rattle.std.specs.Prelude.{IsTrue};
ghost use Rattle.qn_model.specs.declared.configuration.Settings.{Settings};
ghost use Rattle.qn_model.specs.declared.times.Timing.{Timing};
ghost use Rattle.qn_model.specs.Timing.{is_safe};
ghost use Rattle.qn_service.specs.Between.{MomentsAreOfJoints, OwnerIsWell, OwnersGoOn};
ghost use Rattle.qn_service.specs.Heard.{NobodyHeardIsReset};
ghost use Rattle.qn_service.specs.Holders.{HoldersRun};
ghost use Rattle.qn_service.specs.Loops.{LooksByTheImage, LooksByTheImageAgain};

use crate::laws::law_nobody_is_reset;

/// Law: each look of a running node is by the loop's time of the image, in each joined run; also in one that began on an image that nodes
/// and operators left.
pub fn law_looks_by_the_image()
    ensures new { (s : Settings) (t : Timing) → LooksByTheImage s t }
    ensures again { (s : Settings) (t : Timing) → IsTrue (is_safe t) → LooksByTheImageAgain s t }
{
    qn_joined::law_worlds();
    qn_joined::law_worlds_again();
    qn_sector::law_read_back();
}

/// Law: in a joined run in which each look of a node that leads hears each other one nobody asks for a reset: its last Hello came at most
/// three loops of the image ago, it names the leader, follows no other node, and all that the leader sees know names.
pub fn law_nobody_heard_is_reset()
    ensures { (s : Settings) (t : Timing) → NobodyHeardIsReset s t }
{
    law_looks_by_the_image();
    law_nobody_is_reset();
}

/// Law: where the log of a machine that is on holds, its resource runs, or a Stop of it is unanswered.
pub fn law_holders_run()
    ensures { (s : Settings) (t : Timing) → HoldersRun s t }
{}

/// Law: further happenings lead from a joint that has a world to one with a world of further events, and all moments between these
/// two worlds are those of joints between. So what is said of each joint between is said of each moment between.
pub fn law_moments_are_of_joints()
    ensures { (s : Settings) (t : Timing) → MomentsAreOfJoints s t }
{
    qn_joined::law_each_is_one_event();
}

/// Law: an owner of which no Stop is unanswered goes on running its resource while at each joint its machine is on, and its node is up and
/// quorate and has a view that neither names another member nor bars all.
pub fn law_owners_go_on()
    ensures { (s : Settings) (t : Timing) → OwnersGoOn s t }
{
    qn_joined::law_worlds();
    qn_joined::law_owned();
    qn_progress::law_holder_holds();
    qn_progress::law_keeper_is_calm();
    law_moments_are_of_joints();
    law_holders_run();
}

/// The premises of `law_owners_go_on` are met: in a joined run with safe times a node that is alone boots, starts its resource, and goes on
/// running it while a loop passes.
pub fn law_owner_is_well()
    ensures { OwnerIsWell }
{}
