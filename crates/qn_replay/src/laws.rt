//! The laws of ends and of traces, of three images and beside an arbiter.
ghost use Rattle.qn_replay.specs.BesideEndings.{ReplayFits as ArbiterFits};
ghost use Rattle.qn_replay.specs.BesideTrace.{TracesAreRuns as ArbiterTracesAreRuns};
ghost use Rattle.qn_replay.specs.TripleEndings.{Replay3Fits};
ghost use Rattle.qn_replay.specs.TripleTrace.{TracesAreRuns as TripleTracesAreRuns};

use qn_arbiter::law_arbiter_lines;
use qn_safety::{law_one_holder_beside, law_triple_no_two_holders};
use qn_settings::law_valid_settings;
use qn_triple::law_triple_lines;

/// An input of three images that was read to its end gives no ReadFault, and one of which a read failed is never Done.
/// No input gives WriteFault, NoMemory or UnsafeLease.
pub fn law_triple_ending()
    ensures { Replay3Fits }
{}

/// The trace of each replay of three images is that of a run of their world: the settings are valid and the times safe,
/// each event was well formed and allowed in its turn, each line is that of the report of its event, and at most one
/// holder is named in each.
pub fn law_triple_one_holder()
    ensures { TripleTracesAreRuns }
{
    law_valid_settings();
    law_triple_lines();
    law_triple_no_two_holders();
}

/// An input beside an arbiter that was read to its end gives no ReadFault, and one of which a read failed is never
/// Done. No input gives WriteFault or NoMemory.
pub fn law_arbiter_ending()
    ensures { ArbiterFits }
{}

/// The trace of each replay beside an arbiter is that of a run of the world: the settings are valid, the times and the
/// lease safe, each event was well formed and allowed in its turn, each line is that of the report of its event, and at
/// most one holder is named in each.
pub fn law_arbiter_traces()
    ensures { ArbiterTracesAreRuns }
{
    law_valid_settings();
    law_arbiter_lines();
    law_one_holder_beside();
}
