//! The laws of heads, texts and ends, and the law that a trace names one holder at most.
ghost use Rattle.std.specs.Prelude.{◌≡◌, ◌++◌, codes};
ghost use Rattle.qn_conf.specs.declared.faults.ConfFault.TheVariants.{ExtraClose};
ghost use Rattle.qn_model.specs.Lines.{Ended, ReadFailed};
ghost use Rattle.qn_model.specs.declared.line_fault.LineFault.TheVariants.{Unended, UnknownWord};
ghost use Rattle.qn_replay.specs.Endings.{ReplayFits};
ghost use Rattle.qn_replay.specs.Replay.{ends, replay_of};
ghost use Rattle.qn_replay.specs.RunTrace.{TracesAreRuns};
ghost use Rattle.qn_sched.specs.declared.replay_end.ReplayEnd.TheVariants.{BadConf, BadSettings, BadSchedule, Done, ReadFault, UnsafeTiming};
ghost use Rattle.qn_settings.specs.declared.faults.SettingsFault.TheVariants.{NoNodes};

use qn_safety::law_no_two_holders;
use qn_sched::law_event_lines;
use qn_settings::law_valid_settings;

/// The head of one node is good, and a line after it begins no event. Where the timing line is due and
/// the input ends, it is unended; where a read fails there, that is the end.
pub fn law_heads()
    ensures good { (replay_of Ended
        (codes "nodelist {\nnode {\nnodeid: 1\n}\n}\n----\ntiming 5000 10000 1000 2000 1000\n")).end
        ≡ Done 0 }
    ensures event { (replay_of Ended
        (codes "nodelist {\nnode {\nnodeid: 1\n}\n}\n----\ntiming 5000 10000 1000 2000 1000\ntock 1\n")).end
        ≡ BadSchedule 8 UnknownWord }
    ensures no_timing { replay_of Ended (codes "nodelist {\nnode {\nnodeid: 1\n}\n}\n----\n")
        ≡ ends (BadSchedule 7 Unended) }
    ensures failed { replay_of ReadFailed (codes "nodelist {\nnode {\nnodeid: 1\n}\n}\n----\n")
        ≡ ends ReadFault }
    ensures unsafe_times { replay_of Ended
        (codes "nodelist {\nnode {\nnodeid: 1\n}\n}\n----\ntiming 5000 8163 1000 2000 1000\n")
        ≡ ends (UnsafeTiming
        (record {
          watchdog = 5000;
          msgwait = 8163;
          loop_ms = 1000;
          read_limit = 2000;
          feed_delay = 1000;
        })) }
{}

/// The faults of a settings text come at its end `----`, before the timing line; without that end they do
/// not count.
pub fn law_texts()
    ensures empty { replay_of Ended (codes "") ≡ ends (BadSchedule 1 Unended) }
    ensures no_nodes { replay_of Ended (codes "----\n") ≡ ends (BadSettings NoNodes) }
    ensures extra_close { replay_of Ended (codes "}\n----\ntock\n")
        ≡ ends (BadConf (ExtraClose 1)) }
    ensures no_end { replay_of Ended (codes "}\n----") ≡ ends (BadSchedule 2 Unended) }
{}

/// An input that was read to its end gives no ReadFault, and one of which a read failed is never Done. No
/// input gives WriteFault, NoMemory or UnsafeLease.
pub fn law_ending()
    ensures { ReplayFits }
{}

/// The trace of each replay is that of a run of the world: the settings are valid and the times safe, each
/// event was well formed and allowed in its turn, each line is that of the report of its event, and at most
/// one holder is named in each.
pub fn law_one_holder()
    ensures { TracesAreRuns }
{
    law_valid_settings();
    law_event_lines();
    law_no_two_holders();
}
