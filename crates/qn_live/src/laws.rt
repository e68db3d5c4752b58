//! The laws of a run.
ghost use Rattle.std.specs.Prelude.{◌≡◌, ◌<◌, ◌++◌, ◌∷◌, ℕ, Bool, true, false, List, [], Option, None, Some, length, map};
ghost use Rattle.qn_base.specs.declared.calls.Call.{Call};
ghost use Rattle.qn_base.specs.Calls.{blank, some_failed};
ghost use Rattle.qn_base.specs.Plans.{Follows, Plan, question};
ghost use Rattle.qn_member.specs.Naming.{NamingMaker};
ghost use Rattle.qn_member.specs.NamingViews.{is_naming_hello_due};
ghost use Rattle.qn_model.specs.declared.configuration.Settings.{Settings};
ghost use Rattle.qn_model.specs.declared.entries.What.{What};
ghost use Rattle.qn_model.specs.declared.outputs.BootCause.{BootCause};
ghost use Rattle.qn_model.specs.declared.outputs.DiskOp.{DiskOp};
ghost use Rattle.qn_model.specs.declared.outputs.Out.{Out};
ghost use Rattle.qn_model.specs.Log.{now};
ghost use Rattle.qn_model.specs.Settings.{IsValid};
ghost use Rattle.qn_model.specs.World.{failed};
ghost use Rattle.qn_node.specs.Outputs.{IsNodeOutput};
ghost use Rattle.qn_live.specs.declared.run.NodeRun.{NodeRun};
ghost use Rattle.qn_live.specs.declared.place.Choice.{Choice};
ghost use Rattle.qn_live.specs.declared.live_end.LiveEnd.{LiveEnd};
ghost use Rattle.qn_live.specs.Choosing.{choice_plan, failed_answer, is_late, look_after, ready};
ghost use Rattle.qn_live.specs.Greetings.{maker_of};
ghost use Rattle.qn_live.specs.Hellos.{hellos_of, send_call};
ghost use Rattle.qn_live.specs.Halts.{HaltedBy, IsNewest, is_on_disk, one_call};
ghost use Rattle.qn_live.specs.Handed.{HandsHistory};
ghost use Rattle.qn_live.specs.Laws.{IsHistory, NeverFalls, is_by_call, is_by_clock, is_no_failure, is_sound, outputs_among, outputs_of, takes_answer};
ghost use Rattle.qn_live.specs.Machine.{RunFor, operation_of};
ghost use Rattle.qn_live.specs.Performing.{disk_call, own_number};
ghost use Rattle.qn_live.specs.Polling.{answered_at, poll_calls, poll_due};
ghost use Rattle.qn_live.specs.Running.{Next, Ran, RunState};
ghost use Rattle.qn_live.specs.Runs.{asked_maker, clocked, greeted, handled, live_plan};

/// Law: what a node is handed in a run is one history.
pub fn law_one_history()
    ensures { (s : Settings) (me : ℕ) (clean : Bool) (leave polls : Option ℕ) (turns : ℕ)
        (calls : List Call) (ran : Ran)
        → Follows (live_plan s me clean leave polls turns) calls ran
        → IsHistory s me ran.log }
{}

/// Law: what a node is handed in a run begins with the one entry that begins its boot, cleanly or not as it was told, its ticks
/// never fall, and they are what the clock told in the calls of the run, one after the other. A clock that went back told one
/// tick more, and ended the run.
pub fn law_handed_history()
    ensures { (s : Settings) (me : ℕ) (clean : Bool) (leave polls : Option ℕ) (turns : ℕ)
        (calls : List Call) (ran : Ran)
        → Follows (live_plan s me clean leave polls turns) calls ran
        → HandsHistory s me clean calls ran }
{}

/// Law: the calls of a run, but for those that receive, look at the clock, or send a Hello, an Announce or a poll, are the outputs
/// of what the node was handed, in order.
pub fn law_outputs()
    ensures { (s : Settings) (me : ℕ) (clean : Bool) (leave polls : Option ℕ) (turns : ℕ)
        (calls : List Call) (ran : Ran)
        → Follows (live_plan s me clean leave polls turns) calls ran
        → outputs_among calls ≡ outputs_of s me ran.log }
{}

/// Law: a run ends once, and in one way.
pub fn law_one_end()
    ensures one { (s : Settings) (me : ℕ) (clean : Bool) (leave polls : Option ℕ) (turns : ℕ)
        (calls : List Call) (ran other : Ran)
        → Follows (live_plan s me clean leave polls turns) calls ran
        → Follows (live_plan s me clean leave polls turns) calls other
        → ran ≡ other }
    ensures once { (s : Settings) (me : ℕ) (clean : Bool) (leave polls : Option ℕ) (turns : ℕ)
        (calls : List Call) (call : Call)
        (more : List Call) (ran other : Ran)
        → Follows (live_plan s me clean leave polls turns) calls ran
        → Follows (live_plan s me clean leave polls turns) (calls ++ call ∷ more) other
        → ⊥ }
{}

/// Law: after a failed answer of the disk the next turn takes no answer of the disk, and the one that waits goes on waiting.
/// The turn after that one rests only where its own entry was a failed answer.
pub fn law_rest()
    ensures none { (me : ℕ) (leaves : Bool) (st : RunState) (calls : List Call)
        (chosen : Choice × RunState)
        → st.rests ≡ true
        → Follows (choice_plan me leaves st) calls chosen
        → takes_answer chosen.0 ≡ false }
    ensures waits { (me : ℕ) (leaves : Bool) (st : RunState) (calls : List Call)
        (chosen : Choice × RunState)
        → st.rests ≡ true
        → Follows (choice_plan me leaves st) calls chosen
        → chosen.1.waits.disk ≡ st.waits.disk }
    ensures next { (s : Settings) (me : ℕ) (st : RunState) (tick : ℕ) (found : Option NamingMaker × What)
        (calls : List Call)
        (next : RunState)
        → Follows (handled s me st tick found) calls (Next next)
        → next.rests ≡ failed_answer found.1 }
{}

/// Law: where the last look of the view maker is a loop ago or more, a turn that has no entry of its own makes no call for a packet,
/// and looks. The tick of the last look is that of the last entry that was no entry of the turn's own, or that came while there was
/// no view maker.
pub fn law_late_look()
    ensures none { (me : ℕ) (leaves : Bool) (st : RunState) (calls : List Call)
        (chosen : Choice × RunState)
        → is_late st ≡ true
        → ready leaves st.rests st.waits ≡ None
        → Follows (choice_plan me leaves st) calls chosen
        → (calls ≡ []) × (chosen ≡ (Choice.Open None, st)) }
    ensures last { (s : Settings) (me : ℕ) (choice : Choice) (st : RunState) (tick : ℕ)
        (calls : List Call)
        (next : RunState)
        → Follows (clocked s me (choice, st) tick) calls (Next next)
        → next.last_look
        ≡ look_after tick (answered_at tick st.poller choice) st.maker st.last_look }
{}

/// Law: where a Hello is due at the end of a turn, one is sent to each other configured node, in ascending order of their ranks, which
/// says what the last look found and what the node says of itself, and then the view that the node announces. Before them goes the
/// poll to the arbiter, where one is due.
pub fn law_hellos()
    ensures { (s : Settings) (me : ℕ) (entry : What) (st : RunState) (m : NamingMaker) (calls : List Call)
        (next : RunState)
        → maker_of s me st ≡ Some m
        → is_naming_hello_due (now st.log) m ≡ true
        → Follows (greeted s me entry st) calls (Next next)
        → map blank calls
        ≡ poll_calls (poll_due s me true entry (asked_maker s me st))
        ++ map send_call (hellos_of s me m) }
{}

/// Law: a run in which no call failed was not halted in its boot by a failed call, and one in which no tick fell did not end
/// because the clock went back.
pub fn law_end_causes()
    ensures calls { (s : Settings) (me : ℕ) (clean : Bool) (leave polls : Option ℕ) (turns : ℕ)
        (calls : List Call) (ran : Ran)
        → Follows (live_plan s me clean leave polls turns) calls ran
        → some_failed calls ≡ false
        → is_by_call ran.end ≡ false }
    ensures clock { (s : Settings) (me : ℕ) (clean : Bool) (leave polls : Option ℕ) (turns : ℕ)
        (calls : List Call) (ran : Ran)
        → Follows (live_plan s me clean leave polls turns) calls ran
        → NeverFalls 0 calls
        → is_by_clock ran.end ≡ false }
{}

/// Law: a boot that a failed call halted was halted by the last disk operation of the run: its call failed, and that it failed is
/// the newest entry that the node was handed.
pub fn law_boot_halted()
    ensures { (s : Settings) (me : ℕ) (clean : Bool) (leave polls : Option ℕ) (turns : ℕ)
        (calls : List Call) (ran : Ran) (cause : BootCause)
        → Follows (live_plan s me clean leave polls turns) calls ran
        → ran.end ≡ LiveEnd.BootHalted cause
        → is_no_failure cause ≡ false
        → (halted : HaltedBy one_call s me cause calls) × IsNewest (failed halted.op) ran.log }
{}

/// Law: where no call fails and no tick falls, no run ends because the clock goes back, and no boot halts because a read, its
/// claim or its clear failed.
pub fn law_sound_end()
    ensures { (s : Settings) (me : ℕ) (clean : Bool) (leave polls : Option ℕ) (turns : ℕ)
        (calls : List Call) (ran : Ran)
        → Follows (live_plan s me clean leave polls turns) calls ran
        → some_failed calls ≡ false
        → NeverFalls 0 calls
        → is_sound ran.end ≡ true }
{}

/// Law: where a disk operation comes next, its call on one image is the next one of the run, and its ranks are configured; where
/// none does, the next call reads and writes no sector. The settings of a run are valid, and its rank is configured.
pub fn law_operation()
    ensures asked { (run : NodeRun) (plan : Plan Ran) (runs : RunFor run plan) (op : DiskOp)
        → operation_of run ≡ Some op
        → question plan ≡ Some (disk_call run.settings run.me.0 (own_number runs.log) op) }
    ensures fits { (run : NodeRun) (plan : Plan Ran) (op : DiskOp)
        → RunFor run plan
        → operation_of run ≡ Some op
        → IsNodeOutput run.settings (Out.Disk op) }
    ensures none { (run : NodeRun) (plan : Plan Ran) (call : Call)
        → RunFor run plan
        → operation_of run ≡ None
        → question plan ≡ Some call
        → is_on_disk call ≡ false }
    ensures valid { (run : NodeRun) (plan : Plan Ran)
        → RunFor run plan
        → IsValid run.settings }
    ensures configured { (run : NodeRun) (plan : Plan Ran)
        → RunFor run plan
        → run.me.0 < length run.settings.nodes }
{}
