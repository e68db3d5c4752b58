//! The laws of audits: an input has one end, and the log of a run audits as that run.
ghost use Rattle.std.specs.Prelude.{◌≡◌, ◌≤◌, ℕ, List, ◌++◌, ◌∷◌, length, Ok};
ghost use Rattle.qn_base.specs.declared.calls.Call.{Call};
ghost use Rattle.qn_base.specs.Plans.{Plan};
ghost use Rattle.qn_live.specs.Running.{Ran};
ghost use Rattle.qn_model.specs.Lines.{Ended};
ghost use Rattle.qn_audit.specs.declared.audit_end.AuditEnd.{AuditEnd};
ghost use Rattle.qn_audit.specs.declared.audit_end.AuditEnd.TheVariants.{Prefix, Whole};
ghost use Rattle.qn_audit.specs.AuditLaws.{FitsEnding};
ghost use Rattle.qn_audit.specs.Auditing.{LogEnds, at_first, turns_in};
ghost use Rattle.qn_audit.specs.Deciding.{Input, input_of};
ghost use Rattle.qn_audit.specs.Inputs.{AuditEnds, AuditedRun};
ghost use Rattle.qn_audit.specs.Logs.{IsRecorded, call_line, log_text};
ghost use Rattle.qn_audit.specs.Reading.{call_of};
ghost use Rattle.qn_audit.specs.Recording.{DidLogged, Recorded};

/// Law: the audit of an input has one end, by its bytes and the way in which it ended. Whole and prefix come only of an
/// input that was read to its end, ReadFault only of one of which a read failed, and NoMemory of none.
pub fn law_one_audit()
    ensures one { (run : AuditedRun) (input : Input) (end other : AuditEnd)
        → AuditEnds run end input → AuditEnds run other input → end ≡ other }
    ensures fits { (run : AuditedRun) (input : Input) (end : AuditEnd)
        → AuditEnds run end input → FitsEnding end input.ending }
{}

/// Law: the line of each call that an outside can have made is read back as that call.
pub fn law_lines_read_back()
    ensures { (call : Call) → IsRecorded call → call_of (call_line call) ≡ Ok call }
{}

/// Law: after a head of so many lines, the log of each run of a plan that was recorded audits as whole, and each shorter
/// prefix of it that ends at the end of a line as prefix, up to the most lines that a log has.
pub fn law_logs_audit()
    ensures whole { (plan : Plan Ran) (ran : Ran) (before after : Recorded) (head : ℕ)
        (did : DidLogged plan ran before after)
        → length did.calls ≤ 2000000
        → LogEnds (at_first plan head) (Whole (turns_in did.calls))
        (input_of Ended (log_text did.calls)) }
    ensures prefix { (plan : Plan Ran) (ran : Ran) (before after : Recorded) (head : ℕ)
        (did : DidLogged plan ran before after) (front : List Call) (call : Call)
        (more : List Call)
        → did.calls ≡ front ++ call ∷ more
        → length front ≤ 2000000
        → LogEnds (at_first plan head) (Prefix (turns_in front))
        (input_of Ended (log_text front)) }
{}
