//! The laws of a run on three images: they are those of a run on one.
ghost use Rattle.std.specs.Prelude.{◌≡◌, ◌++◌, ◌∷◌, [], ℕ, Bool, false, true, IsTrue, List, Option};
ghost use Rattle.qn_base.specs.declared.calls.Call.{Call};
ghost use Rattle.qn_base.specs.Calls.{some_failed};
ghost use Rattle.qn_base.specs.Plans.{Follows};
ghost use Rattle.qn_model.specs.declared.configuration.Settings.{Settings};
ghost use Rattle.qn_base.specs.declared.ids.Rank.{Rank};
ghost use Rattle.qn_model.specs.declared.outputs.BootCause.{BootCause};
ghost use Rattle.qn_model.specs.declared.outputs.DiskOp.{DiskOp};
ghost use Rattle.qn_model.specs.World.{failed, is_write};
ghost use Rattle.qn_safety.specs.declared.part.Part.{Part};
ghost use Rattle.qn_safety.specs.TripleWorld.{answer_of};
ghost use Rattle.qn_parts.specs.Parts.{is_good_on, part_on};
ghost use Rattle.qn_live.specs.declared.live_end.LiveEnd.{LiveEnd};
ghost use Rattle.qn_live.specs.Halts.{IsNewest};
ghost use Rattle.qn_live.specs.Handed.{HandsHistory};
ghost use Rattle.qn_live.specs.Laws.{IsHistory, NeverFalls, is_by_call, is_by_clock, is_no_failure, is_sound};
ghost use Rattle.qn_live.specs.Performing.{disk_answer, disk_call};
ghost use Rattle.qn_live.specs.Running.{Ran};
ghost use Rattle.qn_live.specs.TripleDisk.{Told, call_plan, part_of, read_entry};
ghost use Rattle.qn_live.specs.TripleHalts.{HaltedOnThree};
ghost use Rattle.qn_live.specs.TripleLaws.{IsTold, parts_told, taken_from};
ghost use Rattle.qn_live.specs.TripleOutputs.{PerformsOnThree};
ghost use Rattle.qn_live.specs.TripleRuns.{all_good, triple_plan};

use crate::{law_end_causes, law_handed_history, law_one_history, law_outputs, law_sound_end};
use qn_sector::law_read_back;

/// Law: what a node is handed in a run on three images is one history.
pub fn law_triple_history()
    ensures { (s : Settings) (me : ℕ) (clean : Bool) (leave polls : Option ℕ) (turns : ℕ)
        (calls : List Call) (ran : Ran)
        → Follows (triple_plan s me clean leave polls turns) calls ran
        → IsHistory s me ran.log }
{
    law_one_history();
}

/// Law: what a node is handed in a run on three images begins with the one entry that begins its boot, cleanly or not as it was
/// told, its ticks never fall, and they are what the clock told in the calls of the run, one after the other.
pub fn law_triple_handed_history()
    ensures { (s : Settings) (me : ℕ) (clean : Bool) (leave polls : Option ℕ) (turns : ℕ)
        (calls : List Call) (ran : Ran)
        → Follows (triple_plan s me clean leave polls turns) calls ran
        → HandsHistory s me clean calls ran }
{
    law_handed_history();
}

/// Law: the calls of a run on three images, but for those that receive, look at the clock, or send a Hello, an Announce or a poll, are
/// the outputs of what the node was handed, in order, each made on the three.
pub fn law_triple_outputs()
    ensures { (s : Settings) (me : ℕ) (clean : Bool) (leave polls : Option ℕ) (turns : ℕ)
        (calls : List Call) (ran : Ran)
        → Follows (triple_plan s me clean leave polls turns) calls ran
        → PerformsOnThree s me ran.log calls }
{
    law_outputs();
}

/// Law: a run on three images ends once, and in one way.
pub fn law_triple_end()
    ensures one { (s : Settings) (me : ℕ) (clean : Bool) (leave polls : Option ℕ) (turns : ℕ)
        (calls : List Call) (ran other : Ran)
        → Follows (triple_plan s me clean leave polls turns) calls ran
        → Follows (triple_plan s me clean leave polls turns) calls other
        → ran ≡ other }
    ensures once { (s : Settings) (me : ℕ) (clean : Bool) (leave polls : Option ℕ) (turns : ℕ)
        (calls : List Call) (call : Call)
        (more : List Call) (ran other : Ran)
        → Follows (triple_plan s me clean leave polls turns) calls ran
        → Follows (triple_plan s me clean leave polls turns) (calls ++ call ∷ more) other
        → ⊥ }
{}

/// Law: a run on three images in which no call failed was not halted in its boot by a failed call, and one in which no tick
/// fell did not end because the clock went back.
pub fn law_triple_end_causes()
    ensures calls { (s : Settings) (me : ℕ) (clean : Bool) (leave polls : Option ℕ) (turns : ℕ)
        (calls : List Call) (ran : Ran)
        → Follows (triple_plan s me clean leave polls turns) calls ran
        → some_failed calls ≡ false
        → is_by_call ran.end ≡ false }
    ensures clock { (s : Settings) (me : ℕ) (clean : Bool) (leave polls : Option ℕ) (turns : ℕ)
        (calls : List Call) (ran : Ran)
        → Follows (triple_plan s me clean leave polls turns) calls ran
        → NeverFalls 0 calls
        → is_by_clock ran.end ≡ false }
    ensures sound { (s : Settings) (me : ℕ) (clean : Bool) (leave polls : Option ℕ) (turns : ℕ)
        (calls : List Call) (ran : Ran)
        → Follows (triple_plan s me clean leave polls turns) calls ran
        → some_failed calls ≡ false
        → NeverFalls 0 calls
        → is_sound ran.end ≡ true }
{
    law_end_causes();
    law_sound_end();
}

/// Law: a boot on three images that a failed call halted was halted by the last disk operation of the run: a call of that very
/// operation failed, too few images told anything, and that it failed is the newest entry that the node was handed.
pub fn law_triple_boot_halted()
    ensures { (s : Settings) (me : ℕ) (clean : Bool) (leave polls : Option ℕ) (turns : ℕ)
        (calls : List Call) (ran : Ran) (cause : BootCause)
        → Follows (triple_plan s me clean leave polls turns) calls ran
        → ran.end ≡ LiveEnd.BootHalted cause
        → is_no_failure cause ≡ false
        → (halted : HaltedOnThree s me cause calls) × IsNewest (failed halted.1.op) ran.log }
{}

/// Law: what a node on one image takes from the sector that stands for three is the entry that the three give together. Each
/// part is what an image told.
pub fn law_triple_answers()
    ensures told { (s : Settings) (op : DiskOp) (call : Call) → IsTold s op (part_of s op call) }
    ensures header { (s : Settings) (sector : ℕ) (one two three : Part) (good : List Bool)
        → IsTold s DiskOp.ReadHeader one → IsTold s DiskOp.ReadHeader two
        → IsTold s DiskOp.ReadHeader three
        → taken_from s DiskOp.ReadHeader sector
        (read_entry DiskOp.ReadHeader (one ∷ two ∷ three ∷ []) good)
        ≡ read_entry DiskOp.ReadHeader (one ∷ two ∷ three ∷ []) good }
    ensures slot { (s : Settings) (rank : Rank) (sector : ℕ) (one two three : Part)
        (good : List Bool)
        → IsTold s (DiskOp.ReadSlot rank) one → IsTold s (DiskOp.ReadSlot rank) two
        → IsTold s (DiskOp.ReadSlot rank) three
        → taken_from s (DiskOp.ReadSlot rank) sector
        (read_entry (DiskOp.ReadSlot rank) (one ∷ two ∷ three ∷ []) good)
        ≡ read_entry (DiskOp.ReadSlot rank) (one ∷ two ∷ three ∷ []) good }
    ensures mailbox { (s : Settings) (sector : ℕ) (one two three : Part) (good : List Bool)
        → IsTold s DiskOp.ReadMail one → IsTold s DiskOp.ReadMail two
        → IsTold s DiskOp.ReadMail three
        → taken_from s DiskOp.ReadMail sector
        (read_entry DiskOp.ReadMail (one ∷ two ∷ three ∷ []) good)
        ≡ read_entry DiskOp.ReadMail (one ∷ two ∷ three ∷ []) good }
{
    law_read_back();
}

/// Law: the entry that a node takes after the calls of a write on three images is the answer that the world of three images
/// gives for what each of them told.
pub fn law_triple_writes()
    ensures { (s : Settings) (me number : ℕ) (op : DiskOp) (good : List Bool) (calls : List Call)
        (told : Told)
        → IsTrue (is_write op)
        → Follows (call_plan s me good (disk_call s me number op)) calls told
        → disk_answer s op told.0
        ≡ answer_of op (part_on (parts_told s op calls)) (is_good_on good) }
{}

/// Law: the same of the check of a clean start, which reads the mailbox on each image, since all are good before the clear.
pub fn law_triple_check()
    ensures { (s : Settings) (me number : ℕ) (calls : List Call) (told : Told)
        → Follows (call_plan s me all_good (disk_call s me number DiskOp.CheckMail)) calls told
        → disk_answer s DiskOp.CheckMail told.0
        ≡ read_entry DiskOp.CheckMail (parts_told s DiskOp.CheckMail calls) all_good }
{
    law_read_back();
}
