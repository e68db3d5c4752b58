//! What leaves a listener as it is, and whom the asks of an entry go to.
ghost use Rattle.std.specs.Prelude.{◌≡◌, ◌<◌, ◌≤◌, ◌&&◌, ◌∷◌, [], ℕ, None, List, filter, length, map, true, false};
ghost use Rattle.std.specs.List.{range_with_len};
ghost use Rattle.std.specs.Option.{option_map_or};
ghost use Rattle.qn_base.specs.declared.ids.Mask.{Mask};
ghost use Rattle.qn_base.specs.Members.{is_member};
ghost use Rattle.qn_model.specs.declared.configuration.Settings.{Settings};
ghost use Rattle.qn_model.specs.Log.{Line, claim_of, disk_of};
ghost use Rattle.qn_model.specs.NodeOutputs.{ask_to, asks, is_asked, is_asking};
ghost use Rattle.qn_model.specs.NodeVotes.{install, view};
ghost use Rattle.qn_model.specs.Phases.{is_up, phase};
ghost use Rattle.qn_heard.specs.declared.listener.Heard.{Heard};
ghost use Rattle.qn_heard.specs.Heard.{HeardBefore, HeardFor, bears_on_hearing};

/// A line that is no View, Tell, header or end of the boot, and that claims no incarnation, bears only on
/// whether the others are to be asked now.
pub fn law_other_lines()
    ensures { (heard : Heard) (s : Settings) (me : ℕ) (log : List Line) (line : Line)
        → HeardFor heard s me log
        → bears_on_hearing line.what ≡ false
        → claim_of (disk_of line.outs) ≡ None
        → HeardBefore heard s me (line ∷ log) }
{}

/// A node that is not up asks nobody: its listener stands for its log without having been asked.
pub fn law_not_asking()
    ensures { (heard : Heard) (s : Settings) (me : ℕ) (log : List Line)
        → HeardBefore heard s me log
        → is_up (phase s log) ≡ false
        → HeardFor heard s me log }
{}

/// The Asks of an entry are those to the members of a mask that names whom to ask, in ascending rank.
pub fn law_asks_by_members()
    ensures { (s : Settings) (me : ℕ) (log : List Line) (mask : Mask)
        → length s.nodes ≤ 32
        → ((rank : ℕ) → rank < 32
        → is_member mask rank ≡ (is_asking s log && is_asked s me log rank))
        → asks s me log ≡ option_map_or
        (λ present. map (ask_to me log present)
        (filter (is_member mask) (range_with_len 0 (length s.nodes)))) (view log) [] }
{}

/// No more views are installed than there are entries.
pub fn law_few_installs()
    ensures { (log : List Line) → install log ≤ length log }
{}
