//! What an operator rests on where a verdict is read.
ghost use Rattle.std.specs.Prelude.{◌≡◌, ◌≤◌, ℕ, List, All, Some, false, true, map};
ghost use Rattle.qn_shown.specs.declared.shown.Shown.{Shown};
ghost use Rattle.qn_shown.specs.Fits.{AllOf, FitsTypes};
ghost use Rattle.qn_shown.specs.Spelling.{shown_text};
ghost use Rattle.qn_verdict.specs.declared.verdict.Verdict.TheVariants.{Healthy, NoOwner};
ghost use Rattle.qn_verdict.specs.Files.{is_stale};
ghost use Rattle.qn_verdict.specs.Texts.{judge_texts};
ghost use Rattle.qn_verdict.specs.Verdicts.{holders};
ghost use Rattle.qn_verdict.specs.Voices.{is_held, is_held_twice};

use qn_shown::law_shown_read_back;

/// Of the texts that nodes write: two live nodes that wrote that they hold are always told. Where healthy is told, a node holds by its own word and no
/// other one does, and no text is of another time.
pub fn law_verdict()
    ensures two_holders { (now : ℕ) (nodes : List Shown) → AllOf FitsTypes nodes
        → 2 ≤ holders now nodes → judge_texts now (map shown_text nodes) ≡ Some NoOwner }
    ensures one_holder { (now : ℕ) (nodes : List Shown) → AllOf FitsTypes nodes
        → judge_texts now (map shown_text nodes) ≡ Some Healthy
        → (is_held now nodes ≡ true) × (is_held_twice now nodes ≡ false) }
    ensures fresh { (now : ℕ) (nodes : List Shown) → AllOf FitsTypes nodes
        → judge_texts now (map shown_text nodes) ≡ Some Healthy
        → All (λ node. is_stale now node ≡ false) nodes }
{
    law_shown_read_back();
}
