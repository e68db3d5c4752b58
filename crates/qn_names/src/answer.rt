//! The count of a node.
ghost use Rattle.std.specs.Prelude.{◌≡◌, ◌≤◌, ◌+◌, ◌++◌, length, codes};
ghost use Rattle.qn_base.specs.Text.{yes_no};
ghost use Rattle.qn_names.specs.AnswerTexts.{answer_text};

use crate::numbered::add_numbered;
use arrayvec::ArrayVec;
use qn_base::ShortText;
use qn_model::Answer;

/// Adds the count of a node, at the end of a list that has room for 60 bytes.
pub fn add_answer<const N: usize>(into: &mut ArrayVec<u8, N>, answer: &Answer)
    requires { length into.old.items + 60 ≤ N }
    ensures text { into.new.items ≡ into.old.items ++ answer_text answer.now }
    ensures len { length into.new.items ≤ length into.old.items + 60 }
{
    add_numbered(into, quorate_text(answer.quorate), answer.votes);
    add_numbered(into, b"/", answer.quorum);
}

/// What stands before the votes of a node: whether it is quorate.
fn quorate_text(quorate: bool) -> &'static [u8]
    ensures text { result.now ≡ codes " quorate=" ++ yes_no quorate ++ codes " " }
    ensures len { length result.now ≤ 13 }
{
    if quorate {
        b" quorate=yes "
    } else {
        b" quorate=no "
    }
}

/// The count of a node, as a trace, a status and the line of a running node print it, after what stands before it.
pub fn answer_text(answer: &Answer) -> ShortText
    ensures text { result ≡ answer_text answer.now }
    ensures len { length result ≤ 60 }
{
    let mut bytes = ArrayVec::<u8, 60>::new();
    add_answer(&mut bytes, answer);
    let mut text = ShortText::new();
    text.add(bytes.as_slice());
    text
}
