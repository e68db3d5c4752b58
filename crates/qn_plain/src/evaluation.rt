//! The public calls: outputs, the condition that blocks a start, and the count, of a whole history.
ghost use Rattle.std.specs.Prelude.{◌≡◌, ◌≤◌, ℕ, All};
ghost use Rattle.qn_model.specs.NodeOutputs.{answer_of, log_of, outs_of, why_of};
ghost use Rattle.qn_plain.specs.Past.{PastFor, ResetsBy};

use crate::past::Past;
use qn_base::Rank;
use qn_model::{Answer, Entry, Outs, Settings, Why};

/// The first condition that blocks a start of the resource at `tick`, in milliseconds of the node's
/// clock, after a history of the node of rank `me`, oldest entry first. The tick is no earlier than that of
/// any entry.
pub fn why(settings: &Settings, me: Rank, history: &[Entry], tick: u64) -> Why
    requires { All (λ entry. entry.tick ≤ tick) history.now }
    ensures { result ≡ why_of settings.now me.0 history.now tick }
{
    let past = evaluate(settings, me, history).past;
    past.why(settings, tick, past.lack(settings, me, tick))
}

/// The count of votes at `tick`, with the tie breaker, after a history of the node of rank `me`, oldest entry first.
pub fn answer(settings: &Settings, me: Rank, history: &[Entry], tick: u64) -> Answer
    ensures { result ≡ answer_of settings.now me.0 history.now tick }
{
    let past = evaluate(settings, me, history).past;
    past.votes.answer_with_tie(settings, tick)
}

/// What comes out of the last entry of a history of the node of rank `me`, oldest entry first.
pub fn outs(settings: &Settings, me: Rank, history: &[Entry]) -> Outs
    ensures { result ≡ outs_of settings.now me.0 history.now }
{
    evaluate(settings, me, history).outs
}

/// What a history comes to, and what comes out of its last entry.
#[derive(Drop)]
struct Evaluation {
    past: Past,
    outs: Outs,
}

/// Goes through a history once.
fn evaluate(settings: &Settings, me: Rank, history: &[Entry]) -> Evaluation
    ensures stands { PastFor settings.now result.past (log_of settings.now me.0 history.now) }
    ensures outs { result.outs ≡ outs_of settings.now me.0 history.now }
    ensures resets { (tick : ℕ) → All (λ entry. entry.tick ≤ tick) history.now
        → ResetsBy result.past tick }
{
    let mut past = Past::new(settings);
    let mut outs = Outs::new();
    for (index, entry) in history.iter().enumerate() {
        outs = past.add(settings, me, index + 1, entry);
    }
    Evaluation { past, outs }
}
