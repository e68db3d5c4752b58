//! What the text of a status file says.
ghost use Rattle.std.specs.Prelude.{◌≡◌, IfErr, IfOk, None, OnOk, Some, codes, true};
ghost use Rattle.std.specs.Result.{result_ok};
ghost use Rattle.std.specs.Option.{IsSomeAnd};
ghost use Rattle.json.specs.Find.{get};
ghost use Rattle.json.specs.Json.{document};
ghost use Rattle.json.specs.Strict.{HasUniqueKeys};
ghost use Rattle.json.specs.Value.{value_view};
ghost use Rattle.qn_shown.specs.Reading.{answer_in, arbiter_in, candidate_of, counts_in, key_in, mailbox_in, optional_in, or_null, says_nothing, shown_in, shown_of, standing_in, view_in};

use crate::fault::ShownFault;
use crate::keys::{
    group_if_there, id_or_null, text_if_there, text_or_null, truth, value, whole, whole_if_there,
    whole_or_null,
};
use crate::shown::{Arbiter, Candidate, Counts, HostStanding, Mailbox, Shown, ShownView};
use crate::{kinds, lists};
use json::{Error, Scratch, Value};
use qn_model::Answer;
use std::alloc::Global;

/// The format of a status file that is read.
const FORMAT: u64 = 1;

/// What a text says of a node. A text that is no JSON, has a key twice, is of another format or lacks a key says nothing; other keys are passed over.
pub fn read_shown(alloc: Global, text: &str) -> Result<Shown, ShownFault>
    ensures read { IfOk result (λ shown. shown_in text.now ≡ Some shown) }
    ensures unique { OnOk result (IsSomeAnd (document text.now) HasUniqueKeys) }
    ensures refused { IfErr result (λ fault. says_nothing fault ≡ true
        → shown_in text.now ≡ None) }
{
    let mut scratch = Scratch::new(alloc);
    match Value::parse_strict(alloc, text, &mut scratch) {
        Ok(json) => shown(&json),
        Err(Error::Invalid) => Err(ShownFault::NotJson),
        Err(Error::DuplicateKey) => Err(ShownFault::Repeated),
        Err(Error::OutOfMemory | Error::TooLong) => Err(ShownFault::NoMemory),
    }
}

/// What an object says of a node.
fn shown(json: &Value<'_>) -> Result<Shown, ShownFault>
    ensures { result_ok result ≡ shown_of (value_view json.now) }
{
    let format = whole(json, "format")?;
    if format != FORMAT {
        return Err(ShownFault::Format(format));
    }
    Ok(Shown {
        answer: answer(json)?,
        arbiter: arbiter(json)?,
        counts: counts(json)?,
        end: text_or_null(json, "end")?,
        group: group_if_there(json)?,
        held_ms: whole_if_there(json, "held_ms")?,
        holds: truth(json, "holds")?,
        id: kinds::id(value(json, "id")?).ok_or(ShownFault::Key("id"))?,
        images: whole_if_there(json, "images")?,
        incarnation: whole_or_null(json, "incarnation")?,
        loop_ms: kinds::period(value(json, "loop")?).ok_or(ShownFault::Key("loop"))?,
        mailbox: mailbox(json)?,
        name: text_if_there(json, "name", 63)?,
        peers: lists::peers(value(json, "peers")?).ok_or(ShownFault::Key("peers"))?,
        phase: kinds::phase(value(json, "phase")?).ok_or(ShownFault::Key("phase"))?,
        pid: whole(json, "pid")?,
        standing: standing(json)?,
        tick: whole(json, "tick")?,
        time_ms: kinds::time(value(json, "time")?).ok_or(ShownFault::Key("time"))?,
        view: view(json)?,
        why: kinds::text(value(json, "why")?, 256).ok_or(ShownFault::Key("why"))?,
    })
}

/// The count of its votes.
fn answer(json: &Value<'_>) -> Result<Answer, ShownFault>
    ensures { result_ok result ≡ answer_in (value_view json.now) }
{
    Ok(Answer {
        expected: whole(json, "expected")?,
        quorate: truth(json, "quorate")?,
        quorum: whole(json, "quorum")?,
        released: truth(json, "released")?,
        votes: whole(json, "votes")?,
    })
}

/// What it heard of the arbiter of its quorum device: the key may be absent.
fn arbiter(json: &Value<'_>) -> Result<Option<Arbiter>, ShownFault>
    ensures { result_ok result
        ≡ optional_in arbiter_in (codes "arbiter") (value_view json.now) }
{
    match json.get("arbiter") {
        None => Ok(None),
        Some(value) => match arbiter_of(value) {
            Some(arbiter) => Ok(Some(arbiter)),
            None => Err(ShownFault::Key("arbiter")),
        },
    }
}

fn arbiter_of(json: &Value<'_>) -> Option<Arbiter>
    ensures { result ≡ arbiter_in (value_view json.now) }
{
    Some(Arbiter {
        address: text_or_null(json, "address").ok()?,
        age_ms: kinds::whole(json.get("age")?)?,
        answer: kinds::device_answer(json.get("answer")?)?,
        no: kinds::whole(json.get("no")?)?,
        polls: kinds::whole(json.get("polls")?)?,
        refused: kinds::whole(json.get("refused")?)?,
        yes: kinds::whole(json.get("yes")?)?,
    })
}

/// What its host says of it: the key may be absent.
fn standing(json: &Value<'_>) -> Result<Option<HostStanding>, ShownFault>
    ensures { result_ok result
        ≡ optional_in standing_in (codes "standing") (value_view json.now) }
{
    match json.get("standing") {
        None => Ok(None),
        Some(value) => match standing_of(value) {
            Some(standing) => Ok(Some(standing)),
            None => Err(ShownFault::Key("standing")),
        },
    }
}

fn standing_of(json: &Value<'_>) -> Option<HostStanding>
    ensures { result ≡ standing_in (value_view json.now) }
{
    Some(HostStanding {
        fit: json.get("fit")?.as_bool()?,
        pull: json.get("pull")?.as_bool()?,
        standby: json.get("standby")?.as_bool()?,
        weight: kinds::weight(json.get("weight")?)?,
    })
}

/// What it counted of what failed.
fn counts(json: &Value<'_>) -> Result<Counts, ShownFault>
    ensures { result_ok result ≡ counts_in (value_view json.now) }
{
    Ok(Counts {
        dropped: whole(json, "dropped")?,
        late: whole(json, "late")?,
        refused: whole(json, "refused")?,
        unwritten: whole(json, "unwritten")?,
    })
}

/// What the last read of its mailbox gave.
fn mailbox(json: &Value<'_>) -> Result<Mailbox, ShownFault>
    ensures { result_ok result ≡ mailbox_in (value_view json.now) }
{
    Ok(Mailbox {
        state: kinds::mail(value(json, "mail")?).ok_or(ShownFault::Key("mail"))?,
        by: id_or_null(json, "mail_by")?,
        tick: whole_or_null(json, "mail_tick")?,
    })
}

/// The view.
fn view(json: &Value<'_>) -> Result<Option<ShownView>, ShownFault>
    ensures { result_ok result ≡ key_in (or_null view_in) (codes "view") (value_view json.now) }
{
    let json = value(json, "view")?;
    if json.is_null() {
        return Ok(None);
    }
    match shown_view(json) {
        Some(view) => Ok(Some(view)),
        None => Err(ShownFault::Key("view")),
    }
}

fn shown_view(json: &Value<'_>) -> Option<ShownView>
    ensures { result ≡ view_in (value_view json.now) }
{
    Some(ShownView {
        candidate: candidate(json)?,
        id: kinds::whole(json.get("id")?)?,
        members: lists::ids(json.get("members")?)?,
    })
}

/// Whom a view names as the one that may start: the key may be absent.
fn candidate(json: &Value<'_>) -> Option<Candidate>
    ensures { result ≡ candidate_of (get (codes "candidate") (value_view json.now)) }
{
    match json.get("candidate") {
        None => Some(Candidate::Unsaid),
        Some(value) if value.is_null() => Some(Candidate::Unnamed),
        Some(value) => match kinds::whole(value)? {
            0 => Some(Candidate::Nobody),
            _ => Some(Candidate::Named(kinds::id(value)?)),
        },
    }
}
