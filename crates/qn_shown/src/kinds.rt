//! The kinds of values of a status file, each read from a value of JSON.
ghost use Rattle.std.specs.Prelude.{◌≡◌, ◌≤◌};
ghost use Rattle.json.specs.Value.{value_view};
ghost use Rattle.qn_shown.specs.Kinds.{device_answer_in, host_group_in, id_in, mail_in, period_in, phase_in, text_in, thousandths_in, time_in, time_of, told_group_in, weight_in, whole_in};

use crate::group::Group;
use crate::short_string::ShortString;
use crate::words::{DeviceAnswer, MailState, answer_named, mail_named, phase_named};
use json::Value;
use qn_base::{LONGEST_PERIOD, NodeId, read_decimal};
use qn_model::Phase;

/// A whole number from 0 to 2^64 - 1.
pub(crate) fn whole(json: &Value<'_>) -> Option<u64>
    ensures { result ≡ whole_in (value_view json.now) }
{
    read_decimal(json.as_number()?.as_bytes())
}

/// The id of a node: a whole number from 1 to 4294967295.
pub(crate) fn id(json: &Value<'_>) -> Option<NodeId>
    ensures { result ≡ id_in (value_view json.now) }
{
    let number = whole(json)?;
    if number == 0 || number > 4_294_967_295 {
        return None;
    }
    Some(NodeId(number as u32))
}

/// Milliseconds, of which there are not more than of an hour.
pub(crate) fn period(json: &Value<'_>) -> Option<u32>
    ensures { result ≡ period_in (value_view json.now) }
{
    let period = whole(json)?;
    if period > LONGEST_PERIOD {
        return None;
    }
    Some(period as u32)
}

/// How gladly a node is chosen: at most 254.
pub(crate) fn weight(json: &Value<'_>) -> Option<u8>
    ensures { result ≡ weight_in (value_view json.now) }
{
    let weight = whole(json)?;
    if weight > 254 {
        return None;
    }
    Some(weight as u8)
}

/// A text of at most `most` bytes.
pub(crate) fn text(json: &Value<'_>, most: usize) -> Option<ShortString>
    requires { most ≤ 256 }
    ensures { result ≡ text_in most (value_view json.now) }
{
    ShortString::of(json.as_str()?, most)
}

/// Seconds with three places, in milliseconds.
pub(crate) fn time(json: &Value<'_>) -> Option<u64>
    ensures { result ≡ time_in (value_view json.now) }
{
    time_of(json.as_number()?.as_bytes())
}

/// The milliseconds that a text spells.
fn time_of(text: &[u8]) -> Option<u64>
    ensures { result ≡ time_of text.now }
{
    if text.len() < 4 {
        return None;
    }
    let (seconds, places) = text.split_at(text.len() - 4);
    let seconds = read_decimal(seconds)?;
    let thousandths = thousandths(places)?;
    seconds.checked_mul(1000)?.checked_add(thousandths)
}

/// The thousandths that a point and three digits spell.
fn thousandths(text: &[u8]) -> Option<u64>
    ensures { result ≡ thousandths_in text.now }
{
    match text {
        [b'.', a @ b'0'..=b'9', b @ b'0'..=b'9', c @ b'0'..=b'9'] => {
            let tens = u64::from(*a - b'0') * 10 + u64::from(*b - b'0');
            Some(tens * 10 + u64::from(*c - b'0'))
        }
        _ => None,
    }
}

/// The phase, by its word.
pub(crate) fn phase(json: &Value<'_>) -> Option<Phase>
    ensures { result ≡ phase_in (value_view json.now) }
{
    phase_named(json.as_str()?)
}

/// What the mailbox had, by its word.
pub(crate) fn mail(json: &Value<'_>) -> Option<MailState>
    ensures { result ≡ mail_in (value_view json.now) }
{
    mail_named(json.as_str()?)
}

/// What an arbiter answered, by its word.
pub(crate) fn device_answer(json: &Value<'_>) -> Option<DeviceAnswer>
    ensures { result ≡ device_answer_in (value_view json.now) }
{
    answer_named(json.as_str()?)
}

/// The group that a node told, by its number.
pub(crate) fn told_group(json: &Value<'_>) -> Option<Group>
    ensures { result ≡ told_group_in (value_view json.now) }
{
    Group::of_number(whole(json)?)
}

/// The group that the supervisor of the host looks after, by its number.
pub(crate) fn host_group(json: &Value<'_>) -> Option<Group>
    ensures { result ≡ host_group_in (value_view json.now) }
{
    let group = told_group(json)?;
    match group.number() {
        1..=9 => Some(group),
        _ => None,
    }
}
