//! The keys of an object, each with a value of the kind that is asked for.
ghost use Rattle.std.specs.Prelude.{◌≡◌, ◌≤◌, codes, option_map};
ghost use Rattle.std.specs.Result.{result_ok};
ghost use Rattle.json.specs.Find.{as_bool, get};
ghost use Rattle.json.specs.Value.{value_view};
ghost use Rattle.qn_shown.specs.Kinds.{id_in, text_in, whole_in};
ghost use Rattle.qn_shown.specs.Reading.{group_if_there, key_in, optional_in, or_null};

use crate::fault::ShownFault;
use crate::group::Group;
use crate::kinds;
use crate::short_string::ShortString;
use json::Value;
use qn_base::NodeId;

/// The value of a key.
pub(crate) fn value<'v, 'a>(
    json: &'v Value<'a>,
    key: &'static str,
) -> Result<&'v Value<'a>, ShownFault>
    ensures { option_map (λ v. value_view v.now) (result_ok result)
        ≡ get key.now (value_view json.now) }
{
    json.get(key).ok_or(ShownFault::Key(key))
}

pub(crate) fn whole(json: &Value<'_>, key: &'static str) -> Result<u64, ShownFault>
    ensures { result_ok result ≡ key_in whole_in key.now (value_view json.now) }
{
    kinds::whole(value(json, key)?).ok_or(ShownFault::Key(key))
}

pub(crate) fn truth(json: &Value<'_>, key: &'static str) -> Result<bool, ShownFault>
    ensures { result_ok result ≡ key_in as_bool key.now (value_view json.now) }
{
    value(json, key)?.as_bool().ok_or(ShownFault::Key(key))
}

pub(crate) fn whole_or_null(json: &Value<'_>, key: &'static str) -> Result<Option<u64>, ShownFault>
    ensures { result_ok result ≡ key_in (or_null whole_in) key.now (value_view json.now) }
{
    let value = value(json, key)?;
    if value.is_null() {
        return Ok(None);
    }
    let number = kinds::whole(value).ok_or(ShownFault::Key(key))?;
    Ok(Some(number))
}

pub(crate) fn id_or_null(json: &Value<'_>, key: &'static str) -> Result<Option<NodeId>, ShownFault>
    ensures { result_ok result ≡ key_in (or_null id_in) key.now (value_view json.now) }
{
    let value = value(json, key)?;
    if value.is_null() {
        return Ok(None);
    }
    let id = kinds::id(value).ok_or(ShownFault::Key(key))?;
    Ok(Some(id))
}

pub(crate) fn text_or_null(
    json: &Value<'_>,
    key: &'static str,
) -> Result<Option<ShortString>, ShownFault>
    ensures { result_ok result ≡ key_in (or_null (text_in 256)) key.now (value_view json.now) }
{
    let value = value(json, key)?;
    if value.is_null() {
        return Ok(None);
    }
    let text = kinds::text(value, 256).ok_or(ShownFault::Key(key))?;
    Ok(Some(text))
}

/// A whole number, where the key is there.
pub(crate) fn whole_if_there(json: &Value<'_>, key: &'static str) -> Result<Option<u64>, ShownFault>
    ensures { result_ok result ≡ optional_in whole_in key.now (value_view json.now) }
{
    match json.get(key) {
        Some(value) => match kinds::whole(value) {
            Some(number) => Ok(Some(number)),
            None => Err(ShownFault::Key(key)),
        },
        None => Ok(None),
    }
}

/// The group of the host, where the key is there.
pub(crate) fn group_if_there(json: &Value<'_>) -> Result<Group, ShownFault>
    ensures { result_ok result ≡ group_if_there (get (codes "group") (value_view json.now)) }
{
    match json.get("group") {
        None => Ok(Group::NoGroup),
        Some(value) if value.is_null() => Ok(Group::Unattended),
        Some(value) => kinds::host_group(value).ok_or(ShownFault::Key("group")),
    }
}

/// A text of at most `most` bytes, where the key is there.
pub(crate) fn text_if_there(
    json: &Value<'_>,
    key: &'static str,
    most: usize,
) -> Result<Option<ShortString>, ShownFault>
    requires { most ≤ 256 }
    ensures { result_ok result ≡ optional_in (text_in most) key.now (value_view json.now) }
{
    match json.get(key) {
        Some(value) => match kinds::text(value, most) {
            Some(text) => Ok(Some(text)),
            None => Err(ShownFault::Key(key)),
        },
        None => Ok(None),
    }
}
