//! The bodies of requests.
ghost use Rattle.std.specs.Prelude.{◌≡◌, ◌<◌, ◌≤◌, ◌++◌, IfOk, OnOk, length, codes, decimal, string_bytes};
ghost use Rattle.qn_etcd.specs.Keys.{writer_key as writer_key_text, first_key as first_key_text, end_key as end_key_text};
ghost use Rattle.qn_etcd.specs.Writers.{Always, Holds, ChangedAt, NoneFrom, read_condition, write_condition, command_condition};
ghost use Rattle.qn_etcd.specs.Requests.{base64, condition_after, guarded, range_transaction, put_transaction, read_text, write_text, holder_text, open_text, release_text, post_text};

use crate::keys::{end_key, first_key, sector_key, writer_key};
use crate::writers::{Boot, Writer};
use base64::engine::general_purpose::STANDARD;
use itoa::Buffer;
use std::alloc::{AllocError, Global};

/// The value of the writer's key from the end of a boot that has left to the next opening.
pub(crate) const FREE: &[u8; 4] = b"free";

/// The request that reads a sector.
pub fn read_request(
    alloc: Global,
    prefix: &[u8],
    writer: &Writer,
    sector: u32,
) -> Result<String, AllocError>
    requires prefix { length prefix.now ≤ 96 }
    requires sector { sector < 10000 }
    ensures { IfOk result (λ text. string_bytes text ≡ read_text prefix.now writer.now sector) }
{
    let mut text = begun(alloc)?;
    if let Writer::Boot(boot) = writer {
        add_token(&mut text, prefix, boot)?;
    }
    add_range(&mut text, sector_key(prefix, sector).as_slice())?;
    Ok(text)
}

/// The request that writes a sector.
pub fn write_request(
    alloc: Global,
    prefix: &[u8],
    writer: &Writer,
    sector: u32,
    bytes: &[u8],
) -> Result<String, AllocError>
    requires prefix { length prefix.now ≤ 96 }
    requires sector { sector < 10000 }
    ensures { IfOk result (λ text. string_bytes text ≡ write_text prefix.now writer.now sector bytes.now) }
{
    let mut text = begun(alloc)?;
    match writer {
        Writer::Boot(boot) => add_token(&mut text, prefix, boot)?,
        Writer::Command(Some(revision)) => {
            add_changed_at(&mut text, sector_key(prefix, 0).as_slice(), *revision)?;
        }
        Writer::Command(None) if sector == 0 => add_none(&mut text, prefix)?,
        Writer::Command(None) => {}
    }
    add_put(&mut text, sector_key(prefix, sector).as_slice(), bytes)?;
    Ok(text)
}

/// The request that reads the writer's key of a rank.
pub fn holder_request(alloc: Global, prefix: &[u8], rank: u8) -> Result<String, AllocError>
    requires { length prefix.now ≤ 96 }
    ensures { IfOk result (λ text. string_bytes text ≡ holder_text prefix.now rank) }
{
    let mut text = begun(alloc)?;
    add_range(&mut text, writer_key(prefix, rank).as_slice())?;
    Ok(text)
}

/// The request that opens for a boot, where the writer's key was changed last at that revision.
pub fn open_request(
    alloc: Global,
    prefix: &[u8],
    boot: &Boot,
    revision: u64,
) -> Result<String, AllocError>
    requires { length prefix.now ≤ 96 }
    ensures { IfOk result
        (λ text. string_bytes text ≡ open_text prefix.now boot.now.rank revision boot.now.token.items) }
{
    let key = writer_key(prefix, boot.rank);
    let mut text = begun(alloc)?;
    add_changed_at(&mut text, key.as_slice(), revision)?;
    add_put(&mut text, key.as_slice(), boot.token.as_slice())?;
    Ok(text)
}

/// The request that sets the writer's key free, where it holds the token of that boot.
pub fn release_request(alloc: Global, prefix: &[u8], boot: &Boot) -> Result<String, AllocError>
    requires { length prefix.now ≤ 96 }
    ensures { IfOk result
        (λ text. string_bytes text ≡ release_text prefix.now boot.now.rank boot.now.token.items) }
{
    let mut text = begun(alloc)?;
    add_token(&mut text, prefix, boot)?;
    add_put(&mut text, writer_key(prefix, boot.rank).as_slice(), FREE)?;
    Ok(text)
}

/// A request whole, as it is sent to a host over a connection of its own, which ends with the answer.
pub fn post(alloc: Global, host: &str, body: &str) -> Result<String, AllocError>
    ensures { IfOk result (λ text. string_bytes text ≡ post_text host.now body.now) }
{
    let mut text = String::from_str(alloc, "POST /v3/kv/txn HTTP/1.1\r\nHost: ")?;
    text.push_str(host)?;
    text.push_str("\r\nConnection: close\r\nContent-Type: application/json\r\nContent-Length: ")?;
    add_number(&mut text, body.len() as u64)?;
    text.push_str("\r\n\r\n")?;
    text.push_str(body)?;
    Ok(text)
}

/// A transaction before what it compares.
fn begun(alloc: Global) -> Result<String, AllocError>
    ensures { IfOk result (λ text. string_bytes text ≡ codes "{\"compare\":[") }
{
    String::from_str(alloc, "{\"compare\":[")
}

/// Adds bytes in base64.
#[tactic(auto, unfolding(crate::specs::Requests::base64))]
fn add(text: &mut String, bytes: &[u8]) -> Result<(), AllocError>
    ensures { OnOk result (string_bytes text.new ≡ string_bytes text.old ++ base64 bytes.now) }
{
    STANDARD.encode_string(bytes, text)
}

/// Adds a number in decimal digits.
fn add_number(text: &mut String, number: u64) -> Result<(), AllocError>
    ensures { OnOk result (string_bytes text.new ≡ string_bytes text.old ++ decimal number) }
{
    let mut buffer = Buffer::new();
    text.push_str(buffer.format(number))
}

/// Adds the comparison that the writer's key holds the token of that boot.
fn add_token(text: &mut String, prefix: &[u8], boot: &Boot) -> Result<(), AllocError>
    requires { length prefix.now ≤ 96 }
    ensures { OnOk result (string_bytes text.new ≡ condition_after (string_bytes text.old)
        (Holds (writer_key_text prefix.now boot.now.rank) boot.now.token.items)) }
{
    text.push_str("{\"key\":\"")?;
    add(text, writer_key(prefix, boot.rank).as_slice())?;
    text.push_str("\",\"target\":\"VALUE\",\"result\":\"EQUAL\",\"value\":\"")?;
    add(text, boot.token.as_slice())?;
    text.push_str("\"}")?;
    Ok(())
}

/// Adds the comparison that a key was changed last at that revision.
fn add_changed_at(text: &mut String, key: &[u8], revision: u64) -> Result<(), AllocError>
    ensures { OnOk result
        (string_bytes text.new ≡ condition_after (string_bytes text.old) (ChangedAt key.now revision)) }
{
    text.push_str("{\"key\":\"")?;
    add(text, key)?;
    text.push_str("\",\"target\":\"MOD\",\"result\":\"EQUAL\",\"mod_revision\":\"")?;
    add_number(text, revision)?;
    text.push_str("\"}")?;
    Ok(())
}

/// Adds the comparison that no key of the prefix is there.
fn add_none(text: &mut String, prefix: &[u8]) -> Result<(), AllocError>
    requires { length prefix.now ≤ 96 }
    ensures { OnOk result (string_bytes text.new ≡ condition_after (string_bytes text.old)
        (NoneFrom (first_key_text prefix.now) (end_key_text prefix.now))) }
{
    text.push_str("{\"key\":\"")?;
    add(text, first_key(prefix).as_slice())?;
    text.push_str("\",\"range_end\":\"")?;
    add(text, end_key(prefix).as_slice())?;
    text.push_str("\",\"target\":\"CREATE\",\"result\":\"EQUAL\",\"create_revision\":\"0\"}")?;
    Ok(())
}

/// Adds that a key is read, and the end of the transaction.
fn add_range(text: &mut String, key: &[u8]) -> Result<(), AllocError>
    ensures { OnOk result (string_bytes text.new ≡ string_bytes text.old ++ codes "],\"success\":["
        ++ codes "{\"requestRange\":{\"key\":\"" ++ base64 key.now ++ codes "\"}}]}") }
{
    text.push_str("],\"success\":[")?;
    text.push_str("{\"requestRange\":{\"key\":\"")?;
    add(text, key)?;
    text.push_str("\"}}]}")?;
    Ok(())
}

/// Adds that a key is written, and the end of the transaction.
fn add_put(text: &mut String, key: &[u8], value: &[u8]) -> Result<(), AllocError>
    ensures { OnOk result (string_bytes text.new ≡ string_bytes text.old ++ codes "],\"success\":["
        ++ codes "{\"requestPut\":{\"key\":\"" ++ base64 key.now ++ codes "\",\"value\":\"" ++ base64 value.now ++ codes "\"}}]}") }
{
    text.push_str("],\"success\":[")?;
    text.push_str("{\"requestPut\":{\"key\":\"")?;
    add(text, key)?;
    text.push_str("\",\"value\":\"")?;
    add(text, value)?;
    text.push_str("\"}}]}")?;
    Ok(())
}
