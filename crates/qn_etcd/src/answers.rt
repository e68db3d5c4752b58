//! What the bodies of answers say.
ghost use Rattle.std.specs.Prelude.{◌≡◌, Some, None, IfOk, IfErr, codes, option_and_then, option_map, unwrap_or};
ghost use Rattle.serde_json.specs.Read.{read as read_text};
ghost use Rattle.serde_json.specs.View.{view};
ghost use Rattle.qn_etcd.specs.Answers.{Present, said_by, done_by, text_at, bytes_at, number_at, decoded, has_succeeded as has_succeeded_data, header_revision, entry_says, range_says, read_in, read_says, write_in, write_says};

use base64::DecodeAllocError;
use base64::engine::general_purpose::STANDARD;
use qn_base::read_decimal;
use serde_json::Value;
use std::alloc::Global;

/// Why an answer is not taken.
#[derive(Clone, Copy, Debug, PartialEq, Eq)]
pub enum AnswerFault {
    NoMemory,
    /// It is no answer to that request.
    Strange,
}

/// A key that is there.
#[derive(Drop)]
pub struct Entry {
    pub value: Vec<u8>,
    /// The revision at which it was changed last.
    pub revision: u64,
}

/// What the answer to a read says.
#[derive(Drop)]
pub enum ReadAnswer {
    /// The condition of the transaction was not so: nothing was read.
    Refused,
    /// The key is not there.
    Absent,
    Present(Entry),
}

/// What the answer to a write says.
#[derive(Clone, Copy, Debug, PartialEq, Eq)]
pub enum WriteAnswer {
    /// The condition of the transaction was not so: nothing was written.
    Refused,
    /// It was done, at this revision.
    Done(u64),
}

/// What an answer to a read of that key says.
#[tactic(auto, unfolding(crate::specs::Answers::read_says))]
pub fn read_answer(alloc: Global, key: &[u8], text: &str) -> Result<ReadAnswer, AnswerFault>
    ensures said { IfOk result (λ answer. read_says key.now text.now ≡ Some (said_by answer)) }
    ensures strange { IfErr result
        (λ fault. fault ≡ AnswerFault.Strange → read_says key.now text.now ≡ None) }
{
    let answer = parsed(alloc, text)?;
    read_of(alloc, key, &answer)
}

fn parsed(alloc: Global, text: &str) -> Result<Value, AnswerFault>
    ensures ok { IfOk result (λ value. read_text text.now ≡ Some (view value)) }
    ensures strange { IfErr result (λ fault. fault ≡ AnswerFault.Strange → read_text text.now ≡ None) }
{
    match Value::from_str(alloc, text) {
        Ok(value) => Ok(value),
        Err(error) if error.is_memory() => Err(AnswerFault::NoMemory),
        Err(_) => Err(AnswerFault::Strange),
    }
}

fn read_of(alloc: Global, key: &[u8], answer: &Value) -> Result<ReadAnswer, AnswerFault>
    ensures said { IfOk result (λ said. read_in key.now (view answer.now) ≡ Some (said_by said)) }
    ensures strange { IfErr result
        (λ fault. fault ≡ AnswerFault.Strange → read_in key.now (view answer.now) ≡ None) }
{
    if !has_succeeded(answer) {
        return match header_revision(answer) {
            Some(_) => Ok(ReadAnswer::Refused),
            None => Err(AnswerFault::Strange),
        };
    }
    match answer.pointer("/responses/0/response_range") {
        Some(range) => range_of(alloc, key, range),
        None => Err(AnswerFault::Strange),
    }
}

fn has_succeeded(answer: &Value) -> bool
    ensures { result ≡ has_succeeded_data (view answer.now) }
{
    answer
        .get("succeeded")
        .and_then(Value::as_bool)
        .unwrap_or(false)
}

fn header_revision(answer: &Value) -> Option<u64>
    ensures { result ≡ header_revision (view answer.now) }
{
    number_at(answer, "/header/revision")
}

/// The number that a text at that place spells.
fn number_at(value: &Value, place: &str) -> Option<u64>
    ensures { result ≡ number_at place.now (view value.now) }
{
    read_decimal(text_at(value, place)?.as_bytes())
}

fn text_at<'value>(value: &'value Value, place: &str) -> Option<&'value str>
    ensures { option_map (λ text. text.now) result ≡ text_at place.now (view value.now) }
{
    value.pointer(place).and_then(Value::as_str)
}

/// The bytes that a text has in base64.
#[tactic(auto, unfolding(crate::specs::Answers::decoded, base64::specs::GeneralPurpose::decoded_of))]
fn decode(alloc: Global, text: &[u8]) -> Result<Vec<u8>, AnswerFault>
    ensures bytes { IfOk result (λ bytes. decoded text.now ≡ Some bytes.items) }
    ensures strange { IfErr result (λ fault. fault ≡ AnswerFault.Strange → decoded text.now ≡ None) }
{
    match STANDARD.decode(alloc, text) {
        Ok(bytes) => Ok(bytes),
        Err(DecodeAllocError::OutOfMemory) => Err(AnswerFault::NoMemory),
        Err(DecodeAllocError::DecodeError(_)) => Err(AnswerFault::Strange),
    }
}

/// The bytes that a text at that place has in base64.
fn bytes_at(alloc: Global, value: &Value, place: &str) -> Result<Vec<u8>, AnswerFault>
    ensures bytes { IfOk result (λ bytes. bytes_at place.now (view value.now) ≡ Some bytes.items) }
    ensures strange { IfErr result
        (λ fault. fault ≡ AnswerFault.Strange → bytes_at place.now (view value.now) ≡ None) }
{
    match text_at(value, place) {
        Some(text) => decode(alloc, text.as_bytes()),
        None => Err(AnswerFault::Strange),
    }
}

#[tactic(auto, unfolding(crate::specs::Answers::range_says))]
fn range_of(alloc: Global, key: &[u8], range: &Value) -> Result<ReadAnswer, AnswerFault>
    ensures said { IfOk result (λ said. range_says key.now (view range.now) ≡ Some (said_by said)) }
    ensures strange { IfErr result
        (λ fault. fault ≡ AnswerFault.Strange → range_says key.now (view range.now) ≡ None) }
{
    match range.pointer("/kvs/0") {
        Some(entry) => Ok(ReadAnswer::Present(entry_of(alloc, key, entry)?)),
        None => Ok(ReadAnswer::Absent),
    }
}

fn entry_of(alloc: Global, key: &[u8], entry: &Value) -> Result<Entry, AnswerFault>
    ensures said { IfOk result
        (λ said. entry_says key.now (view entry.now) ≡ Some (Present said.value.items said.revision)) }
    ensures strange { IfErr result
        (λ fault. fault ≡ AnswerFault.Strange → entry_says key.now (view entry.now) ≡ None) }
{
    let found = bytes_at(alloc, entry, "/key")?;
    if found.as_slice() != key {
        return Err(AnswerFault::Strange);
    }
    let value = bytes_at(alloc, entry, "/value")?;
    match number_at(entry, "/mod_revision") {
        Some(revision) => Ok(Entry { value, revision }),
        None => Err(AnswerFault::Strange),
    }
}

/// What an answer to a write says.
#[tactic(auto, unfolding(crate::specs::Answers::write_says))]
pub fn write_answer(alloc: Global, text: &str) -> Result<WriteAnswer, AnswerFault>
    ensures said { IfOk result (λ answer. write_says text.now ≡ Some (done_by answer)) }
    ensures strange { IfErr result
        (λ fault. fault ≡ AnswerFault.Strange → write_says text.now ≡ None) }
{
    let answer = parsed(alloc, text)?;
    match write_of(&answer) {
        Some(said) => Ok(said),
        None => Err(AnswerFault::Strange),
    }
}

fn write_of(answer: &Value) -> Option<WriteAnswer>
    ensures { option_map done_by result ≡ write_in (view answer.now) }
{
    if !has_succeeded(answer) {
        header_revision(answer)?;
        return Some(WriteAnswer::Refused);
    }
    let _put = answer.pointer("/responses/0/response_put")?;
    header_revision(answer).map(WriteAnswer::Done)
}
