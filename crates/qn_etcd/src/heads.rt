//! The heads of answers.
ghost use Rattle.std.specs.Prelude.{◌≡◌, ◌≤◌, Some, All, IfOk, IfErr, IfSome, IfNone, codes, length, map};
ghost use Rattle.std.specs.Str.{str_eq_ignore_ascii_case};
ghost use Rattle.httparse.specs.Spans.{IsHeaderWithin, header_bytes};
ghost use Rattle.qn_etcd.specs.Heads.{IsHeadOf, MayBegin, NeverBegins, length_in};

use crate::answers::AnswerFault;
use httparse::Status;
use httparse::spans::{EMPTY_HEADER_SPAN, HeaderSpan, parse_response};
use qn_base::read_decimal;

/// How many fields a head has at most.
const FIELDS: usize = 32;

/// What the head of an answer says.
#[derive(Clone, Copy, Debug, PartialEq, Eq)]
pub struct Head {
    /// The status: 200 where it is an answer to the transaction.
    pub code: u16,
    /// Where the body begins.
    pub body: usize,
    /// How many bytes the body has.
    pub length: u64,
}

/// What the head at the front of these bytes says; None where more has to come. It is strange where no head can come, where it has more than 32
/// fields, and where it does not say how long its body is, as that of a body in pieces.
pub fn head_of(bytes: &[u8]) -> Result<Option<Head>, AnswerFault>
    ensures within { IfOk result (λ found. IfSome found (λ head. head.body ≤ length bytes.now)) }
    ensures said { IfOk result (λ found. IfSome found (IsHeadOf bytes.now)) }
    ensures unfinished { IfOk result (λ found. IfNone found (MayBegin bytes.now)) }
    ensures strange { IfErr result
        (λ fault. (fault ≡ AnswerFault.Strange) × NeverBegins bytes.now) }
{
    let mut fields = [EMPTY_HEADER_SPAN; FIELDS];
    match parse_response(bytes, &mut fields) {
        Ok(Status::Complete(head)) => match length_of(bytes, &fields[..head.headers]) {
            Some(length) => Ok(Some(Head {
                code: head.code,
                body: head.len,
                length,
            })),
            None => Err(AnswerFault::Strange),
        },
        Ok(Status::Partial) => Ok(None),
        Err(_) => Err(AnswerFault::Strange),
    }
}

/// The number in the first field that is named `Content-Length`.
fn length_of(bytes: &[u8], fields: &[HeaderSpan]) -> Option<u64>
    requires { All (IsHeaderWithin (length bytes.now)) fields.now }
    ensures { result ≡ length_in (map (header_bytes bytes.now) fields.now) }
{
    match fields {
        [] => None,
        [field, rest @ ..] => {
            if is_length(field.name.of(bytes)) {
                read_decimal(field.value.of(bytes))
            } else {
                length_of(bytes, rest)
            }
        }
    }
}

fn is_length(name: &[u8]) -> bool
    ensures { result ≡ str_eq_ignore_ascii_case name.now (codes "content-length") }
{
    name.eq_ignore_ascii_case(b"content-length")
}
