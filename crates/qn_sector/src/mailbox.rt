//! A mailbox, written and read.
ghost use Rattle.std.specs.Prelude.{◌≡◌, ◌≢◌, ◌≤◌, IfSome, IfNone};
ghost use Rattle.qn_model.specs.Sectors.{IsSender, mail_bytes, mail_bytes_1, message_code, sender_id, sender_incarnation};
ghost use Rattle.qn_model.specs.declared.disk.Message.{Message};
ghost use Rattle.qn_model.specs.declared.mailbox.Mail.{Mail};
ghost use Rattle.qn_sector.specs.Reading.{mail_of, mail_of_1, message_of, sender_at, SpellsMail};

use crate::fields::{self, Sector};
use byteorder::{BigEndian, ByteOrder};
use qn_base::{NodeId, add, add_u32, add_u64};
use qn_model::{Mail, Message, Sender};

/// Writes a mailbox of version 2 with that message and its sender, over all 512 bytes.
#[tactic(auto, unfolding(qn_model::specs::Sectors::mail_bytes))]
pub fn put_mail(mail: &Mail, into: &mut [u8; 512])
    requires { IfSome mail.now.by (λ sender. 1 ≤ sender.id.0) }
    ensures { into.new ≡ mail_bytes mail.now }
{
    let mut sector = Sector::new();
    add(&mut sector, b"MAIL");
    add(&mut sector, &[code_of(mail.message)]);
    fields::add_zeros(&mut sector, 3);
    add_u32(&mut sector, id_of(mail.by));
    add_u64(&mut sector, incarnation_of(mail.by));
    fields::add_zeros(&mut sector, 492);
    into.copy_from_slice(&sector);
}

/// The mailbox of version 2 that the 512 bytes spell.
pub fn get_mail(from: &[u8; 512]) -> Option<Mail>
    ensures some { IfSome result (SpellsMail from.now) }
    ensures none { IfNone result ((mail : Mail) → SpellsMail from.now mail → ⊥) }
    ensures gives { result ≡ mail_of from.now }
{
    read_mail(from)
}

#[tactic(auto, unfolding(crate::specs::Reading::mail_of))]
fn read_mail(from: &[u8; 512]) -> Option<Mail>
    ensures gives { result ≡ mail_of from.now }
    ensures sender { IfSome result (λ mail. IfSome mail.by IsSender) }
{
    let message = message_of(from[4])?;
    let mail = Mail {
        message,
        by: sender_of(from),
    };
    let mut spelled = [0; 512];
    put_mail(&mail, &mut spelled);
    if spelled.as_slice() == from.as_slice() {
        Some(mail)
    } else {
        None
    }
}

/// The message of the mailbox of version 1 that the 512 bytes spell.
pub fn get_mail_1(from: &[u8; 512]) -> Option<Message>
    ensures some { IfSome result (λ m. from.now ≡ mail_bytes_1 m) }
    ensures none { IfNone result ((m : Message) → from.now ≢ mail_bytes_1 m) }
    ensures gives { result ≡ mail_of_1 from.now }
{
    read_mail_1(from)
}

/// It is spelled as a mailbox of version 2 that names nobody.
#[tactic(auto, unfolding(crate::specs::Reading::mail_of_1))]
fn read_mail_1(from: &[u8; 512]) -> Option<Message>
    ensures { result ≡ mail_of_1 from.now }
{
    let mail = get_mail(from)?;
    match mail.by {
        None => Some(mail.message),
        Some(_) => None,
    }
}

/// The sender that stands in a mailbox; an id of 0 names nobody.
fn sender_of(from: &[u8; 512]) -> Option<Sender>
    ensures value { result ≡ sender_at from.now }
    ensures sender { IfSome result IsSender }
{
    let id = BigEndian::read_u32(from.split_at(8).1);
    let incarnation = BigEndian::read_u64(from.split_at(12).1);
    if id == 0 {
        return None;
    }
    Some(Sender {
        id: NodeId(id),
        incarnation,
    })
}

/// The id of a sender, 0 for nobody.
fn id_of(by: Option<Sender>) -> u32
    ensures { result ≡ sender_id by }
{
    match by {
        None => 0,
        Some(sender) => sender.id.0,
    }
}

/// The incarnation of a sender, 0 for nobody.
fn incarnation_of(by: Option<Sender>) -> u64
    ensures { result ≡ sender_incarnation by }
{
    match by {
        None => 0,
        Some(sender) => sender.incarnation,
    }
}

fn code_of(message: Message) -> u8
    ensures { result ≡ message_code message }
{
    message as u8
}

fn message_of(code: u8) -> Option<Message>
    ensures { result ≡ message_of code }
{
    match code {
        0 => Some(Message::Empty),
        1 => Some(Message::Test),
        2 => Some(Message::Reset),
        3 => Some(Message::Off),
        4 => Some(Message::Exit),
        5 => Some(Message::Crashdump),
        _ => None,
    }
}
