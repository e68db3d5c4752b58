//! What the node's own mailbox held at the last read.
ghost use Rattle.std.specs.Prelude.{◌≡◌};
ghost use Rattle.qn_told.specs.Mails.{is_damaged, is_failed, is_same_mail, is_same_sender, named_in};

use qn_model::{Mail, MailSeen, Message, Sender};

/// What a read of the mailbox gave.
#[derive(Clone, Copy)]
pub enum MailState {
    /// It was not read.
    Unread,
    Held(Mail),
    /// The sector is no mailbox.
    Damaged,
    /// The read failed.
    Failed,
}

/// What is told of a read.
#[derive(Clone, Copy)]
pub enum MailNews {
    /// Another message than before.
    Message(Mail),
    Damaged,
    Failed,
}

/// How many images a node may have.
const IMAGES: usize = 3;

/// The mailbox, as it was read so far.
#[derive(Clone, Copy)]
pub struct Mailbox {
    pub state: MailState,
    /// The tick at which the node was handed the last read.
    pub tick: Option<u64>,
    /// What the sectors held that were read since.
    came: [Option<Mail>; IMAGES],
    /// What the last good read gave, empty before one.
    held: Mail,
}

impl Mailbox {
    ghost use Rattle.std.specs.Prelude.{◌≡◌};
    ghost use Rattle.qn_told.specs.Mails.{after_mail, after_reading, mail_news, unread};

    /// A mailbox that was not read.
    pub fn new() -> Mailbox
        ensures { result ≡ unread }
    {
        Mailbox {
            state: MailState::Unread,
            tick: None,
            came: [None; IMAGES],
            held: Mail::anonymous(Message::Empty),
        }
    }

    /// A sector of the mailbox was read, on the image of that number, and held this.
    pub fn read(&mut self, image: usize, mail: Option<Mail>)
        ensures { self.new ≡ after_reading self.old image mail }
    {
        if image < IMAGES {
            self.came[image] = mail;
        }
    }

    /// Takes what a read of the mailbox gave the node, with the sender that the sectors name, and gives what is to be told of it: a message
    /// that is another one than that of the last good read, and a mailbox that cannot be read where the read before could.
    pub fn take(&mut self, seen: MailSeen, tick: u64) -> Option<MailNews>
        ensures told { result ≡ mail_news self.old seen }
        ensures after { self.new ≡ after_mail self.old seen tick }
    {
        let before = self.state;
        let came = self.came;
        self.tick = Some(tick);
        self.came = [None; IMAGES];
        match seen {
            MailSeen::Read(message) => {
                let mail = named_in(&came, message);
                let is_known = is_same_mail(mail, self.held);
                self.state = MailState::Held(mail);
                self.held = mail;
                (!is_known).then_some(MailNews::Message(mail))
            }
            MailSeen::Damaged => {
                self.state = MailState::Damaged;
                (!is_damaged(before)).then_some(MailNews::Damaged)
            }
            MailSeen::Failed => {
                self.state = MailState::Failed;
                (!is_failed(before)).then_some(MailNews::Failed)
            }
        }
    }
}

/// The message with its sender, where a sector names one.
fn named_in(came: &[Option<Mail>], message: Message) -> Mail
    ensures { result ≡ named_in came.now message }
{
    for mail in came {
        if let Some(mail) = mail
            && mail.message as u8 == message as u8
        {
            return *mail;
        }
    }
    Mail::anonymous(message)
}

/// Whether two mailboxes hold the same message of the same sender.
fn is_same_mail(one: Mail, other: Mail) -> bool
    ensures { result ≡ is_same_mail one other }
{
    one.message as u8 == other.message as u8 && is_same_sender(one.by, other.by)
}

fn is_same_sender(one: Option<Sender>, other: Option<Sender>) -> bool
    ensures { result ≡ is_same_sender one other }
{
    match (one, other) {
        (Some(one), Some(other)) => {
            one.id.0 == other.id.0 && one.incarnation == other.incarnation
        }
        (None, None) => true,
        (Some(_), None) | (None, Some(_)) => false,
    }
}

fn is_damaged(state: MailState) -> bool
    ensures { result ≡ is_damaged state }
{
    match state {
        MailState::Damaged => true,
        MailState::Unread | MailState::Held(_) | MailState::Failed => false,
    }
}

fn is_failed(state: MailState) -> bool
    ensures { result ≡ is_failed state }
{
    match state {
        MailState::Failed => true,
        MailState::Unread | MailState::Held(_) | MailState::Damaged => false,
    }
}
