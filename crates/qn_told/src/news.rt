//! What is known of a running node by the calls that it made.
ghost use Rattle.std.specs.Prelude.{◌≡◌};
ghost use Rattle.qn_told.specs.Calls.{hello_of, is_known};

use crate::device::DeviceNews;
use crate::images::{IMAGE, Images};
use crate::mail::Mailbox;
use crate::peers::Peers;
use crate::seldom::Seldom;
use crate::stops::Stops;
use qn_base::Rank;
use qn_io::Got;
use qn_live::{Asked, Came, Decoded, Given};
use qn_model::Packet;
use qn_notice::Observer;

/// The seat of an arbiter, one above those of the ranks.
const ARBITER: u8 = 32;

/// What is known of a node.
#[derive(Clone, Copy)]
pub struct News {
    /// How far the events of the node were told.
    pub observer: Observer,
    pub device: DeviceNews,
    pub images: Images,
    /// How long the times of the header have a reset be waited for, in milliseconds; 0 before.
    pub msgwait: u64,
    pub mailbox: Mailbox,
    pub peers: Peers,
    /// Whose Hello came since the last turn.
    pub greeted: Option<Rank>,
    /// Packets that were none.
    pub refused: Seldom,
    /// Feeds that failed or came too late.
    pub late: Seldom,
    pub stops: Stops,
    /// How many lines were said.
    pub lines: u64,
}

impl News {
    ghost use Rattle.std.specs.Prelude.{◌≡◌, ℕ, [], None};
    ghost use Rattle.qn_model.specs.declared.configuration.Settings.{Settings};
    ghost use Rattle.qn_notice.specs.Observing.{IsUpTo};
    ghost use Rattle.qn_told.specs.Calls.{after_call, after_decoded, after_hearing, after_look, after_opening};

    /// A node of which nothing is known.
    pub fn new() -> News
        ensures observer { (s : Settings) (me : ℕ) → IsUpTo result.observer s me [] }
        ensures greeted { result.greeted ≡ None }
        ensures lines { result.lines ≡ 0 }
    {
        News {
            observer: Observer::new(),
            device: DeviceNews::new(),
            images: Images::new(),
            msgwait: 0,
            mailbox: Mailbox::new(),
            peers: Peers::new(),
            greeted: None,
            refused: Seldom::default(),
            late: Seldom::default(),
            stops: Stops::default(),
            lines: 0,
        }
    }

    /// The node made that call, its answer is that, and its bytes are these; its tick is that then.
    pub fn call(&mut self, asked: Asked, given: Given, decoded: Decoded, tick: u64)
        ensures { self.new ≡ after_call asked given decoded tick self.old }
    {
        match asked {
            Asked::Receive => if matches!(given.got, Got::Packet(_)) {
                self.receive(decoded);
            },
            Asked::Read { sector } | Asked::Write { sector } => {
                self.look(sector, given.ok, decoded);
            }
            Asked::Feed => if !given.ok {
                self.late.count();
            },
            Asked::Send { to } => if to.0 == ARBITER && given.ok {
                self.device.poll(tick);
            },
            Asked::Now | Asked::Start | Asked::Stop | Asked::Disarm | Asked::Halt { .. } => {}
        }
    }

    /// A packet came, whose bytes are that.
    fn receive(&mut self, decoded: Decoded)
        ensures { self.new ≡ after_decoded decoded self.old }
    {
        match decoded {
            Decoded::Came(came) => self.hear(&came),
            Decoded::Nothing | Decoded::Header { .. } | Decoded::Mailbox(_) => {}
        }
    }

    /// This came.
    fn hear(&mut self, came: &Came)
        ensures { self.new ≡ after_hearing came.now self.old }
    {
        match came.packet {
            Some(packet) => if let Some(from) = hello_of(packet) {
                self.greeted = Some(from);
            },
            None => if !is_known(came) {
                self.refused.count();
            },
        }
    }

    /// A call on a sector was answered, and its bytes are that.
    fn look(&mut self, sector: u32, ok: bool, decoded: Decoded)
        ensures { self.new ≡ after_look sector ok decoded self.old }
    {
        self.images.call(sector, ok);
        let image = (sector / IMAGE) as usize;
        match decoded {
            Decoded::Header { is_one } => self.images.header(image, is_one),
            Decoded::Mailbox(mail) => {
                self.images.mailbox(image, mail.is_some());
                self.mailbox.read(image, mail);
            }
            Decoded::Nothing | Decoded::Came(_) => {}
        }
    }

    /// The image at that place, where there is one, was opened late: it counts from then on, its header was read.
    pub(crate) fn open(&mut self, opened: Option<u8>)
        ensures { self.new ≡ after_opening opened self.old }
    {
        if let Some(place) = opened {
            self.images.call(u32::from(place) * IMAGE, true);
            self.images.header(usize::from(place), true);
        }
    }
}

/// Whose Hello a packet is.
fn hello_of(packet: Packet) -> Option<Rank>
    ensures { result ≡ hello_of packet }
{
    match packet {
        Packet::Hello { from } | Packet::Heard { from, .. } => Some(from),
        Packet::Ask(_) | Packet::Tell(_) | Packet::Announce { .. } | Packet::Vote { .. } => None,
    }
}

/// Whether what came is a reply of an arbiter, or of the node's host.
fn is_known(came: &Came) -> bool
    ensures { result ≡ is_known came.now }
{
    came.reply.is_some() || came.is_request || came.word.is_some()
}
