//! When a node says a line, and what the line then begins with.
ghost use Rattle.std.specs.Prelude.{◌≡◌, ◌<◌};
ghost use Rattle.qn_event.specs.EventTexts.{three_digits};

use crate::level::Level;
use arrayvec::ArrayVec;
use qn_base::{add, add_number};

/// The most bytes of a line up to the name of its event.
pub const EVENT_HEAD: usize = 127;

/// Which node says a line, at which tick of its clock in milliseconds, and at which time of the system's clock in milliseconds since 1970.
#[derive(Clone, Copy)]
pub struct Moment {
    pub node: u32,
    pub tick: u64,
    pub time: u64,
}

impl Moment {
    ghost use Rattle.std.specs.Prelude.{◌≡◌};
    ghost use Rattle.qn_event.specs.EventLines.{head_of};

    /// A line up to the name of its event.
    #[tactic(auto, unfolding(crate::specs::EventLines::head_of))]
    pub(crate) fn head(self, level: Level) -> ArrayVec<u8, EVENT_HEAD>
        ensures { result.items ≡ head_of self level }
    {
        let mut bytes = ArrayVec::new();
        add(&mut bytes, b"quorumd: node=");
        add_number(&mut bytes, u64::from(self.node));
        add(&mut bytes, b" tick=");
        add_number(&mut bytes, self.tick);
        add(&mut bytes, b" time=");
        add_number(&mut bytes, self.time / 1000);
        add(&mut bytes, b".");
        add(&mut bytes, &three_digits(self.time % 1000));
        add(&mut bytes, b" level=");
        add_number(&mut bytes, u64::from(level.number()));
        add(&mut bytes, b" event=");
        bytes
    }
}

/// The three digits of a number below 1000.
fn three_digits(number: u64) -> [u8; 3]
    requires { number < 1000 }
    ensures { result ≡ three_digits number }
{
    let hundreds = number / 100;
    let tens = (number / 10) % 10;
    let ones = number % 10;
    [b'0' + hundreds as u8, b'0' + tens as u8, b'0' + ones as u8]
}
