//! What the machine of a node can be had to do.
ghost use Rattle.std.specs.Prelude.{◌≡◌, [], ◌∷◌, List, Option, true, false, IfOk, OnOk, OnErr, is_ok};
ghost use Rattle.qn_exchange.specs.declared.order.Order.TheVariants.{Stop};
ghost use Rattle.qn_outside.specs.Deeds.{Deed, Does, IsInTime};
ghost use Rattle.qn_outside.specs.Deeds.{Armed, Disarmed, Fed, Glanced, HeadersRead, ImagesOpened, Listened, Looked, Opened, Ordered, StoppedFirst, Ticked};

use crate::times::Times;
use qn_base::Failed;
use qn_exchange::{Obeyed, Order};
use qn_io::Opening;

/// The machine of a node: each call is one deed. `did` is the list of what it did so far, of a machine that tells it.
pub trait Machine {
    ghost did: { Self → Option (List Deed) };

    /// The clock, for a node; where it cannot be read, the last answer again.
    fn tick(&mut self, last: u64) -> (u64, bool)
        ensures did { Does (did self.old) (did self.new) (Ticked result.0 result.1 ∷ []) }
        ensures again { result.1 ≡ false → result.0 ≡ last };

    /// The clock, for a feed.
    fn glance(&mut self) -> Option<u64>
        ensures { Does (did self.old) (did self.new) (Glanced result ∷ []) };

    /// Has the resource started or stopped.
    fn order(&mut self, order: Order) -> Result<Obeyed, Failed>
        ensures did { Does (did self.old) (did self.new) (Ordered order (is_ok result) ∷ []) }
        ensures obeyed { IfOk result (λ obeyed. obeyed ≡ order) };

    /// Feeds the watchdog, where that is in time.
    fn feed(&mut self, last: Option<u64>, tick: Option<u64>, feed_delay: u64) -> Result<(), Failed>
        ensures did { Does (did self.old) (did self.new) (Fed last tick feed_delay (is_ok result) ∷ []) }
        ensures in_time { OnOk result (IsInTime last tick feed_delay) };

    /// Disarms the watchdog.
    fn disarm(&mut self) -> Result<(), Failed>
        ensures { Does (did self.old) (did self.new) (Disarmed (is_ok result) ∷ []) };

    /// Closes what is open of a node, and opens its port: the first part of an opening.
    fn listen(&mut self, opening: &Opening<'_>) -> Result<(), Failed>
        ensures { Does (did self.old) (did self.new) (Listened (is_ok result) ∷ []) };

    /// Opens the images.
    fn open_images(&mut self, opening: &Opening<'_>) -> Result<(), Failed>
        ensures { Does (did self.old) (did self.new) (ImagesOpened (is_ok result) ∷ []) };

    /// Reads what the headers of the images say, of those that have one the least.
    fn read_headers(&mut self) -> Result<Times, Failed>
        ensures ok { IfOk result (λ times. Does (did self.old) (did self.new)
            (HeadersRead times.watchdog times.feed_delay true ∷ [])) }
        ensures failed { OnErr result (Does (did self.old) (did self.new) (HeadersRead 0 0 false ∷ [])) };

    /// Opens the resource, and has it stopped; and the file for halts, where there is one.
    fn stop_first(&mut self, opening: &Opening<'_>) -> Result<Obeyed, Failed>
        ensures did { Does (did self.old) (did self.new) (StoppedFirst (is_ok result) ∷ []) }
        ensures obeyed { IfOk result (λ obeyed. obeyed ≡ Stop) };

    /// Looks at the watchdog before it is armed, beside that time in milliseconds.
    fn look(&mut self, opening: &Opening<'_>, watchdog: u64) -> Result<(), Failed>
        ensures { Does (did self.old) (did self.new) (Looked watchdog (is_ok result) ∷ []) };

    /// Opens the watchdog, which arms it.
    fn arm(&mut self, opening: &Opening<'_>) -> Result<(), Failed>
        ensures { Does (did self.old) (did self.new) (Armed (is_ok result) ∷ []) };

    /// Ends an opening: says whether all of it was opened, and closes what was where it was not.
    fn say_opening(&mut self, opening: &Opening<'_>, ok: bool)
        ensures { Does (did self.old) (did self.new) (Opened opening.now ok ∷ []) };
}
