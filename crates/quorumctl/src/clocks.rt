//! The two clocks of this host by which the ticks of a status file may be counted.

use crate::trouble::Trouble;
use qn_machine::steady_time;
use qn_shown::{Heard, Shown};
use std::time::Clock;

/// Two clocks that are less than so many milliseconds apart are one, for a tick that is after neither.
const APART: u64 = 1000;

/// Both clocks at one moment, in milliseconds: a node counts its ticks by the steady one, CLOCK_MONOTONIC_RAW of clock_gettime(2), and one of the
/// release before by CLOCK_MONOTONIC, which a time daemon slews.
#[derive(Clone, Copy)]
pub struct Clocks {
    pub steady: u64,
    slewed: u64,
}

impl Clocks {
    /// Reads both.
    pub fn read(clock: &impl Clock) -> Result<Clocks, Trouble> {
        let slewed = clock.monotonic().map_err(Trouble::System)?.as_millis();
        let steady = steady_time().map_err(Trouble::System)?.as_millis();
        Ok(Clocks {
            steady: u64::try_from(steady).unwrap_or(u64::MAX),
            slewed: u64::try_from(slewed).unwrap_or(u64::MAX),
        })
    }

    /// Has all ticks of a file that was read before these clocks be of the steady one.
    pub fn steady_file(self, file: &mut Shown) {
        if !self.is_slewed(file.tick) {
            return;
        }
        file.tick = self.steadied(file.tick);
        file.mailbox.tick = file.mailbox.tick.map(|tick| self.steadied(tick));
        for peer in file.peers.as_mut_slice() {
            peer.hello_tick = peer.hello_tick.map(|tick| self.steadied(tick));
            if let Heard::Said(told, tick) = peer.told {
                peer.told = Heard::Said(told, self.steadied(tick));
            }
        }
    }

    /// Whether a tick is one of the slewed clock: of the clocks that it is not after, that one is the nearer to it.
    fn is_slewed(self, tick: u64) -> bool {
        let is_nearer = APART <= self.steady.saturating_sub(self.slewed);
        tick <= self.slewed && (self.steady < tick || is_nearer)
    }

    /// The same moment by the steady clock, of a tick of the slewed one.
    fn steadied(self, tick: u64) -> u64 {
        self.steady.saturating_sub(self.slewed.saturating_sub(tick))
    }
}
