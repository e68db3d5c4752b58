//! The events of a cluster beside its arbiter.
use qn_base::Rank;
use qn_model::Event;

/// What happens in the world of a cluster and its arbiter: one event (this project's profile).
#[derive(Drop)]
pub enum ArbiterEvent {
    /// An event as in the world without an arbiter, but no yes of the device: that comes from a reply alone. A pass
    /// advances the clock of a running arbiter by 100 hundredths a millisecond.
    One(Event),
    /// A pass in which the arbiter's clock advances by so many hundredths of a millisecond, at most 1000000000000.
    PassWith(u64, Event),
    /// The arbiter boots, and its clock starts at this base, in hundredths of a millisecond: at most 1000000000000000.
    ArbiterBoot(u64),
    /// The arbiter is off at once, and remembers nothing.
    ArbiterCrash,
    /// The node sends a poll.
    Poll(Rank),
    /// The arbiter hears the poll of that number, from 0, and sends its reply.
    Hear(u64),
    /// The node to which it was sent gets the reply of that number, from 0.
    Reply(u64),
}
