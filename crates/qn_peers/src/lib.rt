//! Where the other nodes are, on one network or two; what of the datagrams that come is handed to a node; and which of two networks is lost to another one.
//!
//! Promises: what is handed on came from an address and the port of another node, or is a reply of the arbiter, and with a key it is what that very
//! sender sealed (`Admission::take`). What is sent to a rank goes to its addresses (`Peers::destination_of`). A network is lost and back by the defined function of
//! the packets that came (`Arrivals::after`).
#![tactic(auto)]

mod admission;
mod admitted;
mod arrivals;
mod guard;
mod outgoing;
mod peers;
mod sealing;

pub use admission::{ARBITER, Admission, LEAVE, Reason, Sender, WORD, is_double};
pub use admitted::Admitted;
pub use arrivals::Arrivals;
pub use guard::{Guard, Guarding};
pub use outgoing::{Dispatch, Outgoing};
pub use peers::{Destination, Peers};
