//! The safety theorem of the cluster, as laws over the definitions that the contracts of the code cite.
//!
//! Promises: in the world after any events that are allowed at most one node holds the resource
//! (`law_no_two_holders`). The same holds at each moment of every timed run (`law_timed_runs`), which knows
//! the shared disk by four facts alone (`specs/Timed`); every run of the world is one
//! (`law_runs_are_timed`, and `law_any_runs_are_timed` whatever its numbers are). Beside it: what holds of the incarnations of one node (`law_incarnations`), how a
//! clock runs beside true time (`law_clocks`), and that with wait_for_all nothing is quorate before some node
//! saw all (`law_wait_for_all`). The two lemmas that the theorem rests on are laws too: `law_fence` and
//! `law_tells`; over the events of the world, from the landing of a reset on, the first is `law_landed_reset`. What one
//! event is to the log of a node is `law_log_moves`, what stays as it is in one boot `law_boots`, what holds of a
//! node that is up `law_up_nodes`, and what holds of the log of each configured node `law_node_logs`.
//! The premises are met by a schedule in which two nodes hold, one after the other (`law_premises_are_met`). The same
//! is said of a disk of three images, any one of which may fail: `law_triple_no_two_holders`,
//! `law_triple_runs_are_timed`, `law_triple_premises_are_met`, over the world of `specs/TripleSteps`; of events with any numbers
//! `law_triple_any_numbers`, and of each node then `law_triple_nodes`.
//!
//! Of a quorum device that leases its vote, an arbiter that gives its yes to one side at a time: `lease_safe` is exactly the
//! definition of a safe lease; beside an arbiter no two nodes with disjoint present views are ever both quorate
//! (`law_one_lease`), the vote does go from one half to the other (`law_leased_vote_goes_over`), at most one node holds
//! (`law_one_holder_beside`), and every run is a timed run (`law_runs_beside_are_timed`); a node can hold by the vote
//! (`law_node_holds_by_leased_vote`). `specs/Arbiter` and `specs/Poller` say what an arbiter answers and which reply a node
//! takes; `specs/ArbiterWorld`, `specs/ArbiterRules` and `specs/ArbiterSteps` are the world of a cluster beside its arbiter, its
//! rules and its runs.
//!
//! Nothing here says how anything is computed. A crate above cites a law by a call of it; how a lemma under a proof takes a clause stands at the head of
//! `specs/Reported`.
#![tactic(auto)]

mod arbiter_event;
mod arbiter_laws;
mod arbiter_reports;
mod landing;
mod laws;
mod lease;
mod lemmas;
mod log_laws;
mod part;
mod polls;
mod triple_event;
mod triple_laws;

pub use arbiter_event::ArbiterEvent;
pub use arbiter_laws::{
    law_lease_any_numbers, law_leased_vote_goes_over, law_node_holds_by_leased_vote,
    law_one_holder_beside, law_one_lease, law_runs_beside_are_timed,
};
pub use arbiter_reports::{ArbiterReport, Said};
pub use landing::law_landed_reset;
pub use laws::{
    law_any_numbers, law_any_runs_are_timed, law_clocks, law_incarnations, law_no_two_holders,
    law_premises_are_met, law_runs_are_timed, law_timed_runs, law_wait_for_all,
};
pub use lease::{LONGEST_LEASE, Lease, lease_safe};
pub use lemmas::{law_fence, law_tells};
pub use log_laws::{law_boots, law_log_moves, law_node_logs, law_up_nodes};
pub use part::Part;
pub use polls::{Poll, Reply};
pub use triple_event::TripleEvent;
pub use triple_laws::{
    law_triple_any_numbers, law_triple_no_two_holders, law_triple_nodes,
    law_triple_premises_are_met, law_triple_runs_are_timed,
};
