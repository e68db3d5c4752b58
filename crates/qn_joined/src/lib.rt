//! Running nodes that share one outside: one image, one network, true time, and a watchdog each.
//!
//! `specs/Joints` says what may happen to them, call by call and byte by byte, and `specs/WorldOf` which world that is. Promises:
//! at most one resource runs at any moment, for all safe times (`law_one_owner`), also where all began on an image that nodes and
//! operators left (`law_one_owner_again`). Each such run is a run of the world (`law_worlds`), and a longer one is a run of a longer
//! world (`law_worlds_grow`). Each thing that happens is one event of it at most (`law_each_is_one_event`): a call that returns leaves a running node the node that it was (`law_returns_as_node`), a look at the clock is
//! one event (`law_looks_in_world`), and so are a boot, a feed and the end of a machine (`law_boots_in_world`,
//! `law_feeds_in_world`, `law_ends_in_world`). It rests on what holds of the logs of a world (`qn_safety::law_node_logs`). Beside
//! it: a run that stands between two calls as a value (`law_stands`), the calls of each process are the beginning of a run of its node
//! (`law_processes`), a resource that runs is held by the log of its node (`law_owned`), and what the bytes of a sector give a node
//! is what its operation takes in the world (`law_takes_alike`). The rules of what may happen are met by a run in which a
//! node boots and starts its resource, and another one resets it and takes over (`law_joints_are_met`).
//!
//! Of nodes on three images, any one of which may fail, lag behind or come back, `specs/TripleJoints` says what may happen to them,
//! and `specs/TripleNodes` which world that is. At most one resource runs at any moment, for all safe times (`law_triple_one_owner`):
//! each such run is a run of the world of three images (`law_triple_worlds`), and a resource that runs is held by the log of its node
//! (`law_triple_owned`). The rules are met by a run in which one image is lost all the time, and one node takes over from another
//! (`law_triple_joints_are_met`). A process of theirs makes the calls of the run of its node on three images (`law_triple_stands`).
//! The calls of a disk operation on the three end with the answer of the world of three images (`law_triple_calls`); and where a joint
//! has a world, it has one after a disk call landed on an image (`law_triple_lands`) or returned (`law_triple_tells`), a look at the
//! clock returned (`law_triple_looks_return`), another call returned (`law_triple_returns`), so any call (`law_triple_returns_any`), a
//! write that was given up landed after all (`law_triple_late`), time passed, a process began or looked at its clock for the first
//! time, a feed took effect, a machine ended, or an operator wrote (`law_triple_passes`, `law_triple_begins`, `law_triple_looks`,
//! `law_triple_feeds`, `law_triple_ends`, `law_triple_operates`).
#![tactic(auto)]

mod laws;
mod triple_laws;

pub use laws::{
    law_begins_as_node, law_boots_in_world, law_each_is_one_event, law_ends_in_world,
    law_feeds_in_world, law_joints_are_met, law_looks_as_node, law_looks_in_world,
    law_mails_read_back, law_new_images_are_left, law_one_owner, law_one_owner_again, law_owned,
    law_owner_is_reset, law_packets_read_back, law_processes, law_returns_as_node, law_returns_own,
    law_stands, law_takes_alike, law_worlds, law_worlds_again, law_worlds_grow,
};
pub use triple_laws::{
    law_triple_begins, law_triple_calls, law_triple_ends, law_triple_feeds,
    law_triple_joints_are_met, law_triple_lands, law_triple_late, law_triple_looks,
    law_triple_looks_return, law_triple_one_owner, law_triple_operates, law_triple_owned,
    law_triple_passes, law_triple_returns, law_triple_returns_any, law_triple_stands,
    law_triple_tells, law_triple_worlds,
};
