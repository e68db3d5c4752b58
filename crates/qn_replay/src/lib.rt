//! The replay of a schedule over any source, of one image, of three, and beside an arbiter: a head is read, and
//! the lines after it are played by qn_playback. One playback and one run serve the three worlds (`TakesEvents`).
//!
//! Promises, on `replay`, `replay3` and `replay_arbiter`: the trace and the end are exactly the defined ones of the bytes
//! that were read, and nothing is read after the piece in which the first fault stood; an unsafe lease is refused right
//! after its line. ReadFault comes only where the count of faults of the source rose, WriteFault only where that of the
//! sink rose. Out of memory is free up to the first trace line; after it, it comes only at an event that the world wants
//! memory for: one that adds a packet or a leftover, or beside an arbiter a poll or a reply. Each trace is that of a run
//! of allowed events, and each of its lines names one holder at most (`law_one_holder`, `law_triple_one_holder`,
//! `law_arbiter_traces`).
//!
//! `last_world` is the world after such a replay. `Gen::next` is the next event of a soak, well formed and
//! allowed, and `soak` writes the defined summary of its events, with at most one holder.
#![tactic(auto)]

mod arbiter_head;
mod beside_arbiter;
mod choice;
mod drawn_events;
mod event_places;
mod generator;
mod in_place;
mod last;
mod laws;
mod one_image;
mod playback;
mod replays;
mod rows;
mod run;
mod soak_settings;
mod soaking;
mod takes_events;
mod tally;
mod three_images;

pub use event_places::EventPlaces;
pub use generator::Gen;
pub use last::last_world;
pub use laws::{law_arbiter_ending, law_arbiter_traces, law_triple_ending, law_triple_one_holder};
pub use replays::{replay, replay_arbiter, replay3};
pub use rows::{law_ending, law_heads, law_one_holder, law_texts};
pub use soaking::soak;
