//! The running node: one node over one outside. It takes an entry a turn, makes exactly the calls that its definition
//! gives for what it was handed, and says how it ended.
//!
//! Promises: the calls that `run_node` makes are those of the plan `live_plan` of `specs/Runs`, and its end is the one of
//! that plan, for every outside. The log of a run is one history of a node (`law_one_history`), which begins once and whose ticks
//! are what the clock told (`law_handed_history`), and the calls without
//! receive, now, Hello, Announce and polls are the outputs of that history, in order (`law_outputs`). Where no call fails and no
//! tick falls, no run ends because of the clock or of a failed step of the boot (`law_sound_end`), and a failed call halts
//! a boot only by the disk operation that it was made for (`law_boot_halted`). Where a Hello is due it says what the last look found
//! and what the node says of itself, and the announcement follows it (`law_hellos`); a turn takes no packet where the last look of the
//! view maker is a loop ago (`law_late_look`). What the host of a node says of it is received as a packet is, and kept (`specs/Words`).
//! `NodeRun` is the same run as a machine, which names its next call and takes its answer; an entry is taken in at each look at the
//! clock that did not go back (`answer`), and `standing` is what the log says. Bytes that came are decoded once (`Decoded`): for the node, and
//! for `Notices`, which are told of each call with its answer and of the end, and change nothing of the run. No call takes memory from an
//! allocator.
//!
//! The same on three images, of which any one may be lost: the calls that `run_node3` makes are those of `triple_plan` of
//! `specs/TripleRuns`, and its end is the one of that plan, for every outside. The plan is that of a node on one image, in which a call on
//! the image is made on each of the three, and what they tell together is the entry that the world of three images gives (`qn_safety`'s
//! `TripleWorld`). A failed call halts a boot only by the disk operation that it was made for (`law_triple_boot_halted`). `TripleRun` is
//! the same run as a machine, which names its next call and takes its answer: it makes each disk operation of a node by calls on the
//! images, one after the other, and answers it by what they told.
#![tactic(auto)]

mod asked;
mod calling;
mod choosing;
mod decoded;
mod disk;
mod greeting;
mod images_run;
mod laws;
mod live_end;
mod node_images;
mod notices;
mod outputs;
mod part;
mod place;
mod polling;
mod run;
mod running;
mod standing;
mod told;
mod triple_entry;
mod triple_laws;
mod triple_operations;
mod triple_run;
mod words;

pub use asked::{Asked, Given, Room};
pub use calling::call;
pub use decoded::{Came, Decoded};
pub use images_run::ImagesRun;
pub use laws::{
    law_boot_halted, law_end_causes, law_handed_history, law_hellos, law_late_look, law_one_end,
    law_one_history, law_operation, law_outputs, law_rest, law_sound_end,
};
pub use live_end::LiveEnd;
pub use node_images::NodeImages;
pub use notices::{NoNotices, Notices};
pub use run::NodeRun;
pub use running::{run_node, run_node3, run_on};
pub use standing::Standing;
pub use triple_laws::{
    law_triple_answers, law_triple_boot_halted, law_triple_check, law_triple_end,
    law_triple_end_causes, law_triple_handed_history, law_triple_history, law_triple_outputs,
    law_triple_writes,
};
pub use triple_run::TripleRun;
pub use words::{Own, Words};
