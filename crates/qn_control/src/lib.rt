//! What an operator wants to know of times, of a corosync.conf, of an image and of nodes that run, beside what the program takes.
//!
//! Promises: `least_msgwait` is the least safe one, and None where none is safe; `slowest_disk` is the slowest on which a take-over
//! has a bound, `unbounded_on` the first condition of it that is not met, and `longest_take_over` the defined bound, which has
//! the number of a law of `qn_progress` in it. What is told of a text, an image and a cluster is tested.
#![tactic(auto)]

mod as_json;
mod as_metrics;
mod as_table;
mod asking;
mod at_fault;
mod cluster;
mod concerns;
mod devices;
mod differences;
mod findings;
mod flags;
mod history;
mod image;
mod image_json;
mod image_lines;
mod journal_line;
mod named;
mod networks;
mod node_concerns;
mod pairs;
mod text;
mod text_concerns;
mod times;
mod told;
mod unbounded;

pub use as_json::cluster_json;
pub use as_metrics::cluster_metrics;
pub use as_table::cluster_text;
pub use asking::{
    Decision, Progress, Refusal, Request, Written, decide, is_missing, progress_of, words_with,
};
pub use at_fault::{lines_of_key, wrong_lines};
pub use cluster::{ClusterStatus, UnreadFile};
pub use concerns::{Concern, concerns_of};
pub use devices::{DeviceConcern, device_concerns_of};
pub use differences::{Difference, differences_of};
pub use findings::Finding;
pub use history::History;
pub use image::{ImageSeen, NodeSeen, Sectors, look_at_image};
pub use image_json::{check_json, list_json};
pub use image_lines::{finding_lines, image_lines_beside, node_lines};
pub use networks::{NetworksSeen, look_at_networks, network_lines};
pub use node_concerns::{NodeConcern, node_concerns_of};
pub use pairs::{Pair, Place, pairs_of};
pub use text_concerns::{TextConcern, has_byte_order_mark, text_concerns_of};
pub use times::{least_msgwait, longest_take_over, slowest_disk, unbounded_on};
pub use told::settings_text;
pub use unbounded::Unbounded;
