//! The outside of a node as the machine that it runs on has it: standard streams, files, disks, packets and their seals, the servers that
//! keep images, watchdogs, agents and clocks.
//!
//! Promises: `StdSource`, `StdSink` and `RealEnv` are the trusted edge: they tell nothing, and no clause says what a file, a stream or a clock
//! gives. Their counts of faults never fall, and a call answers `Failed` only where the count rose. No file is opened under the
//! descriptor of a standard stream. A node is handed packets of other nodes and replies of its arbiter alone.
#![tactic(auto)]

mod absent_file;
mod agent;
mod blank;
mod connection;
mod deadline;
mod disk;
mod edge;
mod error_lines;
mod etcd_image;
mod etcd_word;
mod file_size_limit;
mod halt_file;
mod headers;
mod image;
mod image_file;
mod image_reader;
mod image_word;
mod journal_lines;
mod leave_file;
mod named_file;
mod nbd_image;
mod network;
mod opening;
mod real;
mod real_machine;
mod refusals;
mod replaced_file;
mod reported;
mod resource;
mod server_times;
mod socket;
mod socket_pair;
mod sockets;
mod standard;
mod standing_file;
mod standing_text;
mod start_ids;
mod steady_host;
mod voices;
mod waiting;
mod watchdog;
mod watchdog_look;

pub use edge::{Edge, Overwrites};
pub use error_lines::Lines;
pub use image_reader::ImageReader;
pub use qn_peers::Guard;
pub use real::RealEnv;
pub use replaced_file::ReplacedFile;
pub use standard::{StdSink, StdSource};
pub use steady_host::{SteadyHost, steady_time};
pub use voices::Voices;
pub use watchdog_look::{Finding, SYS, WatchdogLook, WatchdogSeen, look};
