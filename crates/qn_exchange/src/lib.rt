//! What one device, agent or server of a node is sent, and what it answers: a feed and the times of a watchdog, an order to the agent of a
//! resource, a request to a block server and to a member of an etcd cluster, and a halt.
//!
//! Promises: over any reader and writer of the kit, a feed is given in time or not at all, an order or a request is done only where it was
//! sent whole and what was read is its answer, and a halt is told as the one that it is; where a call fails, what was sent is a part of what was to
//! be sent. Real calls that were interrupted are made again, a bounded number of times. Nothing here opens a file or a connection.
#![tactic(auto)]

mod again;
mod agent_exchange;
mod etcd_client;
mod etcd_exchange;
mod feeding;
mod halting;
mod line;
mod nbd_client;
mod nbd_exchange;
mod order;
mod watchdog_time;

pub use again::{TRIES, read_again, write_again, write_whole};
pub use agent_exchange::{ask_agent, ask_over};
pub use etcd_client::{EtcdClient, MOST_HOST, SectorRead};
pub use etcd_exchange::{ANSWER, exchange, strange};
pub use feeding::{ShortFeedDelay, feed_limit, feed_once};
pub use halting::put_halt;
pub use line::{Ends, Line, Spent};
pub use nbd_client::{MOST_PLACE, NbdClient, Stride};
pub use nbd_exchange::{Request, ask_server};
pub use order::{Obeyed, Order, put_order};
pub use watchdog_time::{is_time_safe, seconds_of};
