//! The view maker of a running node: it hears the Hellos and the announcements of the other nodes, and makes the
//! views that the node counts its votes under.
//!
//! Promises: a `Member` is seen as the record `Maker` of `specs/Maker`, and each call is an equation between the
//! record before and after it and its answer. Each view that is made contains the node, and its members are configured.
#![tactic(auto)]

mod announcing;
mod change;
mod company;
mod following;
mod hearing;
mod laws;
mod lead;
mod member;
mod naming;
mod naming_following;
mod naming_laws;
mod naming_said;
mod naming_views;
mod settling;
mod told;

pub use change::Change;
pub use laws::{
    law_changes, law_companies_apart, law_configured_members, law_first_view,
    law_followers_are_enough, law_follows, law_forgotten, law_greatest, law_heard,
    law_leader_has_enough, law_leads, law_one_side, law_own_views, law_views_settle,
    law_views_settle_at_last, law_visible_nodes,
};
pub use lead::Lead;
pub use member::Member;
pub use naming::NamingMember;
pub use naming_laws::{law_barred_copies, law_named_views, law_silent_node};
pub use told::Told;
