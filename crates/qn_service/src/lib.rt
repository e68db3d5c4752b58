//! What running nodes do for their service: whom they see, which views are made and taken, and which machines are reset.
//!
//! `specs/Leading` says of one look of a view maker whose view it gives and whom that leaves out, `specs/Looks` which looks there
//! were in a joined run, and `specs/Unheard` which machines are reset. Promises: a look makes a view or takes one that its leader
//! announced (`law_made_or_taken`); who is the least member of such a view made it, where not all know names
//! (`law_least_members_made_it`); a view of a leader stays while its company does (`law_views_stay`); and who is left out of a view
//! was not in company of its maker, and no member of which a Hello came was left out before three loops (`law_left_out`). A
//! company that a leader finds for a loop is its view (`law_company_is_view`), and a node takes the view that its leader announced
//! (`law_followers_take_it`), where all know names. So a
//! machine is reset only where the maker of the view left it out (`law_resets_the_unheard`), and none is while each leader finds
//! all others in company (`law_nobody_is_reset`). The rules are met by a run in which a reset is asked for (`law_reset_is_met`).
//!
//! By the worlds of joined runs: each look is by the loop's time of the image (`law_looks_by_the_image`), so nobody is reset while each
//! leader hears all others within three loops of it (`law_nobody_heard_is_reset`). What a log holds runs, or a Stop of it is unanswered
//! (`law_holders_run`). What is said of each joint is said of each moment between (`law_moments_are_of_joints`), so an owner that is
//! well goes on running its resource (`law_owners_go_on`), as one does in a run that is given (`law_owner_is_well`). From look to look
//! a running node keeps what it has of its view (`law_looks_follow`), so a company that it finds for a loop is its view
//! (`law_companies_settle`). A majority whose nodes have one view has an owner within the time of a take-over, and at each joint after it
//! (`law_members_serve`), as in a run that is given (`law_members_are_met`).
//!
//! The log of a running node shows the view that the last look of its view maker left (`law_logs_show_views`), also where that is the
//! company of a leader (`law_companies_are_shown`); each look is one of a node that knows names (`law_looks_know_names`). While its looks
//! keep a view, its log has it (`law_views_are_kept`), and so a majority whose looks agree on one has an owner (`law_looks_serve`), as in a
//! run that is given (`law_looks_are_met`).
//!
//! Who is heard and seen: a node that keeps its pace says its Hellos in time (`law_hellos_are_said`), each look of another one hears it where
//! packets come in time (`law_looks_hear`), as in a run that is given (`law_hellos_are_met`), and sees it where each of the two hears the other
//! (`law_looks_see`). What the looks of the one leave to be said is what the other knows of it (`law_looks_know_words`), and so is a view that
//! it announces (`law_views_are_announced`, `law_looks_know_views`), which a node that it leads keeps (`law_followers_keep`). Each look of a
//! node of a set whose nodes stay in sight of one another sees just the set (`law_looks_find_sets`). Looks that see the same, and find the same of all, follow the same node
//! (`law_alike_looks_follow_one`).
#![tactic(auto)]

mod hellos;
mod laws;
mod looks;
mod owners;
mod service;
mod serving;

pub use hellos::{
    law_followers_keep, law_hellos_are_met, law_hellos_are_said, law_looks_find_sets,
    law_looks_hear, law_looks_know_views, law_looks_know_words, law_looks_see,
    law_views_are_announced,
};
pub use laws::{law_nobody_is_reset, law_reset_is_met, law_resets_the_unheard};
pub use looks::{
    law_alike_looks_follow_one, law_company_is_view, law_followers_take_it,
    law_least_members_made_it, law_left_out, law_made_or_taken, law_views_stay,
};
pub use owners::{
    law_holders_run, law_looks_by_the_image, law_moments_are_of_joints, law_nobody_heard_is_reset,
    law_owner_is_well, law_owners_go_on,
};
pub use service::{
    law_announcements_come, law_companies_are_found, law_followers_come_to_it, law_leaders_settle,
    law_looks_come_to_agree, law_nodes_serve, law_service,
};
pub use serving::{
    law_companies_are_shown, law_companies_settle, law_logs_show_views, law_looks_are_met,
    law_looks_follow, law_looks_know_names, law_looks_serve, law_members_are_met,
    law_members_serve, law_views_are_kept,
};
