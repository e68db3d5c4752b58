//! What a node shows, written as one object of JSON.
ghost use Rattle.std.specs.Prelude.{◌≡◌, Some, codes, drop, option_map, take};
ghost use Rattle.json.specs.Json.{array, number};
ghost use Rattle.qn_shown.specs.Kinds.{time_text};
ghost use Rattle.qn_shown.specs.Spelling.{arbiter_json, arbiter_entries, candidate_json, group_json, heard_json, id_json, items_of, json_or_null, peer_entries, peer_json, shown_entries, shown_json, standing_entries, standing_json, told_entries, view_entries, view_json};
ghost use Rattle.qn_journal.specs.JsonTexts.{with_entries, with_entry, with_items, with_json};

use crate::json_text::JsonText;
use arrayvec::ArrayVec;
use qn_base::{NodeId, add, add_number};
use qn_names::phase_name;
use qn_shown::{Arbiter, Candidate, Group, Heard, HostStanding, Peer, Shown, ShownView, Told};

/// What a node shows.
pub(crate) fn write_shown(json: &mut JsonText, shown: &Shown)
    ensures { json.new ≡ with_json json.old (shown_json shown.now) }
{
    json.begin_object();
    write_arbiter_to_format(json, shown);
    write_group_to_loop(json, shown);
    write_mail_to_peers(json, shown);
    write_phase_to_standing(json, shown);
    write_tick_to_why(json, shown);
    json.end_object();
}

fn write_arbiter_to_format(json: &mut JsonText, shown: &Shown)
    ensures { json.new ≡ with_entries json.old (take 5 (shown_entries shown.now)) }
{
    write_arbiter(json, &shown.arbiter);
    json.whole(b"dropped", shown.counts.dropped);
    json.text_or_null(b"end", &shown.end);
    json.whole(b"expected", shown.answer.expected);
    json.whole(b"format", 1);
}

fn write_group_to_loop(json: &mut JsonText, shown: &Shown)
    ensures { json.new ≡ with_entries json.old (take 8 (drop 5 (shown_entries shown.now))) }
{
    write_group(json, shown.group);
    json.whole_if_any(b"held_ms", shown.held_ms);
    json.truth(b"holds", shown.holds);
    json.whole(b"id", u64::from(shown.id.0));
    json.whole_if_any(b"images", shown.images);
    json.whole_or_null(b"incarnation", shown.incarnation);
    json.whole(b"late", shown.counts.late);
    json.whole(b"loop", u64::from(shown.loop_ms));
}

fn write_mail_to_peers(json: &mut JsonText, shown: &Shown)
    ensures { json.new ≡ with_entries json.old (take 5 (drop 13 (shown_entries shown.now))) }
{
    let mailbox = shown.mailbox;
    json.string(b"mail", mailbox.state.name().as_bytes());
    write_sender(json, mailbox.by);
    json.whole_or_null(b"mail_tick", mailbox.tick);
    json.text_if_any(b"name", &shown.name);
    write_peers(json, &shown.peers);
}

fn write_phase_to_standing(json: &mut JsonText, shown: &Shown)
    ensures { json.new ≡ with_entries json.old (take 7 (drop 18 (shown_entries shown.now))) }
{
    json.string(b"phase", phase_name(shown.phase).as_bytes());
    json.whole(b"pid", shown.pid);
    json.truth(b"quorate", shown.answer.quorate);
    json.whole(b"quorum", shown.answer.quorum);
    json.whole(b"refused", shown.counts.refused);
    json.truth(b"released", shown.answer.released);
    write_standing(json, shown.standing);
}

fn write_tick_to_why(json: &mut JsonText, shown: &Shown)
    ensures { json.new ≡ with_entries json.old (drop 25 (shown_entries shown.now)) }
{
    json.whole(b"tick", shown.tick);
    write_time(json, shown.time_ms);
    json.whole(b"unwritten", shown.counts.unwritten);
    write_view(json, &shown.view);
    json.whole(b"votes", shown.answer.votes);
    json.string(b"why", shown.why.as_str().as_bytes());
}

/// What was heard of the arbiter, where the node polls one.
#[tactic(auto, unfolding(crate::specs::JsonTexts::with_entry))]
fn write_arbiter(json: &mut JsonText, arbiter: &Option<Arbiter>)
    ensures { json.new ≡ with_entry json.old (codes "arbiter", option_map arbiter_json arbiter.now) }
{
    match arbiter {
        Some(arbiter) => {
            json.key(b"arbiter");
            json.begin_object();
            write_arbiter_entries(json, arbiter);
            json.end_object();
        }
        None => {}
    }
}

fn write_arbiter_entries(json: &mut JsonText, arbiter: &Arbiter)
    ensures { json.new ≡ with_entries json.old (arbiter_entries arbiter.now) }
{
    json.text_or_null(b"address", &arbiter.address);
    json.whole(b"age", arbiter.age_ms);
    json.string(b"answer", arbiter.answer.name().as_bytes());
    json.whole(b"no", arbiter.no);
    json.whole(b"polls", arbiter.polls);
    json.whole(b"refused", arbiter.refused);
    json.whole(b"yes", arbiter.yes);
}

/// How the group is: nothing where there is none, null where nothing looks after it.
#[tactic(auto, unfolding(crate::specs::JsonTexts::with_entry))]
fn write_group(json: &mut JsonText, group: Group)
    ensures { json.new ≡ with_entry json.old (codes "group", group_json group) }
{
    match group {
        Group::NoGroup => {}
        Group::Unattended => json.null(b"group"),
        Group::Down
        | Group::Looking
        | Group::Starting
        | Group::Runs
        | Group::Unsure
        | Group::Stopping
        | Group::Failed
        | Group::Stuck
        | Group::Maintenance => json.whole(b"group", u64::from(group.number())),
    }
}

/// Who sent the message of the mailbox.
fn write_sender(json: &mut JsonText, by: Option<NodeId>)
    ensures { json.new ≡ with_entry json.old (codes "mail_by", Some (json_or_null id_json by)) }
{
    match by {
        Some(id) => json.whole(b"mail_by", u64::from(id.0)),
        None => json.null(b"mail_by"),
    }
}

/// The other nodes.
#[tactic(auto, unfolding(crate::specs::JsonTexts::with_entry))]
fn write_peers(json: &mut JsonText, peers: &ArrayVec<Peer, 32>)
    ensures { json.new
        ≡ with_entry json.old (codes "peers", Some (array (items_of peer_json peers.now.items))) }
{
    json.key(b"peers");
    json.begin_array();
    write_each_peer(json, peers.as_slice());
    json.end_array();
}

#[tactic(auto, unfolding(crate::specs::JsonTexts::with_items))]
fn write_each_peer(json: &mut JsonText, peers: &[Peer])
    ensures { json.new ≡ with_items peer_json json.old peers.now }
{
    for peer in peers {
        write_peer(json, peer);
    }
}

fn write_peer(json: &mut JsonText, peer: &Peer)
    ensures { json.new ≡ with_json json.old (peer_json peer.now) }
{
    json.begin_object();
    write_peer_entries(json, peer);
    json.end_object();
}

fn write_peer_entries(json: &mut JsonText, peer: &Peer)
    ensures { json.new ≡ with_entries json.old (peer_entries peer.now) }
{
    json.whole_or_null(b"hello_tick", peer.hello_tick);
    json.whole(b"id", u64::from(peer.id.0));
    json.text_if_any(b"name", &peer.name);
    json.whole_if_any(b"network_down", peer.network_down);
    json.whole_if_any(b"refused", peer.refused);
    write_heard(json, peer.told);
}

/// What a node told last.
#[tactic(auto, unfolding(crate::specs::JsonTexts::with_entry))]
fn write_heard(json: &mut JsonText, heard: Heard)
    ensures { json.new ≡ with_entry json.old (codes "told", heard_json heard) }
{
    match heard {
        Heard::Unsaid => {}
        Heard::Nothing => json.null(b"told"),
        Heard::Said(told, tick) => {
            json.key(b"told");
            json.begin_object();
            write_told_entries(json, told, tick);
            json.end_object();
        }
    }
}

fn write_told_entries(json: &mut JsonText, told: Told, tick: u64)
    ensures { json.new ≡ with_entries json.old (told_entries told tick) }
{
    json.whole(b"group", u64::from(told.group.number()));
    json.whole(b"held_ms", told.held_ms);
    json.truth(b"holds", told.holds);
    json.whole(b"incarnation", told.incarnation);
    json.truth(b"leaving", told.leaving);
    json.truth(b"quorate", told.quorate);
    json.whole(b"tick", tick);
}

/// What the host says of its node, where it says anything.
#[tactic(auto, unfolding(crate::specs::JsonTexts::with_entry))]
fn write_standing(json: &mut JsonText, standing: Option<HostStanding>)
    ensures { json.new ≡ with_entry json.old (codes "standing", option_map standing_json standing) }
{
    match standing {
        Some(said) => {
            json.key(b"standing");
            json.begin_object();
            write_standing_entries(json, said);
            json.end_object();
        }
        None => {}
    }
}

fn write_standing_entries(json: &mut JsonText, said: HostStanding)
    ensures { json.new ≡ with_entries json.old (standing_entries said) }
{
    json.truth(b"fit", said.fit);
    json.truth(b"pull", said.pull);
    json.truth(b"standby", said.standby);
    json.whole(b"weight", u64::from(said.weight));
}

/// The wall clock in seconds, with three places.
#[tactic(auto, unfolding(crate::specs::JsonTexts::with_entry))]
fn write_time(json: &mut JsonText, time_ms: u64)
    ensures { json.new ≡ with_entry json.old (codes "time", Some (number (time_text time_ms))) }
{
    let text = time_text(time_ms);
    json.key(b"time");
    json.number_value(text.as_slice());
}

/// Milliseconds as seconds with three places.
fn time_text(ms: u64) -> ArrayVec<u8, 24>
    ensures { result.items ≡ time_text ms }
{
    let mut text = ArrayVec::new();
    add_number(&mut text, ms / 1000);
    let rest = (ms % 1000) as u16;
    let digits = [
        b'.',
        b'0' + (rest / 100) as u8,
        b'0' + (rest / 10 % 10) as u8,
        b'0' + (rest % 10) as u8,
    ];
    add(&mut text, digits.as_slice());
    text
}

/// The view, null before there was one.
#[tactic(auto, unfolding(crate::specs::JsonTexts::with_entry))]
fn write_view(json: &mut JsonText, view: &Option<ShownView>)
    ensures { json.new ≡ with_entry json.old (codes "view", Some (json_or_null view_json view.now)) }
{
    match view {
        Some(view) => {
            json.key(b"view");
            json.begin_object();
            write_view_entries(json, view);
            json.end_object();
        }
        None => json.null(b"view"),
    }
}

fn write_view_entries(json: &mut JsonText, view: &ShownView)
    ensures { json.new ≡ with_entries json.old (view_entries view.now) }
{
    write_candidate(json, view.candidate);
    json.whole(b"id", view.id);
    write_members(json, &view.members);
}

/// Whom a view names: null is nobody in particular, 0 that none may start.
#[tactic(auto, unfolding(crate::specs::JsonTexts::with_entry))]
fn write_candidate(json: &mut JsonText, candidate: Candidate)
    ensures { json.new ≡ with_entry json.old (codes "candidate", candidate_json candidate) }
{
    match candidate {
        Candidate::Unsaid => {}
        Candidate::Unnamed => json.null(b"candidate"),
        Candidate::Nobody => json.whole(b"candidate", 0),
        Candidate::Named(id) => json.whole(b"candidate", u64::from(id.0)),
    }
}

/// The ids of the members of a view.
#[tactic(auto, unfolding(crate::specs::JsonTexts::with_entry))]
fn write_members(json: &mut JsonText, members: &ArrayVec<NodeId, 32>)
    ensures { json.new
        ≡ with_entry json.old (codes "members", Some (array (items_of id_json members.now.items))) }
{
    json.key(b"members");
    json.begin_array();
    write_ids(json, members.as_slice());
    json.end_array();
}

#[tactic(auto, unfolding(crate::specs::JsonTexts::with_items))]
fn write_ids(json: &mut JsonText, ids: &[NodeId])
    ensures { json.new ≡ with_items id_json json.old ids.now }
{
    for id in ids {
        json.whole_value(u64::from(id.0));
    }
}
