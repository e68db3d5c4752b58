//! A cluster as its status files show it, and what is said of it in one line.
use crate::text::Text;
use qn_base::NodeId;
use qn_model::Phase;
use qn_names::phase_name;
use qn_shown::{Group, Peer, Shown};
use qn_verdict::{
    Verdict, Voice, has_voice, is_answered, is_contested, is_cut_off, is_down_between, is_heard,
    is_held, is_held_twice, is_live, is_network_down, is_quiet, judge, members, told_voice,
    voice_of,
};
use std::alloc::{AllocError, Global};

/// How many networks there are at most.
const NETWORKS: u64 = 2;

/// The status files of a cluster, at a moment of their host.
#[derive(Drop)]
pub struct ClusterStatus {
    /// The moment, in milliseconds of the host's monotonic clock.
    pub now: u64,
    /// The files that were read, as they were named.
    pub nodes: Vec<Shown>,
    /// Those that were not, an image among them.
    pub unread: Vec<UnreadFile>,
}

/// A file that cannot be read, or says what no status file says.
#[derive(Drop)]
pub struct UnreadFile {
    pub path: String,
    pub why: String,
}

impl ClusterStatus {
    /// What the files come to.
    pub fn verdict(&self) -> Verdict {
        judge(self.now, self.nodes.as_slice()).beside_unread(!self.unread.is_empty())
    }

    /// The verdict and its reason, in one line without its end.
    pub fn line(&self, alloc: Global) -> Result<String, AllocError> {
        let mut text = Text::new(alloc);
        let reason = self.reason(alloc)?;
        if !self.is_contested() {
            text.add(self.verdict().name());
            if !reason.as_str().is_empty() {
                text.add(": ");
            }
        }
        text.add(reason.as_str());
        text.finish()
    }

    /// The reason of the verdict, in one line without its end; empty where nothing more is to be said.
    pub fn reason(&self, alloc: Global) -> Result<String, AllocError> {
        let voices = self.voices(alloc)?;
        let known = self.known(alloc)?;
        let mut words = Words {
            cluster: self,
            text: Text::new(alloc),
            separator: "",
        };
        match self.verdict() {
            Verdict::Unknown => words.text.add("no node answers"),
            Verdict::NoOwner if self.is_contested() => words.add_holders(voices.as_slice()),
            Verdict::Healthy => words.add_healthy(voices.as_slice()),
            Verdict::Degraded if is_held_twice(self.now, self.nodes.as_slice()) => {
                words.add_hand_over(voices.as_slice());
            }
            Verdict::Degraded if is_held(self.now, self.nodes.as_slice()) => {
                let silent = self.silent(alloc, Silent::Heard)?;
                words.add_holder(voices.as_slice(), silent.as_slice());
                words.add_networks(known.as_slice());
            }
            Verdict::Degraded => {
                let silent = self.silent(alloc, Silent::MayHold)?;
                words.add_owner_unknown(voices.as_slice(), silent.as_slice());
                words.add_networks(known.as_slice());
            }
            Verdict::NoOwner => {
                words.add_wrongs(voices.as_slice());
                words.add_networks(known.as_slice());
            }
        }
        words.text.finish()
    }

    /// Whether two nodes hold at a time.
    fn is_contested(&self) -> bool {
        let nodes = self.nodes.as_slice();
        let holders = nodes
            .iter()
            .filter(|node| is_live(self.now, node) && node.holds);
        holders.count() > 1 || is_contested(self.now, nodes)
    }

    /// How each node is by its own word, in ascending id.
    fn voices(&self, alloc: Global) -> Result<Vec<Voice>, AllocError> {
        let mut voices = Vec::new(alloc);
        for node in self.nodes.as_slice() {
            if is_live(self.now, node) {
                add_voice(&mut voices, voice_of(node))?;
                self.add_told(&mut voices, node)?;
            }
        }
        voices
            .as_mut_slice()
            .sort_unstable_by_key(|voice| voice.id.0);
        Ok(voices)
    }

    /// Adds how the nodes are that told this one lately and have no file here.
    fn add_told(&self, voices: &mut Vec<Voice>, node: &Shown) -> Result<(), AllocError> {
        for peer in node.peers.as_slice() {
            if let Some(voice) = told_voice(self.now, self.nodes.as_slice(), node, peer) {
                add_voice(voices, voice)?;
            }
        }
        Ok(())
    }

    /// Each node that is named as one or as a peer of one, in ascending id.
    fn known(&self, alloc: Global) -> Result<Vec<NodeId>, AllocError> {
        let mut ids = Vec::new(alloc);
        for node in self.nodes.as_slice() {
            add_id(&mut ids, node.id)?;
            for peer in node.peers.as_slice() {
                add_id(&mut ids, peer.id)?;
            }
        }
        ids.as_mut_slice().sort_unstable_by_key(|id| id.0);
        Ok(ids)
    }

    /// The nodes of that kind that have no file here and told nothing to the node that knows them, in ascending id.
    fn silent(&self, alloc: Global, kind: Silent) -> Result<Vec<NodeId>, AllocError> {
        let mut ids = Vec::new(alloc);
        for node in self.nodes.as_slice() {
            if is_live(self.now, node) {
                self.add_silent(&mut ids, node, kind)?;
            }
        }
        ids.as_mut_slice().sort_unstable_by_key(|id| id.0);
        Ok(ids)
    }

    /// Adds those that a node knows, where they are not there.
    fn add_silent(
        &self,
        ids: &mut Vec<NodeId>,
        node: &Shown,
        kind: Silent,
    ) -> Result<(), AllocError> {
        for peer in node.peers.as_slice() {
            let has_voice = has_voice(self.now, self.nodes.as_slice(), node, peer.id);
            if !has_voice && kind.is_of(self.now, node, peer) {
                add_id(ids, peer.id)?;
            }
        }
        Ok(())
    }

    /// The name of a node, where a file has it.
    fn name_of(&self, id: NodeId) -> Option<&str> {
        for node in self.nodes.as_slice() {
            if node.id.0 == id.0 {
                if let Some(name) = &node.name {
                    return Some(name.as_str());
                }
            }
            for peer in node.peers.as_slice() {
                if peer.id.0 == id.0 {
                    if let Some(name) = &peer.name {
                        return Some(name.as_str());
                    }
                }
            }
        }
        None
    }

    /// How old a file is, in milliseconds; 0 where its tick is after the moment.
    pub(crate) fn age(&self, node: &Shown) -> u64 {
        self.now.saturating_sub(node.tick)
    }
}

/// Adds a voice, where there is none of its node.
fn add_voice(voices: &mut Vec<Voice>, voice: Voice) -> Result<(), AllocError> {
    if voices
        .as_slice()
        .iter()
        .any(|other| other.id.0 == voice.id.0)
    {
        return Ok(());
    }
    voices.push(voice)?;
    Ok(())
}

/// Adds an id that is not there.
fn add_id(ids: &mut Vec<NodeId>, id: NodeId) -> Result<(), AllocError> {
    if !ids.as_slice().iter().any(|other| other.0 == id.0) {
        ids.push(id)?;
    }
    Ok(())
}

/// Which nodes without a voice are told.
#[derive(Clone, Copy)]
enum Silent {
    /// Those that may hold: the members of the view of a quorate node, of another one all that it knows.
    MayHold,
    /// Those that a node hears, and which tell nothing.
    Heard,
}

impl Silent {
    /// Whether that peer of a node is one of these.
    fn is_of(self, now: u64, node: &Shown, peer: &Peer) -> bool {
        match self {
            Silent::MayHold => !node.answer.quorate || is_member(node, peer.id),
            Silent::Heard => is_heard(now, node, peer),
        }
    }
}

/// What is said of a cluster, part by part.
#[derive(Drop)]
struct Words<'a> {
    cluster: &'a ClusterStatus,
    text: Text,
    /// What stands before the next part.
    separator: &'static str,
}

impl<'a> Words<'a> {
    fn begin(&mut self) {
        self.text.add(self.separator);
        self.separator = "; ";
    }

    /// Begins a part with the name of a node, or its id.
    fn begin_node(&mut self, id: NodeId) {
        self.begin();
        self.add_node(id);
    }

    fn add_node(&mut self, id: NodeId) {
        match self.cluster.name_of(id) {
            Some(name) => self.text.add_foreign(name),
            None => self.text.add_number("", u64::from(id.0)),
        }
    }

    /// Two nodes hold at a time.
    fn add_holders(&mut self, voices: &[Voice]) {
        self.separator = "TWO HOLDERS: ";
        for voice in voices.iter().filter(|voice| voice.holds) {
            self.text.add(self.separator);
            self.add_node(voice.id);
            self.separator = ", ";
        }
        self.text.add(" (by their own word)");
    }

    /// One node holds, and nothing is wrong.
    fn add_healthy(&mut self, voices: &[Voice]) {
        if let Some(voice) = voices.iter().find(|voice| voice.holds) {
            self.begin_node(voice.id);
            self.text.add(" holds");
            self.text.add(match voice.group {
                Group::NoGroup => " (no group)",
                Group::Unsure => " (unsure)",
                Group::Maintenance => " (maintenance)",
                Group::Down
                | Group::Looking
                | Group::Starting
                | Group::Runs
                | Group::Stopping
                | Group::Failed
                | Group::Stuck
                | Group::Unattended => "",
            });
        }
    }

    /// One node hands over to another: who holds the longest, and who the shortest time.
    fn add_hand_over(&mut self, voices: &[Voice]) {
        let holders = voices.iter().filter(|voice| voice.holds);
        let old = holders.max_by_key(|voice| (voice.held_ms, u32::MAX - voice.id.0));
        let holders = voices.iter().filter(|voice| voice.holds);
        let new = holders.min_by_key(|voice| voice.held_ms);
        if let (Some(old), Some(new)) = (old, new) {
            self.begin_node(old.id);
            self.text.add(" hands over to ");
            self.add_node(new.id);
        }
    }

    /// One node holds, and something is wrong; these are heard, and tell nothing.
    fn add_holder(&mut self, voices: &[Voice], silent: &[NodeId]) {
        let Some(voice) = voices.iter().find(|voice| voice.holds) else {
            return;
        };
        self.begin_node(voice.id);
        self.text.add(" holds");
        if matches!(voice.group, Group::Unattended) {
            self.begin();
            self.text.add("nothing looks after its group");
        } else if !voice.group.is_fine() {
            self.begin();
            self.text.add("its group is ");
            self.text.add(voice.group.name());
        }
        self.add_wrongs(voices);
        for id in silent {
            self.begin_node(*id);
            self.text.add(" tells nothing");
        }
    }

    /// No node holds by its word, and these say nothing.
    fn add_owner_unknown(&mut self, voices: &[Voice], silent: &[NodeId]) {
        self.begin();
        self.text.add("owner not known");
        self.separator = ": ";
        for id in silent {
            self.begin_node(*id);
            self.separator = ", ";
        }
        if !silent.is_empty() {
            self.text.add(" tells nothing");
        }
        self.separator = "; ";
        self.add_wrongs(voices);
    }

    /// What is wrong, whoever holds.
    fn add_wrongs(&mut self, voices: &[Voice]) {
        let cluster = self.cluster;
        for node in cluster.nodes.as_slice() {
            if is_live(cluster.now, node) {
                self.add_unseen(node);
            }
        }
        for voice in voices.iter().filter(|voice| !voice.quorate) {
            self.begin_node(voice.id);
            self.text.add(" not quorate");
        }
        for voice in voices.iter().filter(|voice| voice.leaving) {
            self.begin_node(voice.id);
            self.text.add(" is leaving");
        }
        for node in cluster.nodes.as_slice() {
            self.add_state(node);
        }
        for node in cluster.nodes.as_slice() {
            if is_live(cluster.now, node) {
                self.add_lost(node);
            }
        }
        for file in cluster.unread.as_slice() {
            self.begin();
            self.text.add_foreign(file.path.as_str());
            self.text.add(": ");
            self.text.add_foreign(file.why.as_str());
        }
    }

    /// The nodes of which a node heard no Hello lately.
    fn add_unseen(&mut self, node: &Shown) {
        for peer in node.peers.as_slice() {
            if !is_heard(self.cluster.now, node, peer) {
                self.begin_node(node.id);
                self.text.add(" does not see ");
                self.add_node(peer.id);
                if let Some(refused) = peer.refused.filter(|refused| *refused > 0) {
                    self.text.add_number(" (", refused);
                    self.text
                        .add(" packets of it refused: another key or text)");
                }
            }
        }
    }

    /// That a node is dying or off, has mail, or says nothing any more.
    fn add_state(&mut self, node: &Shown) {
        if !is_live(self.cluster.now, node) {
            return self.add_stale(node);
        }
        if matches!(node.phase, Phase::Dying | Phase::Gone) {
            self.begin_node(node.id);
            self.text.add(" is ");
            self.text.add(phase_name(node.phase));
        }
        if !is_quiet(node.mailbox.state) {
            self.begin_node(node.id);
            self.text.add(" has mail ");
            self.text.add(node.mailbox.state.name());
        }
    }

    /// What a node lost of its images and its arbiter.
    fn add_lost(&mut self, node: &Shown) {
        if let Some(images) = node.images {
            self.begin_node(node.id);
            self.text.add_number(" runs on ", images);
            self.text.add(" of 3 images");
        }
        if let Some(arbiter) = &node.arbiter {
            if !is_answered(node, arbiter) {
                self.begin();
                self.text
                    .add_number("device silent for ", arbiter.age_ms / 1000);
                self.text.add(" s");
                add_refused(&mut self.text, arbiter.refused);
            }
        }
    }

    /// Which of the two networks is down, and where among these nodes.
    fn add_networks(&mut self, nodes: &[NodeId]) {
        for network in 0..NETWORKS {
            if is_network_down(self.cluster.now, self.cluster.nodes.as_slice(), network) {
                self.begin();
                self.text.add_number("network ", network);
                self.text.add(" is down");
            } else {
                self.add_cut_off(network, nodes);
                self.add_pairs(network, nodes);
            }
        }
    }

    /// The nodes that a network does not reach at all, in one part.
    fn add_cut_off(&mut self, network: u64, nodes: &[NodeId]) {
        let mut list = Listed::new(network, " to ");
        for id in nodes {
            if self.is_cut_off(network, *id) {
                self.add_listed(&mut list);
                self.add_node(*id);
            }
        }
        self.end_listed(&list);
    }

    /// The pairs of other nodes between which a network is down, in one part.
    fn add_pairs(&mut self, network: u64, nodes: &[NodeId]) {
        let mut list = Listed::new(network, " between ");
        for (place, id) in nodes.iter().enumerate() {
            for other in nodes.iter().skip(place + 1) {
                if self.is_pair_down(network, *id, *other) {
                    self.add_listed(&mut list);
                    self.add_node(*id);
                    self.text.add(" and ");
                    self.add_node(*other);
                }
            }
        }
        self.end_listed(&list);
    }

    fn is_cut_off(&self, network: u64, id: NodeId) -> bool {
        is_cut_off(self.cluster.now, self.cluster.nodes.as_slice(), network, id)
    }

    /// Whether a network is down between two nodes of which it reaches each somewhere.
    fn is_pair_down(&self, network: u64, id: NodeId, other: NodeId) -> bool {
        is_down_between(
            self.cluster.now,
            self.cluster.nodes.as_slice(),
            network,
            id,
            other,
        ) && !self.is_cut_off(network, id)
            && !self.is_cut_off(network, other)
    }

    /// Adds what stands before the next one of a list.
    fn add_listed(&mut self, list: &mut Listed) {
        if list.is_empty {
            self.begin();
            self.text.add_number("network ", list.network);
            self.text.add(list.before);
            list.is_empty = false;
        } else {
            self.text.add(", ");
        }
    }

    /// Ends a list, where it has begun.
    fn end_listed(&mut self, list: &Listed) {
        if !list.is_empty {
            self.text.add(" is down");
        }
    }

    /// A file of a node that says nothing of now.
    fn add_stale(&mut self, node: &Shown) {
        self.begin_node(node.id);
        match &node.end {
            Some(end) => {
                self.text.add(" ended: ");
                self.text.add_foreign(end.as_str());
            }
            None if self.cluster.now < node.tick => {
                self.text.add(" is of another boot of this host");
            }
            None => {
                self.text.add(" silent for ");
                self.text.add_seconds(self.cluster.age(node));
                self.text.add(" s");
            }
        }
    }
}

/// A part of a line that lists where a network is down.
#[derive(Drop)]
struct Listed {
    network: u64,
    /// What stands before the first one.
    before: &'static str,
    is_empty: bool,
}

impl Listed {
    fn new(network: u64, before: &'static str) -> Listed {
        Listed {
            network,
            before,
            is_empty: true,
        }
    }
}

/// Adds how many packets came from an arbiter that no key opened, where some did.
pub(crate) fn add_refused(text: &mut Text, refused: u64) {
    if refused > 0 {
        text.add_number(" (", refused);
        text.add(" packets refused: another key or text)");
    }
}

/// Whether the node counts that one as present.
fn is_member(node: &Shown, id: NodeId) -> bool {
    members(node).iter().any(|member| member.0 == id.0)
}

/// For how many milliseconds its node did not hear a peer; None where it never did.
pub(crate) fn silence_of(node: &Shown, peer: &Peer) -> Option<u64> {
    match peer.hello_tick {
        Some(hello_tick) => Some(node.tick.saturating_sub(hello_tick)),
        None => None,
    }
}
