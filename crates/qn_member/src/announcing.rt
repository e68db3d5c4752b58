//! When a Hello is due, what it says, and the views that are announced.
use crate::member::Member;
use crate::told::Told;
use qn_base::{Mask, Rank, Said, View};
use qn_candidate::without_name;

impl Member {
    ghost use Rattle.std.specs.Prelude.{◌≡◌, ◌<◌};
    ghost use Rattle.std.specs.Option.{option_map};
    ghost use Rattle.qn_member.specs.Announcing.{is_beat, is_new_view, is_news, is_news_due, after_hello_due, is_hello_due, is_other_in, others_in, view_to_announce, view_to_leave};
    ghost use Rattle.qn_member.specs.Maker.{said_at, led_by};

    /// Whether a Hello is due at this tick: at the first call, half a loop, rounded up, after the last one of the beat, and for
    /// news a sixteenth of a loop after the last one.
    pub fn hello_due(&mut self, tick: u64) -> bool
        ensures due { result ≡ is_hello_due tick self.old }
        ensures after { self.new ≡ after_hello_due tick self.old }
    {
        let beat = self.is_beat(tick);
        let due = beat || self.is_news_due(tick);
        if due {
            let view = self.announces();
            if beat {
                self.last_hello = Some(tick);
            }
            self.told = Some(Told {
                tick,
                said: self.says,
                view,
            });
        }
        due
    }

    pub(crate) fn is_beat(&self, tick: u64) -> bool
        ensures { result ≡ is_beat tick self.now }
    {
        match self.last_hello {
            Some(last) => tick >= last && tick - last >= self.loop_ms - self.loop_ms / 2,
            None => true,
        }
    }

    fn is_news_due(&self, tick: u64) -> bool
        ensures { result ≡ is_news_due tick self.now }
    {
        match self.told {
            Some(told) => {
                self.is_news(told)
                    && tick >= told.tick
                    && tick - told.tick >= self.loop_ms.div_ceil(16)
            }
            None => false,
        }
    }

    fn is_news(&self, told: Told) -> bool
        ensures { result ≡ is_news self.now told }
    {
        told.said != self.says || self.is_new_view(told)
    }

    fn is_new_view(&self, told: Told) -> bool
        ensures { result ≡ is_new_view self.now told }
    {
        match self.announces() {
            Some(view) => told.view != Some(view),
            None => false,
        }
    }

    /// What a Hello says after the last look.
    pub fn says(&self) -> Said
        ensures { result ≡ self.now.says }
    {
        self.says
    }

    /// What a Hello says, at a look.
    pub(crate) fn said_at(&self, tick: u64) -> Said
        ensures { result ≡ said_at tick self.now }
    {
        Said {
            hears: self.heard_nodes(tick),
            follows: self.followed(self.seen),
            able: self.is_able(self.seen),
        }
    }

    /// The node that led at the last look: whom a Hello says that the node follows, else the least that the look saw.
    pub fn leads(&self) -> Option<Rank>
        ensures { option_map (λ rank. rank.0) result ≡ led_by self.now }
    {
        match self.says.follows {
            Some(rank) => Some(rank),
            None => self.least_of(self.seen),
        }
    }

    /// The view to announce: the present one, where the node is its member of least rank.
    pub fn announces(&self) -> Option<View>
        ensures { result ≡ view_to_announce self.now }
    {
        let view = self.view?;
        if self.least_of(view.members) == Some(self.me) {
            Some(view)
        } else {
            None
        }
    }

    /// The farewell of a node that leaves, for each other node: its present view without itself and without a name, where anybody
    /// else is in it.
    pub fn farewell(&self) -> Option<View>
        ensures { result ≡ view_to_leave self.now }
    {
        let view = self.view?;
        let members = self.others_in(view.members);
        if members.0 == 0 {
            return None;
        }
        Some(View {
            id: without_name(view.id),
            members,
        })
    }

    /// The members without the node itself.
    fn others_in(&self, members: Mask) -> Mask
        ensures { result ≡ others_in self.now members }
    {
        let mut others = Mask(0);
        for rank in 0..self.count() {
            if self.is_other_in(members, Rank(rank)) {
                others = others.with(Rank(rank));
            }
        }
        others
    }

    fn is_other_in(&self, members: Mask, rank: Rank) -> bool
        requires { rank.0 < 32 }
        ensures { result ≡ is_other_in self.now members rank.0 }
    {
        members.has(rank) && rank != self.me
    }
}
