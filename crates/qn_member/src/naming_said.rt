//! What a view maker that names says: of itself, its view, and when a Hello is due.
ghost use Rattle.std.specs.Prelude.{◌≡◌};
ghost use Rattle.qn_member.specs.NamingViews.{flags_with};

use crate::naming::{HOLDS, KNOWS, NamingMember};
use crate::told::Told;
use qn_base::{Rank, Said, Standing, View};

/// These flags, and one more where the node says so.
fn flags_with(says: bool, flag: u8, flags: u8) -> u8
    ensures { result ≡ flags_with says flag flags }
{
    if says { flags | flag } else { flags }
}

impl NamingMember {
    ghost use Rattle.std.specs.Prelude.{◌≡◌, ◌<◌, slice_index_or};
    ghost use Rattle.std.specs.Option.{option_map};
    ghost use Rattle.qn_member.specs.Announcing.{view_to_leave};
    ghost use Rattle.qn_member.specs.Maker.{led_by};
    ghost use Rattle.qn_member.specs.NamingViews.{after_naming_hello_due, is_leaning, is_naming_hello_due, is_naming_news, is_naming_news_due, is_view_news, standing_at, view_announced};

    /// What the node says of itself after a look.
    pub(crate) fn standing_at(&self) -> Standing
        ensures { result ≡ standing_at self.now }
    {
        if !self.is_own(KNOWS) {
            return Standing {
                flags: 0,
                weight: 0,
            };
        }
        let keeps = self.flagged_nodes(self.member.seen, HOLDS).0 != 0;
        let me = self.member.me;
        let own = self.flags_of(me);
        let weight = self.weight_of(me);
        let leans = self.is_leaning();
        let flags = flags_with(leans, 64, flags_with(keeps, 16, own));
        Standing { flags, weight }
    }

    /// Whether the node is able to lead with the votes of the device alone.
    fn is_leaning(&self) -> bool
        ensures { result ≡ is_leaning self.now }
    {
        self.is_fit_to_lead() && !self.has_sure_votes()
    }

    fn weight_of(&self, rank: Rank) -> u8
        requires { rank.0 < 32 }
        ensures { result ≡ slice_index_or self.now.weights rank.0 0 }
    {
        self.weights[usize::from(rank.0)]
    }

    /// What a Hello says now.
    pub fn says(&self) -> Said
        ensures { result ≡ self.now.maker.says }
    {
        self.member.says
    }

    /// What the node says of itself beside it.
    pub fn standing(&self) -> Standing
        ensures { result ≡ self.now.stands }
    {
        self.stands
    }

    /// Who led at the last look.
    pub fn leads(&self) -> Option<Rank>
        ensures { option_map (λ rank. rank.0) result ≡ led_by self.now.maker }
    {
        self.member.leads()
    }

    /// The present view, where this node announces it. A view with a name goes in a packet of its own kind.
    pub fn announces(&self) -> Option<View>
        ensures { result ≡ view_announced self.now }
    {
        if !self.naming {
            return self.member.announces();
        }
        let view = self.member.view?;
        if self.leads_itself() && view.members.has(self.member.me) {
            Some(view)
        } else {
            None
        }
    }

    /// The farewell of a node that leaves, which has no name.
    pub fn farewell(&self) -> Option<View>
        ensures { result ≡ view_to_leave self.now.maker }
    {
        self.member.farewell()
    }

    /// Whether Hellos and the announced view are to be sent at this tick.
    pub fn hello_due(&mut self, tick: u64) -> bool
        ensures due { result ≡ is_naming_hello_due tick self.old }
        ensures after { self.new ≡ after_naming_hello_due tick self.old }
    {
        let beat = self.member.is_beat(tick);
        let due = beat || self.is_naming_news_due(tick);
        if due {
            let view = self.announces();
            if beat {
                self.member.last_hello = Some(tick);
            }
            self.member.told = Some(Told {
                tick,
                said: self.member.says,
                view,
            });
            self.told_stands = self.stands;
        }
        due
    }

    fn is_naming_news_due(&self, tick: u64) -> bool
        ensures { result ≡ is_naming_news_due tick self.now }
    {
        match self.member.told {
            Some(told) => {
                self.is_naming_news(told)
                    && tick >= told.tick
                    && tick - told.tick >= self.member.loop_ms.div_ceil(16)
            }
            None => false,
        }
    }

    fn is_naming_news(&self, told: Told) -> bool
        ensures { result ≡ is_naming_news self.now told }
    {
        told.said != self.member.says || self.told_stands != self.stands || self.is_view_news(told)
    }

    fn is_view_news(&self, told: Told) -> bool
        ensures { result ≡ is_view_news self.now told }
    {
        match self.announces() {
            Some(view) => told.view != Some(view),
            None => false,
        }
    }
}
