//! The fence lemma over the events of the world.
ghost use Rattle.std.specs.Prelude.{◌≡◌, List, ◌∷◌, IsTrue};
ghost use Rattle.qn_base.specs.declared.ids.Rank.{Rank};
ghost use Rattle.qn_model.specs.declared.configuration.Settings.{Settings};
ghost use Rattle.qn_model.specs.declared.disk.Message.TheVariants as message;
ghost use Rattle.qn_model.specs.declared.events.Event.{Event};
ghost use Rattle.qn_model.specs.declared.events.Event.TheVariants as event;
ghost use Rattle.qn_model.specs.declared.times.Timing.{Timing};
ghost use Rattle.qn_model.specs.Steps.{AllAllowed, run};
ghost use Rattle.qn_model.specs.Timing.{is_safe};
ghost use Rattle.qn_safety.specs.Landing.{HasPassed, LandsReset};
ghost use Rattle.qn_safety.specs.Lemmas.{HasEnded};

/// The fence lemma over the events of the world. From the event on with which a node's reset of another one lands, the
/// mailbox of that other node holds it; and the incarnation of it that was up then, if one was, is not running any more
/// once msgwait has passed by the clock of the node that wrote the reset.
pub fn law_landed_reset()
    ensures mailbox { (s : Settings) (t : Timing) (events earlier : List Event)
        (writer other : Rank)
        → LandsReset s t writer other earlier events
        → (run s t (event.Land writer ∷ earlier)).mailboxes other.0 ≡ message.Reset }
    ensures ended { (s : Settings) (t : Timing) (events earlier : List Event) (writer other : Rank)
        → IsTrue (is_safe t)
        → AllAllowed s t events
        → LandsReset s t writer other earlier events
        → HasPassed s t writer.0 (run s t earlier).moments (run s t events).moments
        → HasEnded s other.0 (run s t earlier).moments (run s t events).moments }
{}
