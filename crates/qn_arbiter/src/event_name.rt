//! The first words of the lines that only a schedule beside an arbiter has.
ghost use Rattle.std.specs.Prelude.{◌≡◌};
ghost use Rattle.qn_arbiter.specs.EventNames.{arbiter_name, arbiter_word};

/// What the first word of such a line says.
#[derive(Clone, Copy, PartialEq, Eq)]
pub(crate) enum ArbiterName {
    PassWith,
    ArbiterBoot,
    ArbiterCrash,
    Poll,
    Hear,
    Reply,
}

const ARBITER_NAMES: [ArbiterName; 6] = [
    ArbiterName::PassWith,
    ArbiterName::ArbiterBoot,
    ArbiterName::ArbiterCrash,
    ArbiterName::Poll,
    ArbiterName::Hear,
    ArbiterName::Reply,
];

impl ArbiterName {
    fn word(self) -> &'static str
        ensures { result.now ≡ arbiter_word self }
    {
        match self {
            ArbiterName::PassWith => "pass-with",
            ArbiterName::ArbiterBoot => "arbiter-boot",
            ArbiterName::ArbiterCrash => "arbiter-crash",
            ArbiterName::Poll => "poll",
            ArbiterName::Hear => "hear",
            ArbiterName::Reply => "reply",
        }
    }
}

/// The name that a first word is, None where it is none of these.
#[tactic(auto, unfolding(crate::specs::EventNames::arbiter_name))]
pub(crate) fn arbiter_name(word: &[u8]) -> Option<ArbiterName>
    ensures { result ≡ arbiter_name word.now }
{
    ARBITER_NAMES
        .iter()
        .copied()
        .find(|name| name.word().as_bytes() == word)
}
