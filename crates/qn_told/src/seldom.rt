//! What is told at most once in ten seconds, with how often it was.
ghost use Rattle.std.specs.Prelude.{◌≡◌};
ghost use Rattle.qn_told.specs.Seldoms.{is_early};

/// How long nothing more is told, in milliseconds.
const BETWEEN: u64 = 10_000;

/// Something that happens often.
#[derive(Clone, Copy, Default)]
pub struct Seldom {
    untold: u64,
    all: u64,
    told: Option<u64>,
}

impl Seldom {
    ghost use Rattle.std.specs.Prelude.{◌≡◌, ◌+◌};
    ghost use Rattle.std.specs.Option.{unwrap_or};
    ghost use Rattle.qn_told.specs.Seldoms.{after_due, counted, due_count};

    /// It happened once more.
    pub fn count(&mut self)
        ensures { self.new ≡ counted self.old }
    {
        self.untold = self.untold.saturating_add(1);
        self.all = self.all.saturating_add(1);
    }

    /// How often it happened.
    pub fn all(&self) -> u64
        ensures { result ≡ self.now.all }
    {
        self.all
    }

    /// How often it happened since it was told last, where it is to be told at that tick.
    pub fn due(&mut self, tick: u64) -> Option<u64>
        ensures count { result ≡ due_count self.old tick }
        ensures after { self.new ≡ after_due self.old tick }
        ensures kept { self.new.untold + unwrap_or result 0 ≡ self.old.untold }
    {
        if self.untold == 0 || is_early(self.told, tick) {
            return None;
        }
        let untold = self.untold;
        self.untold = 0;
        self.told = Some(tick);
        Some(untold)
    }
}

/// Whether it was told less than ten seconds before that tick.
fn is_early(told: Option<u64>, tick: u64) -> bool
    ensures { result ≡ is_early told tick }
{
    match told {
        Some(told) => tick < told.saturating_add(BETWEEN),
        None => false,
    }
}
