//! The lines of a node on standard error.
use qn_event::EventLine;
use qn_machine::Lines;
use qn_told::Says;
use std::time::Clock;

/// Says lines on standard error. What it says is told nowhere else.
#[derive(Drop)]
pub struct OnErrors<'a, R: Clock + Eprint> {
    rt: &'a R,
    lines: &'a Lines,
}

impl<'a, R: Clock + Eprint> OnErrors<'a, R> {
    /// By these lines.
    pub fn new(rt: &'a R, lines: &'a Lines) -> OnErrors<'a, R> {
        OnErrors { rt, lines }
    }
}

impl<'a, R: Clock + Eprint> Says for OnErrors<'a, R> {
    ghost use Rattle.std.specs.Prelude.{None};

    ghost said = { λ _. None };

    fn say(&mut self, line: &EventLine) {
        self.lines.say(self.rt, line);
    }
}
