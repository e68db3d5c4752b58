//! Who is told the lines of a node.
use qn_event::EventLine;

/// An object that is told the lines of a node.
pub trait Says {
    ghost use Rattle.std.specs.Prelude.{◌≡◌, List, Option};
    ghost use Rattle.qn_event.specs.EventTexts.{EventText};
    ghost use Rattle.qn_told.specs.Names.{said_more};

    /// The lines so far, of an object that tells them.
    ghost said: { Self → Option (List EventText) };

    /// Says a line.
    fn say(&mut self, line: &EventLine)
        ensures { said self.new ≡ said_more (said self.old) line.now };
}
