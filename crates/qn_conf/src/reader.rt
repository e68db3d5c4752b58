//! Reads a settings text line by line into its tree, or names its first fault.
ghost use Rattle.std.specs.Prelude.{◌≡◌, ℕ, ◌+◌, ◌<◌, ◌≤◌, ◌==◌, ◌^◌, [], ◌++◌, ◌∷◌, ◌↔◌, if◌then◌else◌, Ok, Err, None, Some, List, OnOk, IfErr, IfOk, length};
ghost use Rattle.std.specs.Option.{option_map_or};
ghost use Rattle.qn_conf.specs.Line.{meaning_of, item_in};
ghost use Rattle.qn_conf.specs.Conf.{Conf, IsFirstFault, UnlessNoMemory, conf_of, fault_in, fault_of, first_fault, lines, tree_of};
ghost use Rattle.qn_conf.specs.Nesting.{depth_after, depth_after_all};
ghost use Rattle.qn_conf.specs.declared.faults.ConfFault.TheVariants.{Unclosed};
ghost use Rattle.qn_conf.specs.declared.faults.ConfFault.{ConfFault};
ghost use Rattle.qn_conf.specs.declared.tree.Item.{Item};

use crate::faults::ConfFault;
use crate::line::{Meaning, read_line};
use crate::tree::{Item, Tree};
use std::alloc::Global;
use std::str::from_utf8;

/// The most bytes of a settings text (this project's profile).
pub const MOST_TEXT_BYTES: usize = 1_048_576;

/// The most sections that stand inside one another.
const MAX_DEPTH: usize = 4;

/// Reads a settings text of at most 1,048,576 bytes: its tree, or its first fault. The order of the faults is
/// TooLong, NotText, the first line that is BadLine, ExtraClose or TooDeep, and last Unclosed. NoMemory comes
/// only where it ran out of memory.
pub fn read_tree(alloc: Global, text: &[u8]) -> Result<Tree<'_>, ConfFault>
    ensures tree { UnlessNoMemory result
        ((tree : List Item) → (result ≡ Ok tree) ↔ Conf text.now tree) }
    ensures fault { UnlessNoMemory result
        ((fault : ConfFault) → (result ≡ Err fault) ↔ IsFirstFault text.now fault) }
    ensures answer { UnlessNoMemory result (result ≡ conf_of text.now) }
{
    if text.len() > MOST_TEXT_BYTES {
        return Err(ConfFault::TooLong);
    }
    if from_utf8(text).is_err() {
        return Err(ConfFault::NotText);
    }
    read_lines(alloc, text)
}

/// Reads the lines of a short text.
fn read_lines(alloc: Global, text: &[u8]) -> Result<Tree<'_>, ConfFault>
    requires { length text.now ≤ 1048576 }
    ensures { UnlessNoMemory result
        (result ≡ option_map_or Err (first_fault [] (lines text.now)) (tree_of (lines text.now))) }
{
    let mut reader = Reader::new(alloc);
    for line in text.split(|byte| *byte == b'\n') {
        reader.read(line)?;
    }
    reader.finish()
}

/// What was read so far: the items, how many sections stand open, and how many lines were read.
#[derive(Drop)]
struct Reader<'text> {
    items: Vec<Item<'text>>,
    depth: usize,
    lines: u64,
    ghost shallow: { depth ≤ 4 },
}

impl<'text> Reader<'text> {
    fn new(alloc: Global) -> Self
        ensures items { result.items.items ≡ [] }
        ensures depth { result.depth ≡ 0 }
        ensures lines { result.lines ≡ 0 }
    {
        Reader {
            items: Vec::new(alloc),
            depth: 0,
            lines: 0,
        }
    }

    /// Reads the next line.
    fn read(&mut self, line: &'text [u8]) -> Result<(), ConfFault>
        requires { self.old.lines < 2 ^ 32 }
        ensures good { OnOk result
            (fault_in (self.old.lines + 1) self.old.depth (meaning_of line.now) ≡ None) }
        ensures lines { OnOk result (self.new.lines ≡ self.old.lines + 1) }
        ensures depth { OnOk result
            (self.new.depth ≡ depth_after_all self.old.depth (item_in (meaning_of line.now))) }
        ensures items { OnOk result
            (self.new.items.items ≡ self.old.items.items ++ item_in (meaning_of line.now)) }
        ensures fault { UnlessNoMemory result
            (IfErr result
            (λ fault. fault_in (self.old.lines + 1) self.old.depth (meaning_of line.now)
            ≡ Some fault)) }
    {
        self.lines += 1;
        match read_line(line) {
            Meaning::PassedOver => Ok(()),
            Meaning::Says(item) => self.add(item),
            Meaning::Bad => Err(ConfFault::BadLine { line: self.lines }),
        }
    }

    /// Adds an item, which the line read last says.
    fn add(&mut self, item: Item<'text>) -> Result<(), ConfFault>
        ensures good { OnOk result (fault_of self.old.lines self.old.depth item.entry ≡ None) }
        ensures lines { OnOk result (self.new.lines ≡ self.old.lines) }
        ensures depth { OnOk result (self.new.depth ≡ depth_after self.old.depth item.entry) }
        ensures items { OnOk result
            (self.new.items.items ≡ self.old.items.items ++ item.entry ∷ []) }
        ensures fault { UnlessNoMemory result
            (IfErr result
            (λ fault. fault_of self.old.lines self.old.depth item.entry ≡ Some fault)) }
    {
        self.depth = self.depth_after(&item)?;
        self.items.push(item)?;
        Ok(())
    }

    /// How many sections stand open after the item.
    fn depth_after(&self, item: &Item<'text>) -> Result<usize, ConfFault>
        ensures good { IfOk result
            (λ depth. (fault_of self.now.lines self.now.depth item.now ≡ None)
            × (depth ≡ depth_after self.now.depth item.now)) }
        ensures shallow { IfOk result (λ depth. depth ≤ 4) }
        ensures fault { IfErr result
            (λ fault. fault_of self.now.lines self.now.depth item.now ≡ Some fault) }
    {
        let line = self.lines;
        match item {
            Item::Enter(_) if self.depth == MAX_DEPTH => Err(ConfFault::TooDeep { line }),
            Item::Enter(_) => Ok(self.depth + 1),
            Item::Exit if self.depth == 0 => Err(ConfFault::ExtraClose { line }),
            Item::Exit => Ok(self.depth - 1),
            Item::Pair(_, _) => Ok(self.depth),
        }
    }

    /// The tree, where every section is ended.
    fn finish(self) -> Result<Tree<'text>, ConfFault>
        ensures { result
            ≡ (if self.entry.depth == 0 then Ok self.entry.items.items else Err Unclosed) }
    {
        if self.depth > 0 {
            return Err(ConfFault::Unclosed);
        }
        Ok(Tree::new(self.items))
    }
}
