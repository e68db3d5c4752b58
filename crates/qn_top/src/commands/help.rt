//! `help`: the commands.
ghost use Rattle.qn_commands.specs.Seen.{Input, Outside, seen, sink};
ghost use Rattle.qn_commands.specs.Statuses.{code_of};
ghost use Rattle.qn_top.specs.Commands.Help.{Helps};

use qn_base::ShortText;
use qn_commands::{Status, say};
use qn_io::Sink;

/// `help`: the commands. No memory is taken.
pub(crate) fn help<O: Sink>(out: &mut O) -> Status
    ensures { (input : Input) (env : Outside) →
        let before = seen input (sink O.written O.faults out.old) env in
        let after = seen input (sink O.written O.faults out.new) env in
        Helps before after (code_of result) }
{
    let mut text = ShortText::new();
    text.add(
        b"commands count replay status soak create dump list message node migrate replay3 node3 replay-arbiter node-logged audit node3-logged arbiter help\n",
    );
    say(out, &text)
}
