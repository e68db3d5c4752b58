//! The commands of the program, and the words that each of them is.
ghost use Rattle.std.specs.Prelude.{◌≡◌, ◌≤◌, ◌==◌, map, option_map, string_bytes, length, IfSome, IfNone, None, Some};
ghost use Rattle.std.specs.Option.{option_copied};
ghost use Rattle.qn_model.specs.Lines.{parts};
ghost use Rattle.qn_sched.specs.Words.{parts_left};
ghost use Rattle.qn_top.specs.Words.{IsProper, all_differ, arbiter_words, are_three_paths, audit_words, command_of, command_with, create_of, form_named, form_of, id_of, image_alone, images_by, images_in, images_of, kind_named, kind_of, leave_of, message_of, mode_in, mode_of, next_time, node3_words, node_words, number_in, number_of_option, number_or, polls_of, soak_of, timing_in, timing_of};
ghost use Rattle.qn_top.specs.Options.{value_of};

use crate::command_name::{CommandName, name_of};
use crate::options::{OptionName, are_options, value_of};
use qn_arbitrating::ArbiterWords;
use qn_base::{LONGEST_PERIOD, MOST_EVENTS, NodeId, read_decimal};
use qn_commands::Path;
use qn_model::{Message, Timing};
use qn_running::{AuditWords, NodeImages, NodeWords};
use qn_sched::first_part;

/// The most turns that a node runs.
const MOST_TURNS: u64 = 1_000_000_000;

/// The most turns that an arbiter runs, and how many it runs where nothing is written.
const MOST_ARBITER_TURNS: u64 = 9_223_372_036_854_775_808;

/// The first port of a cluster of which an arbiter is, where nothing is written.
const USUAL_PORT: u64 = 7400;

/// A command of the program, with its options.
#[derive(Drop)]
pub enum Command<'words> {
    /// `count`: the votes of views, by plain majority.
    Count,
    /// `replay`: the trace of a schedule.
    Replay,
    /// `status [--form FORM]`: the status of each node after a schedule.
    Status {
        form: Form,
    },
    /// `soak SEED N`: what so many events, drawn from a seed, come to.
    Soak {
        seed: u64,
        events: u64,
    },
    /// `create --image P [--timing W,M,L,R,S]`: makes an image for the settings of the input.
    Create {
        image: Path<'words>,
        timing: Timing,
    },
    /// `dump --image P`: the header of the image.
    Dump {
        image: Path<'words>,
    },
    /// `list --image P`: a line for each node of the image.
    List {
        image: Path<'words>,
    },
    /// `message --image P --id N --kind KIND`: leaves a message to a node.
    Message {
        image: Path<'words>,
        id: NodeId,
        kind: Message,
    },
    /// `node --id N --image P --watchdog P --resource P --port Q --turns K [--leave T] [--start-mode 0 or 1]`: runs the
    /// node of that id.
    Node(NodeWords<'words>),
    /// `migrate --image P`: makes an image of version 2 of one of version 1.
    Migrate {
        image: Path<'words>,
    },
    /// `replay3`: the trace of a schedule of three images.
    Replay3,
    /// `node3`, with the options of `node` and `--image P1,P2,P3`: runs the node of that id on three images.
    Node3(NodeWords<'words>),
    /// `replay-arbiter`: the trace of a schedule beside an arbiter.
    ReplayArbiter,
    /// `node-logged`, with the options of `node`: the same, and each call with its answer as a line of a log.
    NodeLogged(NodeWords<'words>),
    /// `audit --id N --turns K [--leave T] [--start-mode 0 or 1] [--images 1 or 3] [--polls LIMIT]`: whether a log is a run of that node.
    Audit(AuditWords),
    /// `node3-logged`, with the options of `node3`: the same, and each call with its answer as a line of a log.
    Node3Logged(NodeWords<'words>),
    /// `arbiter [--port Q] [--turns K]`: answers the polls of a cluster, as its quorum device.
    Arbiter(ArbiterWords),
    /// `help`: the commands.
    Help,
}

/// The options of `node`, `node3`, `node-logged` and `node3-logged`.
const NODE_OPTIONS: [OptionName; 8] = [
    OptionName::Id,
    OptionName::Image,
    OptionName::Watchdog,
    OptionName::Resource,
    OptionName::Port,
    OptionName::Turns,
    OptionName::Leave,
    OptionName::StartMode,
];

/// The options of `audit`.
const AUDIT_OPTIONS: [OptionName; 6] = [
    OptionName::Id,
    OptionName::Turns,
    OptionName::Leave,
    OptionName::StartMode,
    OptionName::Images,
    OptionName::Polls,
];

/// The form of a status.
#[derive(Clone, Copy, PartialEq, Eq)]
pub enum Form {
    /// A line for each node.
    Text,
    /// One line of JSON (RFC 8259): an array with an object for each node.
    Json,
}

/// The command that the words are, where they are one. The words are those after the program's name.
pub fn command_of(words: &[String]) -> Option<Command<'_>>
    ensures command { result ≡ command_of (map string_bytes words.now) }
    ensures proper { IfSome result IsProper }
{
    match words {
        [word, options @ ..] => {
            let name = name_of(word.as_str().as_bytes())?;
            command_with(name, options)
        }
        [] => None,
    }
}

/// The command of this name with these options.
fn command_with(name: CommandName, options: &[String]) -> Option<Command<'_>>
    ensures command { result ≡ command_with name (map string_bytes options.now) }
    ensures proper { IfSome result IsProper }
{
    match name {
        CommandName::Count => are_options(&[], options).then_some(Command::Count),
        CommandName::Replay => are_options(&[], options).then_some(Command::Replay),
        CommandName::Status => {
            let form = form_of(options)?;
            Some(Command::Status { form })
        }
        CommandName::Soak => soak_of(options),
        CommandName::Create => create_of(options),
        CommandName::Dump => {
            let image = image_alone(options)?;
            Some(Command::Dump { image })
        }
        CommandName::List => {
            let image = image_alone(options)?;
            Some(Command::List { image })
        }
        CommandName::Message => message_of(options),
        CommandName::Node => node_of(options),
        CommandName::Migrate => {
            let image = image_alone(options)?;
            Some(Command::Migrate { image })
        }
        CommandName::Replay3 => are_options(&[], options).then_some(Command::Replay3),
        CommandName::Node3 => node3_of(options),
        CommandName::ReplayArbiter => are_options(&[], options).then_some(Command::ReplayArbiter),
        CommandName::NodeLogged => node_logged_of(options),
        CommandName::Audit => audit_of(options),
        CommandName::Node3Logged => node3_logged_of(options),
        CommandName::Arbiter => {
            let words = arbiter_words(options)?;
            Some(Command::Arbiter(words))
        }
        CommandName::Help => are_options(&[], options).then_some(Command::Help),
    }
}

/// The form, which is the only option; text where none is written.
#[tactic(auto, unfolding(crate::specs::Words::form_of))]
fn form_of(options: &[String]) -> Option<Form>
    ensures { result ≡ form_of (map string_bytes options.now) }
{
    if !are_options(&[OptionName::Form], options) {
        return None;
    }
    match value_of(options, OptionName::Form) {
        None => Some(Form::Text),
        Some(word) => form_named(word.as_str()),
    }
}

/// The form of this name.
fn form_named(word: &str) -> Option<Form>
    ensures { result ≡ form_named word.now }
{
    if word == "text" {
        Some(Form::Text)
    } else if word == "json" {
        Some(Form::Json)
    } else {
        None
    }
}

/// `soak` with these words: any seed, and 1 to `MOST_EVENTS` events.
#[tactic(auto, unfolding(crate::specs::Words::soak_of))]
fn soak_of(words: &[String]) -> Option<Command<'_>>
    ensures command { result ≡ soak_of (map string_bytes words.now) }
    ensures proper { IfSome result IsProper }
{
    match words {
        [seed, events] => {
            let seed = read_decimal(seed.as_str().as_bytes())?;
            let events = number_in(1, MOST_EVENTS, events.as_str().as_bytes())?;
            Some(Command::Soak { seed, events })
        }
        _ => None,
    }
}

/// `create` with these options.
#[tactic(auto, unfolding(crate::specs::Words::create_of))]
fn create_of(options: &[String]) -> Option<Command<'_>>
    ensures command { result ≡ create_of (map string_bytes options.now) }
    ensures proper { IfSome result IsProper }
{
    if !are_options(&[OptionName::Image, OptionName::Timing], options) {
        return None;
    }
    let image = value_of(options, OptionName::Image)?;
    let timing = timing_of(options)?;
    Some(Command::Create { image, timing })
}

/// `message` with these options.
#[tactic(auto, unfolding(crate::specs::Words::message_of))]
fn message_of(options: &[String]) -> Option<Command<'_>>
    ensures command { result ≡ message_of (map string_bytes options.now) }
    ensures proper { IfSome result IsProper }
{
    if !are_options(
        &[OptionName::Image, OptionName::Id, OptionName::Kind],
        options,
    ) {
        return None;
    }
    let image = value_of(options, OptionName::Image)?;
    let id = id_of(options)?;
    let kind = kind_of(options)?;
    Some(Command::Message { image, id, kind })
}

/// The path of an image, which is the only option.
#[tactic(auto, unfolding(crate::specs::Words::image_alone))]
fn image_alone(options: &[String]) -> Option<Path<'_>>
    ensures { result ≡ image_alone (map string_bytes options.now) }
{
    if !are_options(&[OptionName::Image], options) {
        return None;
    }
    value_of(options, OptionName::Image)
}

/// The times among the options, or the usual ones.
#[tactic(auto, unfolding(crate::specs::Words::timing_of))]
fn timing_of(options: &[String]) -> Option<Timing>
    ensures { result ≡ timing_of (map string_bytes options.now) }
{
    match value_of(options, OptionName::Timing) {
        None => Some(Timing::usual()),
        Some(times) => timing_in(times.as_str().as_bytes()),
    }
}

/// The id among the options.
#[tactic(auto, unfolding(crate::specs::Words::id_of))]
fn id_of(options: &[String]) -> Option<NodeId>
    ensures { result ≡ id_of (map string_bytes options.now) }
{
    let id = number_of_option(options, OptionName::Id, 1, 4_294_967_295)?;
    Some(NodeId(id as u32))
}

/// The number of an option, in a range.
#[tactic(auto, unfolding(crate::specs::Words::number_of_option))]
fn number_of_option(options: &[String], name: OptionName, least: u64, greatest: u64) -> Option<u64>
    ensures value { result ≡ number_of_option name least greatest (map string_bytes options.now) }
    ensures within { IfSome result (λ number. (least ≤ number) × (number ≤ greatest)) }
{
    let word = value_of(options, name)?;
    number_in(least, greatest, word.as_str().as_bytes())
}

/// `node` with these options.
fn node_of(options: &[String]) -> Option<Command<'_>>
    ensures command { result ≡ option_map Command.Node (node_words (map string_bytes options.now)) }
    ensures proper { IfSome result IsProper }
{
    let words = node_words(options)?;
    Some(Command::Node(words))
}

/// `node3` with these options.
fn node3_of(options: &[String]) -> Option<Command<'_>>
    ensures command { result
        ≡ option_map Command.Node3 (node3_words (map string_bytes options.now)) }
    ensures proper { IfSome result IsProper }
{
    let words = node3_words(options)?;
    Some(Command::Node3(words))
}

/// `node-logged` with these options.
fn node_logged_of(options: &[String]) -> Option<Command<'_>>
    ensures command { result
        ≡ option_map Command.NodeLogged (node_words (map string_bytes options.now)) }
    ensures proper { IfSome result IsProper }
{
    let words = node_words(options)?;
    Some(Command::NodeLogged(words))
}

/// `node3-logged` with these options.
fn node3_logged_of(options: &[String]) -> Option<Command<'_>>
    ensures command { result
        ≡ option_map Command.Node3Logged (node3_words (map string_bytes options.now)) }
    ensures proper { IfSome result IsProper }
{
    let words = node3_words(options)?;
    Some(Command::Node3Logged(words))
}

/// `audit` with these options.
fn audit_of(options: &[String]) -> Option<Command<'_>>
    ensures command { result
        ≡ option_map Command.Audit (audit_words (map string_bytes options.now)) }
    ensures proper { IfSome result IsProper }
{
    let words = audit_words(options)?;
    Some(Command::Audit(words))
}

/// What the options of `node` or `node-logged` say.
#[tactic(auto, unfolding(crate::specs::Words::node_words))]
fn node_words(options: &[String]) -> Option<NodeWords<'_>>
    ensures words { result ≡ node_words (map string_bytes options.now) }
    ensures proper { IfSome result (λ words. 1 ≤ words.turns) }
{
    if !are_options(&NODE_OPTIONS, options) {
        return None;
    }
    let id = id_of(options)?;
    let image = value_of(options, OptionName::Image)?;
    let watchdog = value_of(options, OptionName::Watchdog)?;
    let resource = value_of(options, OptionName::Resource)?;
    let port = number_of_option(options, OptionName::Port, 1024, 65000)?;
    let turns = number_of_option(options, OptionName::Turns, 1, MOST_TURNS)?;
    let leave = leave_of(options)?;
    let clean = mode_of(options)?;
    Some(NodeWords {
        id,
        image,
        watchdog,
        resource,
        port: port as u16,
        turns,
        leave,
        clean,
    })
}

/// What the options of `node3` or `node3-logged` say: the paths of three images, of which no two are the same.
#[tactic(auto, unfolding(crate::specs::Words::node3_words))]
fn node3_words(options: &[String]) -> Option<NodeWords<'_>>
    ensures words { result ≡ node3_words (map string_bytes options.now) }
    ensures proper { IfSome result (λ words. 1 ≤ words.turns) }
{
    let words = node_words(options)?;
    if !are_three_paths(words.image.as_str().as_bytes()) {
        return None;
    }
    Some(words)
}

/// Whether a text is three paths, separated by commas, of which no two are the same.
fn are_three_paths(text: &[u8]) -> bool
    ensures { result ≡ are_three_paths (parts 44 text.now) }
{
    let (first, rest) = first_part(text, b',');
    let Some(rest) = rest else {
        return false;
    };
    let (second, rest) = first_part(rest, b',');
    let Some(rest) = rest else {
        return false;
    };
    let (third, rest) = first_part(rest, b',');
    is_over(rest) && all_differ(first, second, third)
}

fn all_differ(first: &[u8], second: &[u8], third: &[u8]) -> bool
    ensures { result ≡ all_differ first.now second.now third.now }
{
    first != second && first != third && second != third
}

/// What the options of `audit` say.
#[tactic(auto, unfolding(crate::specs::Words::audit_words))]
fn audit_words(options: &[String]) -> Option<AuditWords>
    ensures words { result ≡ audit_words (map string_bytes options.now) }
    ensures proper { IfSome result (λ words. 1 ≤ words.turns) }
{
    if !are_options(&AUDIT_OPTIONS, options) {
        return None;
    }
    let id = id_of(options)?;
    let turns = number_of_option(options, OptionName::Turns, 1, MOST_TURNS)?;
    let leave = leave_of(options)?;
    let clean = mode_of(options)?;
    let images = images_of(options)?;
    let polls = polls_of(options)?;
    Some(AuditWords {
        images,
        id,
        turns,
        leave,
        polls,
        clean,
    })
}

/// What the options of `arbiter` say.
#[tactic(auto, unfolding(crate::specs::Words::arbiter_words))]
fn arbiter_words(options: &[String]) -> Option<ArbiterWords>
    ensures { result ≡ arbiter_words (map string_bytes options.now) }
{
    if !are_options(&[OptionName::Port, OptionName::Turns], options) {
        return None;
    }
    let port = number_or(options, OptionName::Port, 1024, 65000, USUAL_PORT)?;
    let turns = number_or(
        options,
        OptionName::Turns,
        1,
        MOST_ARBITER_TURNS,
        MOST_ARBITER_TURNS,
    )?;
    Some(ArbiterWords {
        port: port as u16,
        turns,
    })
}

/// The number of an option, in a range; another one where none is written, which is in that range too.
#[tactic(auto, unfolding(crate::specs::Words::number_or))]
fn number_or(
    options: &[String],
    name: OptionName,
    least: u64,
    greatest: u64,
    usual: u64,
) -> Option<u64>
    requires above { least ≤ usual }
    requires below { usual ≤ greatest }
    ensures value { result
        ≡ number_or name least greatest usual (map string_bytes options.now) }
    ensures within { IfSome result (λ number. (least ≤ number) × (number ≤ greatest)) }
{
    match value_of(options, name) {
        None => Some(usual),
        Some(word) => number_in(least, greatest, word.as_str().as_bytes()),
    }
}

/// The number of the turn from which on a node is to leave, where one is written.
#[tactic(auto, unfolding(crate::specs::Words::leave_of))]
fn leave_of(options: &[String]) -> Option<Option<u64>>
    ensures { result ≡ leave_of (map string_bytes options.now) }
{
    match value_of(options, OptionName::Leave) {
        None => Some(None),
        Some(word) => {
            let turn = number_in(1, MOST_TURNS, word.as_str().as_bytes())?;
            Some(Some(turn))
        }
    }
}

/// The limit within which a node took a reply of its arbiter, in milliseconds, where one is written.
#[tactic(auto, unfolding(crate::specs::Words::polls_of))]
fn polls_of(options: &[String]) -> Option<Option<u64>>
    ensures { result ≡ polls_of (map string_bytes options.now) }
{
    match value_of(options, OptionName::Polls) {
        None => Some(None),
        Some(word) => {
            let limit = number_in(1, LONGEST_PERIOD, word.as_str().as_bytes())?;
            Some(Some(limit))
        }
    }
}

/// Whether the start is a clean one, which is start mode 1; mode 0 where none is written.
#[tactic(auto, unfolding(crate::specs::Words::mode_of))]
fn mode_of(options: &[String]) -> Option<bool>
    ensures { result ≡ mode_of (map string_bytes options.now) }
{
    match value_of(options, OptionName::StartMode) {
        None => Some(false),
        Some(word) => {
            let mode = number_in(0, 1, word.as_str().as_bytes())?;
            Some(mode == 1)
        }
    }
}

/// On which images a node ran: one or three; one where nothing is written.
#[tactic(auto, unfolding(crate::specs::Words::images_of))]
fn images_of(options: &[String]) -> Option<NodeImages>
    ensures { result ≡ images_of (map string_bytes options.now) }
{
    match value_of(options, OptionName::Images) {
        None => Some(NodeImages::One),
        Some(word) => {
            let count = number_in(1, 3, word.as_str().as_bytes())?;
            images_by(count)
        }
    }
}

/// So many images, of which a node has one or three.
fn images_by(count: u64) -> Option<NodeImages>
    ensures { result ≡ images_by count }
{
    if count == 1 {
        Some(NodeImages::One)
    } else if count == 3 {
        Some(NodeImages::Three)
    } else {
        None
    }
}

/// The message among the options.
#[tactic(auto, unfolding(crate::specs::Words::kind_of))]
fn kind_of(options: &[String]) -> Option<Message>
    ensures { result ≡ kind_of (map string_bytes options.now) }
{
    let word = value_of(options, OptionName::Kind)?;
    kind_named(word.as_str())
}

/// The message that an operator sends by this word.
fn kind_named(word: &str) -> Option<Message>
    ensures { result ≡ kind_named word.now }
{
    Message::from_operator_word(word)
}

/// Five times, separated by commas.
#[tactic(auto, unfolding(crate::specs::Words::timing_in))]
fn timing_in(text: &[u8]) -> Option<Timing>
    ensures { result ≡ timing_in text.now }
{
    let (watchdog, rest) = next_time(Some(text))?;
    let (msgwait, rest) = next_time(rest)?;
    let (loop_ms, rest) = next_time(rest)?;
    let (read_limit, rest) = next_time(rest)?;
    let (feed_delay, rest) = next_time(rest)?;
    if !is_over(rest) {
        return None;
    }
    Some(Timing {
        watchdog,
        msgwait,
        loop_ms,
        read_limit,
        feed_delay,
    })
}

/// The next of the times that are left, from 1 to `LONGEST_PERIOD` milliseconds, and what is left after it.
fn next_time(rest: Option<&[u8]>) -> Option<(u64, Option<&[u8]>)>
    ensures some { IfSome result
        (λ next. next_time (parts_left 44 (option_copied rest.entry))
        ≡ Some (next.0, parts_left 44 (option_copied next.1))) }
    ensures none { IfNone result (next_time (parts_left 44 (option_copied rest.entry)) ≡ None) }
{
    let (part, rest) = first_part(rest?, b',');
    let time = number_in(1, LONGEST_PERIOD, part)?;
    Some((time, rest))
}

/// Whether no part is left.
fn is_over(rest: Option<&[u8]>) -> bool
    ensures { result ≡ (length (parts_left 44 (option_copied rest.entry)) == 0) }
{
    match rest {
        None => true,
        Some(_) => false,
    }
}

/// A decimal number in a range; leading zeros are good.
#[tactic(auto, unfolding(crate::specs::Words::number_in))]
fn number_in(least: u64, greatest: u64, word: &[u8]) -> Option<u64>
    ensures value { result ≡ number_in least greatest word.now }
    ensures within { IfSome result (λ number. (least ≤ number) × (number ≤ greatest)) }
{
    let number = read_decimal(word)?;
    if number < least || number > greatest {
        return None;
    }
    Some(number)
}
