//! What a history says of the node itself: boot, phase, times, resource and operations.
use crate::entries::{is_clean_begin, is_stopped, number_read, times_of};
use crate::operations::{asks_mail, claim_of};
use crate::phases::{is_up, next_phase};
use crate::spans::{has_passed, is_within};
use qn_model::{DiskOp, Outs, Phase, Settings, Timing, What};

/// How the last Stop of the resource stands.
#[derive(Clone, Copy)]
pub enum Stopping {
    /// None came since the resource was started.
    NotAsked,
    /// It is unanswered.
    Asked,
    /// It was answered at this tick.
    Answered(u64),
}

/// What a history says of the node itself.
#[derive(Clone, Copy)]
pub struct Life {
    pub phase: Phase,
    /// Whether the boot began as a clean start.
    pub clean: bool,
    /// The incarnation that the last read of a slot gave, 0 where none gave one.
    pub slot_number: u64,
    /// The incarnation that was claimed.
    pub claimed: Option<u64>,
    pub holds: bool,
    /// Whether a Stop is unanswered.
    pub stop_due: bool,
    pub stopping: Stopping,
    /// The disk operation that is out.
    pub op: Option<DiskOp>,
    /// Where the last disk operation was asked for, 0 where none was, and at which tick.
    pub ask_place: usize,
    pub ask_tick: u64,
    pub timing: Timing,
    /// The tick at which the own mailbox was last asked for.
    pub mail_tick: u64,
    /// The tick of the last asking moment.
    pub moment: Option<u64>,
    /// Whether the newest entry is an asking moment.
    pub asks: bool,
}

const NO_TIMES: Timing = Timing {
    watchdog: 0,
    msgwait: 0,
    loop_ms: 0,
    read_limit: 0,
    feed_delay: 0,
};

impl Life {
    ghost use Rattle.std.specs.Prelude.{◌≡◌, []};
    ghost use Rattle.qn_model.specs.NodeOutputs.{is_moment};
    ghost use Rattle.qn_plain.specs.Life.{is_timely, life_given, life_of, life_taken, stopping_given, stops_again};

    /// What no entries say.
    #[tactic(auto, unfolding(qn_model::specs::Log::begins_clean, qn_model::specs::Log::slot_number, qn_model::specs::Log::claimed, qn_model::specs::Log::op_out, qn_model::specs::Log::ask_place, qn_model::specs::Log::ask_tick, qn_model::specs::Log::timing, qn_model::specs::Phases::phase, qn_model::specs::Holding::holds, qn_model::specs::Holding::stop_due, qn_model::specs::Wanted::mail_tick, qn_model::specs::NodeOutputs::moment, crate::specs::Life::stopping))]
    pub fn new(settings: &Settings) -> Self
        ensures { result ≡ life_of settings.now [] }
    {
        Life {
            phase: Phase::Booting,
            clean: false,
            slot_number: 0,
            claimed: None,
            holds: false,
            stop_due: false,
            stopping: Stopping::NotAsked,
            op: None,
            ask_place: 0,
            ask_tick: 0,
            timing: NO_TIMES,
            mail_tick: 0,
            moment: None,
            asks: false,
        }
    }

    /// The life with an entry as it was read, before its outputs.
    pub fn taken(self, settings: &Settings, tick: u64, what: What) -> Self
        ensures { result ≡ life_taken settings.now tick what self }
    {
        let phase = next_phase(settings, what, self.is_timely(tick), self.phase);
        let asks = is_up(phase) && self.is_moment(tick, what);
        Life {
            phase,
            clean: is_clean_begin(what) || self.clean,
            slot_number: number_read(what).unwrap_or(self.slot_number),
            holds: self.holds && !is_stopped(what),
            stop_due: self.stop_due && !what.answers_stop(),
            stopping: if what.answers_stop() {
                Stopping::Answered(tick)
            } else {
                self.stopping
            },
            op: if what.is_answer() { None } else { self.op },
            timing: times_of(what).unwrap_or(self.timing),
            moment: if asks { Some(tick) } else { self.moment },
            asks,
            ..self
        }
    }

    /// The life with the outputs of the newest entry.
    pub fn given(self, place: usize, tick: u64, outs: &Outs) -> Self
        ensures { result ≡ life_given place tick outs.now self }
    {
        let op = outs.disk();
        Life {
            claimed: claim_of(op).or(self.claimed),
            holds: outs.has_start() || self.holds,
            stop_due: outs.has_stop() || self.stop_due,
            stopping: self.stopping_after(outs),
            op: op.or(self.op),
            ask_place: if op.is_some() { place } else { self.ask_place },
            ask_tick: if op.is_some() { tick } else { self.ask_tick },
            mail_tick: if asks_mail(op) { tick } else { self.mail_tick },
            ..self
        }
    }

    fn stopping_after(&self, outs: &Outs) -> Stopping
        ensures { result ≡ stopping_given outs.now self.now.stopping }
    {
        if outs.has_start() {
            Stopping::NotAsked
        } else if outs.has_stop() {
            Stopping::Asked
        } else {
            self.stopping
        }
    }

    /// Whether an entry is an asking moment where the node is up.
    fn is_moment(&self, tick: u64, what: What) -> bool
        ensures { result ≡ is_moment self.now.timing.loop_ms tick what self.now.moment }
    {
        let is_due = match self.moment {
            Some(moment) => has_passed(moment, self.timing.loop_ms, tick),
            None => false,
        };
        what.is_view() || is_due
    }

    /// Whether an answer at this tick comes in time: at most the read limit after it was asked for.
    pub fn is_timely(&self, tick: u64) -> bool
        ensures { result ≡ is_timely tick self.now }
    {
        is_within(self.ask_tick, self.timing.read_limit, tick)
    }

    /// Whether a Stop may be given at this tick.
    pub fn may_stop(&self, tick: u64) -> bool
        ensures { result ≡ stops_again self.now.stopping self.now.timing.loop_ms tick }
    {
        match self.stopping {
            Stopping::NotAsked => true,
            Stopping::Asked => false,
            Stopping::Answered(at) => has_passed(at, self.timing.loop_ms, tick),
        }
    }
}
