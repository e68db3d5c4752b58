//! The watcher: when the mailbox is to be read, and what a read comes to.
use qn_model::{MailSeen, Message, Timing};

/// What a read of the own mailbox comes to (sbd(8), `watch`; the limit of a read is this project's
/// profile).
#[derive(Clone, Copy, PartialEq, Eq)]
pub enum Verdict {
    /// It gave Empty or Test in time: the node feeds its watchdog.
    Feed,
    /// It took this many ticks, more than the read limit: nothing is fed.
    Late { took: u64 },
    /// It failed, or the sector is no mailbox: nothing is fed.
    NotRead,
    /// It gave Reset, Off or Crashdump, however late: the node halts.
    Deadly(Message),
    /// It gave Exit in time: the node feeds its watchdog and leaves.
    Leave,
}

/// The watcher of a node's own mailbox: the times of the image, and the tick at which the mailbox was
/// last asked for. Ticks are milliseconds of the node's clock.
#[derive(Drop)]
pub struct Watch {
    times: Timing,
    asked: u64,
}

impl Watch {
    ghost use Rattle.std.specs.Prelude.{◌≡◌, ◌+◌, ◌-◌, ◌&&◌, ◌∷◌, Some, None, List, true, nat_le};
    ghost use Rattle.qn_model.specs.declared.entries.What.{What};
    ghost use Rattle.qn_model.specs.declared.outputs.DiskOp.{DiskOp};
    ghost use Rattle.qn_model.specs.Log.{Line, disk_of, now, op_out, times_of, timing};
    ghost use Rattle.qn_model.specs.NodeOutputs.{mail_feeds};
    ghost use Rattle.qn_model.specs.Phases.{deadly_of, gives_exit, in_time, message_of};
    ghost use Rattle.qn_model.specs.Wanted.{asks_mail, is_mail_due, mail_tick};
    ghost use Rattle.qn_watch.specs.Watch.{WatchFor, deadly_by, feeds_by, leaves_by, verdict_of_message, verdict_on};

    /// The watcher of a node that has read its times and has not yet asked for its mailbox.
    pub fn new(times: Timing) -> Self
        ensures { (log : List Line) → timing log ≡ times → mail_tick log ≡ 0 → WatchFor result log }
    {
        Watch { times, asked: 0 }
    }

    /// Whether the mailbox is to be read at this tick: the loop's time has passed since it was last asked
    /// for (sbd(8), loop timeout).
    pub fn due(&self, tick: u64) -> bool
        ensures at { (log : List Line)
            → WatchFor self.now log
            → result ≡ nat_le (mail_tick log + (timing log).loop_ms) tick }
        ensures defined { (log : List Line) → WatchFor self.now log → now log ≡ tick
            → result ≡ is_mail_due log }
    {
        tick >= self.asked && tick - self.asked >= self.times.loop_ms
    }

    /// The mailbox is asked for at this tick: `line` is the entry that asks.
    pub fn issued(&mut self, tick: u64)
        ensures { (log : List Line) (line : Line)
            → WatchFor self.old log
            → times_of line.what ≡ None
            → line.tick ≡ tick
            → asks_mail (disk_of line.outs) ≡ true
            → WatchFor self.new (line ∷ log) }
    {
        self.asked = tick;
    }

    /// What the answer of the read that is out comes to, when it comes at this tick. Failed and damaged
    /// reads are NotRead; a deadly message counts however late it comes; Late is exactly a read that took
    /// more than the read limit; Exit feeds too. The watcher stays as it is.
    pub fn read(&mut self, tick: u64, seen: MailSeen) -> Verdict
        ensures same { self.new ≡ self.old }
        ensures exact { (log : List Line)
            → WatchFor self.old log
            → op_out log ≡ Some DiskOp.ReadMail
            → result ≡ verdict_on tick log seen }
        ensures feeds { (log : List Line)
            → WatchFor self.old log
            → op_out log ≡ Some DiskOp.ReadMail
            → feeds_by result ≡ mail_feeds tick log (What.MailRead seen) }
        ensures deadly { deadly_by result ≡ deadly_of (message_of (What.MailRead seen)) }
        ensures leaves { (log : List Line)
            → WatchFor self.old log
            → op_out log ≡ Some DiskOp.ReadMail
            → leaves_by result ≡ gives_exit (message_of (What.MailRead seen)) && in_time tick log }
    {
        match seen {
            MailSeen::Failed | MailSeen::Damaged => Verdict::NotRead,
            MailSeen::Read(message) => self.judge(tick, message),
        }
    }

    fn judge(&self, tick: u64, message: Message) -> Verdict
        ensures { let timely = nat_le tick (self.now.asked + self.now.times.read_limit) in
            result ≡ verdict_of_message (tick - self.now.asked) timely message }
    {
        let took = tick.saturating_sub(self.asked);
        match message {
            _ if message.is_deadly() => Verdict::Deadly(message),
            _ if took > self.times.read_limit => Verdict::Late { took },
            Message::Exit => Verdict::Leave,
            _ => Verdict::Feed,
        }
    }

    /// An equal watcher: it stands for each log that this one stands for.
    pub fn copy(&self) -> Self
        ensures equal { result ≡ self.now }
        ensures stands { (log : List Line) → WatchFor self.now log → WatchFor result log }
    {
        Watch {
            times: self.times,
            asked: self.asked,
        }
    }
}
