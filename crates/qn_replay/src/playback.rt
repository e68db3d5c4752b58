//! A replay after its head, as a world that qn_playback plays, whatever world takes the events.
use crate::takes_events::TakesEvents;
use arrayvec::ArrayVec;
use qn_base::MOST_LINE_BYTES;
use qn_model::{LineFault, Refused};
use qn_playback::Plays;
use qn_sched::{ReplayEnd, TraceWriter};

/// A replay after its head: the world after the events so far, the last of them and what it came to, how many lines
/// the head had, how many events there were, and whether the trace is kept. Where it is not, no event is reported, and
/// each trace line is empty.
#[derive(Drop)]
pub(crate) struct Playback<W: TakesEvents> {
    world: W,
    event: W::Event,
    report: W::Report,
    writer: TraceWriter,
    head: u64,
    events: u64,
    traced: bool,
}

impl<W: TakesEvents> Playback<W> {
    ghost use Rattle.std.specs.Prelude.{◌≡◌, ◌<◌, ◌≤◌, ◌+◌, ◌++◌, ◌^◌, [], ◌∷◌, OnOk, OnErr, IfErr, length};
    ghost use Rattle.qn_base.specs.declared.limits.TheConstants.{MOST_EVENTS};
    ghost use Rattle.qn_playback.specs.Worlds.{IsGoing, refused_end};
    ghost use Rattle.qn_replay.specs.EventWorlds.{traced_if};
    ghost use Rattle.qn_replay.specs.Playing.{HasPlayed, Refuses, Takes, last_line, last_of, place_at};

    /// A replay whose head had so many lines, and to whose first world nothing has happened.
    pub(crate) fn new(world: W, head: u64, traced: bool) -> Playback<W>
        requires first { W.world.StandsFor world (W.world.rules world).first }
        requires steps { W.world.steps world ≡ 18446744073709551615 }
        requires time { W.world.time world ≡ 0 }
        requires few_lines { head ≤ 4294967296 }
        ensures begins { HasPlayed W.world result result [] }
        ensures world { result.world ≡ world }
        ensures head { result.head ≡ head }
        ensures traced { result.traced ≡ traced }
    {
        let (event, report) = W::blank();
        Playback {
            world,
            event,
            report,
            writer: TraceWriter::new(),
            head,
            events: 0,
            traced,
        }
    }

    /// Takes a line, without its end: its event happens, and is reported. Otherwise nothing does.
    #[inline(always)]
    fn happen(&mut self, line: &[u8]) -> Result<(), ReplayEnd>
        requires going { IsGoing (place_at W.world self.old) }
        requires few { self.old.events < MOST_EVENTS }
        ensures event { OnOk result (Takes W.world self.old self.new line.now) }
        ensures end { IfErr result (Refuses W.world self.old line.now) }
        ensures kept { OnErr result (self.new.world ≡ self.old.world) }
        ensures kept_events { OnErr result (self.new.events ≡ self.old.events) }
        ensures head { self.new.head ≡ self.old.head }
        ensures traced { self.new.traced ≡ self.old.traced }
        ensures rules { W.world.rules self.new.world ≡ W.world.rules self.old.world }
    {
        if let Err(fault) = self.world.read(line, &mut self.event) {
            return Err(self.bad_line(fault));
        }
        let applied = self.world.apply(&self.event, self.traced, &mut self.report);
        if let Err(refused) = applied {
            return Err(self.refusal(refused));
        }
        self.events += 1;
        Ok(())
    }

    /// The end at a fault of the next line.
    fn bad_line(&self, fault: LineFault) -> ReplayEnd
        requires { self.now.head + self.now.events < 2 ^ 33 }
        ensures { result ≡ ReplayEnd.BadSchedule (self.now.head + self.now.events + 1) fault }
    {
        ReplayEnd::BadSchedule {
            line: self.head + self.events + 1,
            fault,
        }
    }

    /// The end at an event of the next line that the world refused.
    fn refusal(&self, refused: Refused) -> ReplayEnd
        requires { self.now.head + self.now.events < 2 ^ 33 }
        ensures { result ≡ refused_end (self.now.head + self.now.events + 1) refused }
    {
        match refused {
            Refused::NotAllowed(rule) => ReplayEnd::NotAllowed {
                line: self.head + self.events + 1,
                rule,
            },
            Refused::NoMemory => ReplayEnd::NoMemory,
        }
    }

    /// Puts the trace line of the last event, with its end, in place of `text`. Of the playback only what the writer keeps changes.
    #[inline(always)]
    fn write(&mut self, text: &mut ArrayVec<u8, MOST_LINE_BYTES>)
        ensures line { text.new.items ≡ last_line W.world self.old ++ 10 ∷ [] }
        ensures kept { self.new ≡ record self.old { writer = self.new.writer } }
    {
        self.write_line(text);
        text.push(b'\n');
    }

    /// Puts the trace line of the last event in place of `text`, or no byte where the trace is not kept.
    #[inline(always)]
    fn write_line(&mut self, text: &mut ArrayVec<u8, MOST_LINE_BYTES>)
        ensures line { text.new.items ≡ last_line W.world self.old }
        ensures fits { length text.new.items ≤ 4000 }
        ensures kept { self.new ≡ record self.old { writer = self.new.writer } }
    {
        if self.traced {
            self.world.write(
                self.events,
                &self.event,
                &self.report,
                &mut self.writer,
                text,
            );
        } else {
            text.clear();
        }
    }

    /// The world after the last event, where the replay ended well.
    pub(crate) fn last(self, end: ReplayEnd) -> Result<W, ReplayEnd>
        ensures { result ≡ last_of self.world end }
    {
        match end {
            ReplayEnd::Done { .. } => Ok(self.world),
            end => Err(end),
        }
    }
}

impl<W: TakesEvents> Plays for Playback<W> {
    ghost use Rattle.qn_replay.specs.Playing.{HasPlayed, play_from, wants_from};

    ghost play = { λ start. play_from W.world start };

    ghost wants = { λ start. wants_from W.world start };

    ghost stands = { λ start playback earlier. HasPlayed W.world start playback earlier };

    #[inline(always)]
    fn take(
        &mut self,
        line: &[u8],
        text: &mut ArrayVec<u8, MOST_LINE_BYTES>,
    ) -> Result<(), ReplayEnd> {
        self.happen(line)?;
        self.write(text);
        Ok(())
    }
}
