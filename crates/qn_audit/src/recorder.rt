//! An outside that records its calls.
ghost use Rattle.std.specs.Prelude.{◌≡◌, true};

use crate::log_text::{LOG_LINE, put_call_line};
use arrayvec::ArrayVec;
use qn_base::{Bytes, Call, Failed, Rank, add};
use qn_io::{Env, Got, Opening, PACKET, SECTOR, Sink, put_all};

/// An outside that passes each call on to another one, and writes it with its answer to a log before the next call.
/// The answers, the faults and the calls that are told are those of the other one. The openings are not recorded.
/// After a write that failed nothing more is written.
#[derive(Drop)]
pub struct Recorder<'a, E, O> {
    env: &'a mut E,
    out: &'a mut O,
    /// Whether each write succeeded so far.
    whole: bool,
}

impl<'a, E: Env, O: Sink> Recorder<'a, E, O> {
    ghost use Rattle.std.specs.Prelude.{◌≤◌};
    ghost use Rattle.qn_audit.specs.Recording.{LogsCall, log_of};

    /// Records the calls of an outside to a sink.
    pub fn new(env: &'a mut E, out: &'a mut O) -> Recorder<'a, E, O>
        ensures same_env { result.env.ghost_name ≡ env.entry.ghost_name }
        ensures env { result.env.now ≡ env.old }
        ensures same_out { result.out.ghost_name ≡ out.entry.ghost_name }
        ensures out { result.out.now ≡ out.old }
        ensures whole { result.whole ≡ true }
    {
        Recorder {
            env,
            out,
            whole: true,
        }
    }

    /// Whether each write succeeded so far.
    pub fn is_whole(&self) -> bool
        ensures { result ≡ self.now.whole }
    {
        self.whole
    }

    /// Writes the line of a call, where no write has failed so far.
    fn log(&mut self, call: &Call)
        ensures logs { LogsCall (log_of O.written O.faults self.old)
            (log_of O.written O.faults self.new) call.now }
        ensures env { self.new.env.now ≡ self.old.env.now }
        ensures same_env { self.new.env.ghost_name ≡ self.old.env.ghost_name }
        ensures same_out { self.new.out.ghost_name ≡ self.old.out.ghost_name }
        ensures never_falls { O.faults self.old.out.now ≤ O.faults self.new.out.now }
    {
        if self.whole {
            let mut line = ArrayVec::<u8, LOG_LINE>::new();
            put_call_line(call, &mut line);
            add(&mut line, b"\n");
            self.whole = put_all(self.out, line.as_slice()).is_ok();
        }
    }
}

impl<'a, E: Env, O: Sink> Env for Recorder<'a, E, O> {
    ghost use Rattle.std.specs.Prelude.{◌∷◌, [], is_ok};
    ghost use Rattle.qn_base.specs.declared.calls.Call.TheVariants.{OpenImage};
    ghost use Rattle.qn_base.specs.Plans.{Made};
    ghost use Rattle.qn_io.specs.Openings.{node_opening};
    ghost use Rattle.qn_audit.specs.Recording.{Records, log_of};

    ghost faults = { λ r. E.faults r.env.now };

    ghost calls = { λ r. E.calls r.env.now };

    ghost shows = { Records O.written O.faults };

    fn open_image(&mut self, path: &str) -> Result<(), Failed>
        ensures made { Made (E.faults self.old.env.now) (E.faults self.new.env.now)
            (E.calls self.old.env.now) (E.calls self.new.env.now) (OpenImage path.now (is_ok result) ∷ []) }
        ensures unwritten { log_of O.written O.faults self.new
            ≡ log_of O.written O.faults self.old }
    {
        self.env.open_image(path)
    }

    fn open_node(&mut self, opening: &Opening<'_>) -> Result<(), Failed>
        ensures made { Made (E.faults self.old.env.now) (E.faults self.new.env.now)
            (E.calls self.old.env.now) (E.calls self.new.env.now) (node_opening opening.now (is_ok result) ∷ []) }
        ensures unwritten { log_of O.written O.faults self.new
            ≡ log_of O.written O.faults self.old }
    {
        self.env.open_node(opening)
    }

    fn now(&mut self) -> u64 {
        let tick = self.env.now();
        self.log(&Call::Now { tick });
        tick
    }

    fn receive(&mut self, packet: &mut [u8; PACKET]) -> Got {
        let got = self.env.receive(packet);
        self.log(&Call::Receive {
            got: got.told(packet),
        });
        got
    }

    fn read(&mut self, sector: u32, into: &mut [u8; SECTOR]) -> Result<(), Failed> {
        let done = self.env.read(sector, into);
        let bytes = match done {
            Ok(()) => Bytes::new(into),
            Err(_) => Bytes::empty(),
        };
        self.log(&Call::Read {
            sector,
            bytes,
            ok: done.is_ok(),
        });
        done
    }

    fn write(&mut self, sector: u32, from: &[u8; SECTOR]) -> Result<(), Failed> {
        let done = self.env.write(sector, from);
        self.log(&Call::Write {
            sector,
            bytes: Bytes::new(from),
            ok: done.is_ok(),
        });
        done
    }

    fn send(&mut self, to: Rank, bytes: &[u8]) -> Result<(), Failed> {
        let done = self.env.send(to, bytes);
        self.log(&Call::Send {
            to,
            bytes: Bytes::new(bytes),
            ok: done.is_ok(),
        });
        done
    }

    fn feed(&mut self) -> Result<(), Failed> {
        let done = self.env.feed();
        self.log(&Call::Feed { ok: done.is_ok() });
        done
    }

    fn start(&mut self) -> Result<(), Failed> {
        let done = self.env.start();
        self.log(&Call::Start { ok: done.is_ok() });
        done
    }

    fn stop(&mut self) -> Result<(), Failed> {
        let done = self.env.stop();
        self.log(&Call::Stop { ok: done.is_ok() });
        done
    }

    fn disarm(&mut self) -> Result<(), Failed> {
        let done = self.env.disarm();
        self.log(&Call::Disarm { ok: done.is_ok() });
        done
    }

    fn halt(&mut self, code: u8) {
        self.env.halt(code);
        self.log(&Call::Halt { code });
    }
}
