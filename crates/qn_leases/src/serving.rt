//! Runs an arbiter over an outside.
ghost use Rattle.std.specs.Prelude.{◌≡◌, ◌<◌, ℕ, IfSome, IfOk, IfErr, length};
ghost use Rattle.qn_base.specs.Plans.{Did};
ghost use Rattle.qn_io.specs.Receives.{FitsPacket, received};
ghost use Rattle.qn_safety.specs.Arbiter.{Memory, gives_yes, with_poll};
ghost use Rattle.qn_polls.specs.Arbiter.{ArbiterFor};
ghost use Rattle.qn_leases.specs.Serving.{Serving, Next, Over, answer_plan, arbiter_plan, look_plan, poll_in, receive_plan, reply_at, turn_plan};

use crate::arbiter_end::ArbiterEnd;
use crate::notices::ArbiterNotices;
use arrayvec::ArrayVec;
use qn_io::{Env, Got, PACKET};
use qn_polls::{Arbiter, get_poll, put_reply};
use qn_safety::{Poll, Reply};

/// Runs an arbiter of that lease in milliseconds for that many turns at most, once its port is open: of an earlier arbiter of the cluster
/// nothing may be answered any more. `notices` is told of the run.
pub fn run_arbiter<E: Env, N: ArbiterNotices>(
    env: &mut E,
    notices: &mut N,
    lease: u64,
    turns: u64,
) -> ArbiterEnd
    ensures did { (memory : Memory)
        × Did (E.faults env.old) (E.faults env.new) (E.calls env.old) (E.calls env.new)
        (arbiter_plan lease turns) (record { end = result; memory = memory }) }
{
    let mut tick = look(env);
    notices.booted(tick);
    let mut arbiter = Arbiter::new(lease, tick);
    let mut left = turns;
    'turns: while left > 0 {
        match turn(env, notices, &mut arbiter, tick) {
            Ok(now) => tick = now,
            Err(end) => return end,
        }
        left -= 1;
    }
    ArbiterEnd::Turns
}

/// One turn: the tick of the last look after it, or how it ended the run.
fn turn<E: Env, N: ArbiterNotices>(
    env: &mut E,
    notices: &mut N,
    arbiter: &mut Arbiter,
    last: u64,
) -> Result<u64, ArbiterEnd>
    ensures next { IfOk result (λ tick. (memory : Memory)
        → ArbiterFor arbiter.old memory
        → (memory' : Memory)
        × ArbiterFor arbiter.new memory'
        × Did (E.faults env.old) (E.faults env.new) (E.calls env.old) (E.calls env.new)
        (turn_plan (record { memory = memory; tick = last }))
        (Next (record { memory = memory'; tick = tick }))) }
    ensures over { IfErr result (λ end. (memory : Memory)
        → ArbiterFor arbiter.old memory
        → Did (E.faults env.old) (E.faults env.new) (E.calls env.old) (E.calls env.new)
        (turn_plan (record { memory = memory; tick = last })) (Over end)) }
{
    let Some(poll) = receive(env) else {
        notices.waited();
        return Ok(last);
    };
    let tick = look(env);
    if tick < last {
        return Err(ArbiterEnd::ClockBack {
            before: last,
            now: tick,
        });
    }
    let agrees = answer(env, arbiter, tick, &poll);
    notices.answered(tick, &poll, agrees);
    Ok(tick)
}

/// The time.
fn look<E: Env>(env: &mut E) -> u64
    ensures { Did (E.faults env.old) (E.faults env.new) (E.calls env.old) (E.calls env.new)
        look_plan result }
{
    env.now()
}

/// The poll that came, where one did.
fn receive<E: Env>(env: &mut E) -> Option<Poll>
    ensures did { Did (E.faults env.old) (E.faults env.new) (E.calls env.old) (E.calls env.new)
        receive_plan result }
    ensures rank { IfSome result (λ poll. poll.from.0 < 32) }
{
    let mut packet = [0; PACKET];
    let got = env.receive(&mut packet);
    read(got, &packet)
}

fn read(got: Got, packet: &[u8; PACKET]) -> Option<Poll>
    requires { FitsPacket got }
    ensures value { result ≡ poll_in (received got packet.now) }
    ensures rank { IfSome result (λ poll. poll.from.0 < 32) }
{
    match got {
        Got::Packet(length) => get_poll(&packet[..length]),
        Got::Nothing | Got::Failed => None,
    }
}

/// Hears a poll at this tick, and sends the answer, which it gives.
fn answer<E: Env>(env: &mut E, arbiter: &mut Arbiter, tick: u64, poll: &Poll) -> bool
    requires { poll.now.from.0 < 32 }
    ensures says { (memory : Memory)
        → ArbiterFor arbiter.old memory
        → result ≡ gives_yes memory tick poll.now }
    ensures sends { (memory : Memory)
        → ArbiterFor arbiter.old memory
        → ArbiterFor arbiter.new (with_poll tick poll.now memory)
        × Did (E.faults env.old) (E.faults env.new) (E.calls env.old) (E.calls env.new)
        (answer_plan tick poll.now memory) (with_poll tick poll.now memory) }
{
    let agrees = arbiter.poll(tick, poll);
    let mut bytes = ArrayVec::new();
    put_reply(&reply_to(poll, agrees), &mut bytes);
    let _ = env.send(poll.from, bytes.as_slice());
    agrees
}

/// The reply to a poll with that answer.
fn reply_to(poll: &Poll, agrees: bool) -> Reply
    ensures { (memory : Memory) (tick : ℕ)
        → agrees ≡ gives_yes memory tick poll.now
        → result ≡ reply_at tick poll.now memory }
{
    Reply {
        to: poll.from,
        number: poll.number,
        incarnation: poll.incarnation,
        install: poll.install,
        agrees,
    }
}
