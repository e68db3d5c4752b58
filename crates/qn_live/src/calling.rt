//! Makes the call that a running node asks for.
ghost use Rattle.std.specs.Prelude.{◌≡◌, [], ◌∷◌, length};
ghost use Rattle.hex.specs.Hex.{IsBytes};
ghost use Rattle.qn_base.specs.Plans.{Made};
ghost use Rattle.qn_io.specs.Receives.{FitsPacket};
ghost use Rattle.qn_live.specs.Asking.{IsServed, told, Tells};
ghost use Rattle.qn_live.specs.Sound.{IsRecorded};

use crate::asked::{Asked, Given, Room};
use qn_io::{Env, Got, SECTOR};

/// Makes the call on the outside.
pub fn call<E: Env>(env: &mut E, asked: Asked, room: &mut Room) -> Given
    requires { IsServed asked }
    ensures made { Made (E.faults env.old) (E.faults env.new) (E.calls env.old) (E.calls env.new)
        (told asked room.old result room.new ∷ []) }
    ensures shows { E.shows env.old env.new (told asked room.old result room.new) }
    ensures recorded { IsRecorded (told asked room.old result room.new) }
    ensures within { FitsPacket result.got }
    ensures tells { Tells (told asked room.old result room.new) result room.new }
{
    match asked {
        Asked::Receive => {
            let got = env.receive(&mut room.packet);
            are_bytes(&room.packet);
            Given {
                tick: 0,
                got,
                ok: !matches!(got, Got::Failed),
            }
        }
        Asked::Now => Given {
            tick: env.now(),
            got: Got::Nothing,
            ok: true,
        },
        Asked::Read { sector } => {
            let done = env.read(sector, &mut room.sector);
            is_sector(&room.sector);
            Given::done(done.is_ok())
        }
        Asked::Write { sector } => {
            is_sector(&room.sector);
            Given::done(env.write(sector, &room.sector).is_ok())
        }
        Asked::Feed => Given::done(env.feed().is_ok()),
        Asked::Start => Given::done(env.start().is_ok()),
        Asked::Stop => Given::done(env.stop().is_ok()),
        Asked::Send { to } => {
            let sent = room.sent.as_slice();
            are_bytes(sent);
            Given::done(env.send(to, sent).is_ok())
        }
        Asked::Disarm => Given::done(env.disarm().is_ok()),
        Asked::Halt { code } => {
            env.halt(code);
            Given::done(true)
        }
    }
}

/// Each of them is a byte, as the line of a call says.
fn are_bytes(bytes: &[u8])
    ensures { IsBytes bytes.now }
{}

/// The bytes of a whole sector.
fn is_sector(bytes: &[u8; SECTOR])
    ensures whole { length bytes.now ≡ 512 }
    ensures bytes { IsBytes bytes.now }
{
    are_bytes(bytes);
}
