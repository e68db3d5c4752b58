//! The law that a well formed poll or reply that was put is read back.
ghost use Rattle.std.specs.Prelude.{◌≡◌, Some, IsTrue};
ghost use Rattle.qn_safety.specs.declared.polls.Poll.{Poll};
ghost use Rattle.qn_safety.specs.declared.polls.Reply.{Reply};
ghost use Rattle.qn_polls.specs.Polls.{is_poll, is_reply, poll_bytes, reply_bytes};
ghost use Rattle.qn_polls.specs.Reading.{poll_of, reply_of};

/// Law: a well formed poll, and a well formed reply, that was put is read back.
pub fn law_polls_read_back()
    ensures polls { (poll : Poll) → IsTrue (is_poll poll) → poll_of (poll_bytes poll) ≡ Some poll }
    ensures replies { (reply : Reply) → IsTrue (is_reply reply) → reply_of (reply_bytes reply) ≡ Some reply }
{}
