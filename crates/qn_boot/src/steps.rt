//! The states of a boot and the steps between them, one for each answer of the disk.
ghost use Rattle.std.specs.Prelude.{◌≡◌};

use qn_model::{BootCause, HeaderSeen, MailSeen, Message, SlotSeen, Timing, timing_safe};
use std::marker::Model;

/// A boot that waits for the answer that its state names. Only this crate makes one.
#[derive(Drop)]
pub struct Boot<State> {
    state: State,
}

impl<State> Model for Boot<State> {
    ghost Value = { State };

    ghost view = { λ boot. boot.state };
}

/// The header of the image is being read; it has to be one for that many nodes. `clean` says whether the
/// boot is a clean start.
#[derive(Clone, Copy, PartialEq, Eq)]
pub struct WantHeader {
    pub nodes: u32,
    pub clean: bool,
}

/// The node's own slot is being read. The times are those of the header; `clean` says whether the boot is
/// a clean start.
#[derive(Clone, Copy, PartialEq, Eq)]
pub struct WantSlot {
    pub times: Timing,
    pub clean: bool,
}

/// The node's own mailbox is being read in a clean start, before that incarnation is claimed.
#[derive(Clone, Copy, PartialEq, Eq)]
pub struct WantCheck {
    pub times: Timing,
    pub claims: u64,
}

/// The claim of that incarnation is being written into the node's own slot.
#[derive(Clone, Copy, PartialEq, Eq)]
pub struct WantClaim {
    pub times: Timing,
    pub claims: u64,
}

/// Empty is being written into the node's own mailbox.
#[derive(Clone, Copy, PartialEq, Eq)]
pub struct WantClear {
    pub times: Timing,
    pub claims: u64,
}

/// A boot that has ended well, so that the node is up: its incarnation, the times of the header, and the
/// tick at which the mailbox was cleared. Only [`Boot::cleared`] makes one.
#[derive(Drop)]
#[non_exhaustive]
pub struct Ready {
    pub incarnation: u64,
    pub timing: Timing,
    pub tick: u64,
}

/// What a boot waits for once its own slot was read: in a clean start for the check of its mailbox, else for
/// its claim.
#[derive(Drop)]
pub enum AfterSlot {
    Check(Boot<WantCheck>),
    Claim(Boot<WantClaim>),
}

/// A boot that has failed, and why. Nothing of the boot is handed back with it.
#[derive(Clone, Copy, PartialEq, Eq)]
pub struct Halt {
    pub cause: BootCause,
}

impl Boot<WantHeader> {
    ghost use Rattle.std.specs.Prelude.{◌≡◌, ℕ, [], List, length, IfOk};
    ghost use Rattle.qn_model.specs.declared.configuration.Settings.{Settings};
    ghost use Rattle.qn_model.specs.declared.entries.What.{What};
    ghost use Rattle.qn_model.specs.declared.seen.HeaderSeen.{HeaderSeen};
    ghost use Rattle.qn_model.specs.Log.{Line};
    ghost use Rattle.qn_model.specs.Moments.{begin_of};
    ghost use Rattle.qn_model.specs.NodeOutputs.{with_read};
    ghost use Rattle.qn_model.specs.Phases.{boot_halt};
    ghost use Rattle.qn_boot.specs.Boot.{WantHeaderFor, WantSlotFor, halted_by};

    /// The boot of a node in a cluster of that many nodes, as a clean start or not: the header is to be
    /// read.
    pub fn begin(nodes: u32, clean: bool) -> Self
        ensures nodes { result.nodes ≡ nodes }
        ensures clean { result.clean ≡ clean }
        ensures stands { (s : Settings) (me tick : ℕ)
            → nodes ≡ length s.nodes
            → WantHeaderFor s result (with_read s me [] tick (begin_of clean)) }
    {
        Boot {
            state: WantHeader { nodes, clean },
        }
    }

    /// The header was read. Goes on where it is one for the cluster's number of nodes with safe times;
    /// else halts with ReadFailed, NotImage (also for another number of nodes) or UnsafeTiming.
    pub fn header(self, seen: HeaderSeen) -> Result<Boot<WantSlot>, Halt>
        ensures exact { (s : Settings)
            → self.nodes ≡ length s.nodes
            → halted_by result ≡ boot_halt s (What.Header seen) }
        ensures times { IfOk result (λ next. seen ≡ HeaderSeen.Read self.nodes next.times) }
        ensures clean { IfOk result (λ next. next.clean ≡ self.clean) }
        ensures stands { (s : Settings) (me : ℕ) (log : List Line) (tick : ℕ)
            → WantHeaderFor s self log
            → IfOk result
            (λ next. WantSlotFor s me next (with_read s me log tick (What.Header seen))) }
    {
        let (nodes, times) = match seen {
            HeaderSeen::Read { nodes, timing } => (nodes, timing),
            HeaderSeen::NotImage => return halted(BootCause::NotImage),
            HeaderSeen::Failed => return halted(BootCause::ReadFailed),
        };
        if nodes != self.state.nodes {
            return halted(BootCause::NotImage);
        }
        if !timing_safe(&times) {
            return halted(BootCause::UnsafeTiming);
        }
        Ok(Boot {
            state: WantSlot {
                times,
                clean: self.state.clean,
            },
        })
    }
}

impl Boot<WantSlot> {
    ghost use Rattle.std.specs.Prelude.{◌≡◌, ℕ, List, Some, IfOk};
    ghost use Rattle.qn_base.specs.declared.ids.Rank.{Rank};
    ghost use Rattle.qn_model.specs.declared.configuration.Settings.{Settings};
    ghost use Rattle.qn_model.specs.declared.entries.What.{What};
    ghost use Rattle.qn_model.specs.declared.outputs.DiskOp.{DiskOp};
    ghost use Rattle.qn_model.specs.Log.{Line};
    ghost use Rattle.qn_model.specs.NodeOutputs.{with_read};
    ghost use Rattle.qn_model.specs.Phases.{boot_halt};
    ghost use Rattle.qn_model.specs.Wanted.{claim_after, rank_of};
    ghost use Rattle.qn_boot.specs.Boot.{AfterSlotFor, WantSlotFor, claims_after, halted_by, is_check, times_after};

    /// The own slot was read. Goes on where it is one with an incarnation that has a next one, to the check
    /// of the mailbox exactly in a clean start; else halts with ReadFailed, NotImage (for damaged bytes) or
    /// IncarnationSpent.
    pub fn slot(self, seen: SlotSeen) -> Result<AfterSlot, Halt>
        ensures exact { (s : Settings) (own : Rank)
            → halted_by result ≡ boot_halt s (What.SlotRead own seen) }
        ensures check { IfOk result (λ next. is_check next ≡ self.clean) }
        ensures next { IfOk result (λ next.
            (times_after next ≡ self.times)
            × (claim_after seen ≡ Some (DiskOp.WriteClaim (claims_after next)))) }
        ensures stands { (s : Settings) (me : ℕ) (log : List Line) (tick : ℕ)
            → WantSlotFor s me self log
            → IfOk result (λ next.
            AfterSlotFor s next (with_read s me log tick (What.SlotRead (rank_of me) seen))) }
    {
        let own = match seen {
            SlotSeen::Read(own) => own,
            SlotSeen::Damaged => return halted(BootCause::NotImage),
            SlotSeen::Failed => return halted(BootCause::ReadFailed),
        };
        match own.incarnation.checked_add(1) {
            Some(claims) => Ok(self.after(claims)),
            None => halted(BootCause::IncarnationSpent),
        }
    }

    /// What comes after a read of the slot, where that incarnation is to be claimed.
    fn after(self, claims: u64) -> AfterSlot
        ensures check { is_check result ≡ self.clean }
        ensures times { times_after result ≡ self.times }
        ensures claims { claims_after result ≡ claims }
    {
        let WantSlot { times, clean } = self.state;
        if clean {
            AfterSlot::Check(Boot {
                state: WantCheck { times, claims },
            })
        } else {
            AfterSlot::Claim(Boot {
                state: WantClaim { times, claims },
            })
        }
    }
}

impl Boot<WantCheck> {
    ghost use Rattle.std.specs.Prelude.{◌≡◌, ℕ, List, Some, IfOk};
    ghost use Rattle.qn_model.specs.declared.configuration.Settings.{Settings};
    ghost use Rattle.qn_model.specs.declared.entries.What.{What};
    ghost use Rattle.qn_model.specs.Log.{Line};
    ghost use Rattle.qn_model.specs.NodeOutputs.{with_read};
    ghost use Rattle.qn_model.specs.Phases.{boot_halt};
    ghost use Rattle.qn_boot.specs.Boot.{WantCheckFor, WantClaimFor, halted_by};

    /// The own mailbox was checked. Goes on where it is empty or holds Exit; else halts with ReadFailed,
    /// NotImage (for damaged bytes) or NotClean.
    pub fn checked(self, seen: MailSeen) -> Result<Boot<WantClaim>, Halt>
        ensures exact { (s : Settings) → halted_by result ≡ boot_halt s (What.MailChecked seen) }
        ensures next { IfOk result
            (λ next. (next.times ≡ self.times) × (next.claims ≡ self.claims)) }
        ensures stands { (s : Settings) (me : ℕ) (log : List Line) (tick : ℕ)
            → WantCheckFor s self log
            → IfOk result
            (λ next. WantClaimFor s next (with_read s me log tick (What.MailChecked seen))) }
    {
        match seen {
            MailSeen::Read(Message::Empty | Message::Exit) => {}
            MailSeen::Read(Message::Test | Message::Reset | Message::Off | Message::Crashdump) =>
                return halted(BootCause::NotClean),
            MailSeen::Damaged => return halted(BootCause::NotImage),
            MailSeen::Failed => return halted(BootCause::ReadFailed),
        }
        Ok(Boot {
            state: WantClaim {
                times: self.state.times,
                claims: self.state.claims,
            },
        })
    }
}

impl Boot<WantClaim> {
    ghost use Rattle.std.specs.Prelude.{◌≡◌, ℕ, List, Some, IfOk};
    ghost use Rattle.qn_model.specs.declared.configuration.Settings.{Settings};
    ghost use Rattle.qn_model.specs.declared.entries.What.{What};
    ghost use Rattle.qn_model.specs.declared.outputs.DiskOp.{DiskOp};
    ghost use Rattle.qn_model.specs.Log.{Line, claimed, op_out};
    ghost use Rattle.qn_model.specs.NodeOutputs.{with_read};
    ghost use Rattle.qn_model.specs.Phases.{boot_halt};
    ghost use Rattle.qn_boot.specs.Boot.{WantClaimFor, WantClearFor, halted_by};

    /// The incarnation to write: one more than the own slot said.
    pub fn claims(&self) -> u64
        ensures value { result ≡ self.now.claims }
        ensures stands { (s : Settings) (log : List Line)
            → WantClaimFor s self.now log
            → (op_out log ≡ Some (DiskOp.WriteClaim result)) × (claimed log ≡ Some result) }
    {
        self.state.claims
    }

    /// The claim was written, or not. Goes on where it was; else halts with ClaimFailed.
    pub fn claimed(self, ok: bool) -> Result<Boot<WantClear>, Halt>
        ensures exact { (s : Settings) → halted_by result ≡ boot_halt s (What.Claimed ok) }
        ensures next { IfOk result
            (λ next. (next.times ≡ self.times) × (next.claims ≡ self.claims)) }
        ensures stands { (s : Settings) (me : ℕ) (log : List Line) (tick : ℕ)
            → WantClaimFor s self log
            → IfOk result
            (λ next. WantClearFor s next (with_read s me log tick (What.Claimed ok))) }
    {
        if !ok {
            return halted(BootCause::ClaimFailed);
        }
        Ok(Boot {
            state: WantClear {
                times: self.state.times,
                claims: self.state.claims,
            },
        })
    }
}

impl Boot<WantClear> {
    ghost use Rattle.std.specs.Prelude.{◌≡◌, ℕ, List, Some, IfOk};
    ghost use Rattle.qn_model.specs.declared.configuration.Settings.{Settings};
    ghost use Rattle.qn_model.specs.declared.entries.What.{What};
    ghost use Rattle.qn_model.specs.Log.{Line, claimed};
    ghost use Rattle.qn_model.specs.NodeOutputs.{with_read};
    ghost use Rattle.qn_model.specs.Phases.{boot_halt};
    ghost use Rattle.qn_boot.specs.Boot.{ReadyFor, WantClearFor, halted_by};

    /// The incarnation that was written.
    pub fn claims(&self) -> u64
        ensures value { result ≡ self.now.claims }
        ensures stands { (s : Settings) (log : List Line) → WantClearFor s self.now log
            → claimed log ≡ Some result }
    {
        self.state.claims
    }

    /// The own mailbox was cleared at that tick, or not. The boot ends well where it was; else it halts
    /// with ClearFailed. It is not tried again.
    pub fn cleared(self, tick: u64, ok: bool) -> Result<Ready, Halt>
        ensures exact { (s : Settings) → halted_by result ≡ boot_halt s (What.Cleared ok) }
        ensures ready { IfOk result (λ ready.
            ready ≡ record { incarnation = self.claims; timing = self.times; tick = tick }) }
        ensures stands { (s : Settings) (me : ℕ) (log : List Line)
            → WantClearFor s self log
            → IfOk result (λ ready. ReadyFor s ready (with_read s me log tick (What.Cleared ok))) }
    {
        if !ok {
            return halted(BootCause::ClearFailed);
        }
        Ok(Ready {
            incarnation: self.state.claims,
            timing: self.state.times,
            tick,
        })
    }
}

fn halted<T>(cause: BootCause) -> Result<T, Halt>
    ensures { result ≡ Err (record { cause = cause }) }
{
    Err(Halt { cause })
}
