//! The running node on three images as a machine: it names its next call, and takes the answer of that call.
ghost use Rattle.std.specs.Prelude.{◌≡◌};

use crate::decoded::Decoded;
use crate::disk::answer;
use crate::part::{part_of, sector_on};
use crate::told::{Reads, Writes};
use crate::triple_entry::read_entry;
use crate::triple_operations::{
    answer_as, good_after_write, is_asked, is_majority, is_write, place_of, read_as,
};
use crate::{Asked, Given, LiveEnd, NodeRun, Room, law_operation};
use qn_base::Rank;
use qn_model::{DiskOp, Out, Settings};
use qn_parts::Part;
use qn_sector::law_read_back;

/// A running node on three images that waits for the answer of its next call, or whose run is over.
#[derive(Drop)]
pub struct TripleRun {
    run: NodeRun,
    /// The good images: all, and from the clear of the own mailbox on those on which it was done.
    good: [bool; 3],
    /// What the images told so far of the disk operation that is out.
    reads: Reads,
    writes: Writes,
}

impl TripleRun {
    ghost use Rattle.std.specs.Prelude.{◌≤◌, ◌<◌, ℕ, List, Some, true, false, IfErr, IfOk, IfSome, IfNone, OnOk, length};
    ghost use Rattle.qn_base.specs.declared.calls.Call.{Call};
    ghost use Rattle.qn_base.specs.Calls.{blank};
    ghost use Rattle.qn_base.specs.Plans.{Plan, left, question};
    ghost use Rattle.qn_io.specs.Receives.{FitsPacket};
    ghost use Rattle.qn_model.specs.declared.outputs.DiskOp.{DiskOp};
    ghost use Rattle.qn_model.specs.declared.outputs.Out.{Out};
    ghost use Rattle.qn_model.specs.Settings.{IsValid};
    ghost use Rattle.qn_model.specs.World.{is_write};
    ghost use Rattle.qn_node.specs.Outputs.{IsNodeOutput};
    ghost use Rattle.qn_base.specs.declared.calls.Call.TheVariants.{Write};
    ghost use Rattle.qn_live.specs.Asking.{IsServed, IsWithin, Tells, question_of};
    ghost use Rattle.qn_live.specs.Decoding.{decoded_of, decoded_op};
    ghost use Rattle.qn_live.specs.Machine.{EndsWith, IsUnderWay as UnderWay, RunFor, operation_of, work};
    ghost use Rattle.qn_live.specs.Running.{Ran};
    ghost use Rattle.qn_live.specs.TripleLaws.{IsTold};
    ghost use Rattle.qn_live.specs.TripleMachine.{AreTold, IsAnswered, IsStanding, IsUnderWay, Stands, TripleRunFor, is_next_asked, on_image, read_on, triple_work, written_on};
    ghost use Rattle.qn_live.specs.TripleOperations.{place_of, read_as};
    ghost use Rattle.qn_live.specs.TripleRuns.{triple_plan};

    /// A run of that many turns of the node of that rank on three images; `clean` says that its boot is a clean start, and
    /// `leave_at` is the number of the turn from which on it is to leave.
    pub fn new(
        settings: Settings,
        me: Rank,
        clean: bool,
        leave_at: Option<u64>,
        polls: Option<u64>,
        turns: u64,
    ) -> TripleRun
        requires valid { IsValid settings }
        requires configured { me.0 < length settings.nodes }
        requires some_turn { 1 ≤ turns }
        ensures { TripleRunFor result (triple_plan settings me.0 clean leave_at polls turns) }
    {
        TripleRun {
            run: NodeRun::new(settings, me, clean, leave_at, polls, turns),
            good: [true; 3],
            reads: Reads::Nothing,
            writes: Writes::Nothing,
        }
    }

    /// The run as that of a node on one image, which takes one answer for each disk operation.
    pub fn node_run(&self) -> &NodeRun
        ensures { result.now ≡ self.now.run }
    {
        &self.run
    }

    /// The call that comes next, whose bytes are put into the room, or how the run ended.
    pub fn asks(&self, room: &mut Room) -> Result<Asked, LiveEnd>
        requires under_way { IsUnderWay self.now }
        ensures asked { IfOk result (λ asked. (plan : Plan Ran)
            → TripleRunFor self.now plan
            → question plan ≡ Some (question_of asked room.new)) }
        ensures served { IfOk result IsServed }
        ensures work { OnOk result (0 < work self.now.run) }
        ensures over { IfErr result
            (λ end. (plan : Plan Ran) → TripleRunFor self.now plan → EndsWith plan end) }
    {
        law_operation();
        match self.run.asks(room) {
            Ok(asked) => Ok(self.on_image(asked)),
            Err(end) => Err(end),
        }
    }

    /// The call on one image as that on the image that comes next.
    fn on_image(&self, asked: Asked) -> Asked
        requires within { IsWithin asked }
        ensures value { result ≡ on_image self.now.reads self.now.writes asked }
        ensures served { IsServed result }
    {
        match asked {
            Asked::Read { sector } => Asked::Read {
                sector: sector_on(self.reads.image(), sector),
            },
            Asked::Write { sector } => Asked::Write {
                sector: sector_on(self.writes.image(), sector),
            },
            Asked::Receive => Asked::Receive,
            Asked::Now => Asked::Now,
            Asked::Feed => Asked::Feed,
            Asked::Start => Asked::Start,
            Asked::Stop => Asked::Stop,
            Asked::Send { to } => Asked::Send { to },
            Asked::Disarm => Asked::Disarm,
            Asked::Halt { code } => Asked::Halt { code },
        }
    }

    /// Takes the answer of the call that was asked for, with its bytes in the room, and goes on to the next call. It gives what the bytes
    /// are.
    pub fn answer(&mut self, given: Given, room: &Room) -> Decoded
        requires fits { FitsPacket given.got }
        requires answered { IsAnswered self.old given room.now }
        ensures runs { (plan : Plan Ran) (call : Call)
            → TripleRunFor self.old plan
            → Tells call given room.now
            → question plan ≡ Some (blank call)
            → TripleRunFor self.new (left plan call) }
        ensures work { 0 < work self.old.run → triple_work self.new < triple_work self.old }
        ensures decoded { result ≡ decoded_of self.old.run given room.now }
    {
        let decoded = self.take(given, room);
        self.pass_over();
        decoded
    }

    /// Takes the answer of the call that was asked for.
    fn take(&mut self, given: Given, room: &Room) -> Decoded
        requires under_way { IsUnderWay self.old }
        requires fits { FitsPacket given.got }
        ensures stands { (plan : Plan Ran) (call : Call)
            → TripleRunFor self.old plan
            → Tells call given room.now
            → question plan ≡ Some (blank call)
            → Stands self.new (left plan call) }
        ensures work { 0 < work self.old.run → triple_work self.new < triple_work self.old }
        ensures decoded { result ≡ decoded_of self.old.run given room.now }
    {
        law_operation();
        match self.run.operation() {
            Some(op) => self.told(op, given, room),
            None => {
                let decoded = self.run.answer(given, room);
                self.forget();
                decoded
            }
        }
    }

    /// An image answered its call of this operation.
    fn told(&mut self, op: DiskOp, given: Given, room: &Room) -> Decoded
        requires under_way { IsUnderWay self.old }
        requires operation { operation_of self.old.run ≡ Some op }
        ensures stands { (plan : Plan Ran) (call : Call)
            → TripleRunFor self.old plan
            → Tells call given room.now
            → question plan ≡ Some (blank call)
            → Stands self.new (left plan call) }
        ensures work { triple_work self.new < triple_work self.old }
        ensures decoded { result ≡ decoded_op op given room.now }
    {
        law_operation();
        if is_write(op) {
            self.wrote(op, given.ok, room);
            Decoded::Nothing
        } else {
            let told = part_of(self.run.settings(), read_as(op), given.ok, &room.sector);
            self.read(op, told.0);
            told.1
        }
    }

    /// The next image told this of a read.
    fn read(&mut self, op: DiskOp, part: Part)
        requires under_way { UnderWay self.old.run }
        requires operation { operation_of self.old.run ≡ Some op }
        requires reads { is_write op ≡ false }
        requires valid { IsValid self.old.run.settings }
        requires rank { IsNodeOutput self.old.run.settings (Out.Disk op) }
        ensures stands { (one : Plan Ran) (runs : RunFor self.old.run one)
            → let sector = place_of self.old.run.me.0 op in
            AreTold self.old.run.settings (read_as op) self.old.reads
            → IsTold self.old.run.settings (read_as op) part
            → Stands self.new (read_on self.old.run.settings self.old.run.me.0 self.old.good
            self.old.reads one (read_as op) sector part) }
        ensures work { triple_work self.new < triple_work self.old }
    {
        law_operation();
        law_read_back();
        match self.reads {
            Reads::Nothing => self.reads = Reads::One(part),
            Reads::One(first) => self.reads = Reads::Two(first, part),
            Reads::Two(first, second) => {
                let entry = read_entry(read_as(op), &[first, second, part], &self.good);
                self.run.perform(answer_as(op, entry));
                self.forget();
            }
        }
    }

    /// The next image was written, or was not.
    fn wrote(&mut self, op: DiskOp, done: bool, room: &Room)
        requires under_way { UnderWay self.old.run }
        requires operation { operation_of self.old.run ≡ Some op }
        requires writes { is_write op ≡ true }
        requires valid { IsValid self.old.run.settings }
        requires configured { self.old.run.me.0 < length self.old.run.settings.nodes }
        requires rank { IsNodeOutput self.old.run.settings (Out.Disk op) }
        ensures stands { (one : Plan Ran) (runs : RunFor self.old.run one) (bytes : List ℕ)
            → let sector = place_of self.old.run.me.0 op in
            question one ≡ Some (Write sector bytes true)
            → Stands self.new (written_on self.old.run.settings self.old.run.me.0 self.old.good
            self.old.writes one sector bytes done) }
        ensures work { triple_work self.new < triple_work self.old }
    {
        match self.writes {
            Writes::Nothing => self.writes = Writes::One(done),
            Writes::One(first) => self.writes = Writes::Two(first, done),
            Writes::Two(first, second) => {
                let written = [first, second, done];
                let me = self.run.rank();
                let sector = place_of(self.run.settings(), me, op);
                self.good = good_after_write(me, sector, written, self.good);
                let answer = answer(self.run.settings(), op, is_majority(&written), &room.sector);
                self.run.perform(answer.entry);
                self.forget();
            }
        }
    }

    /// The operation was answered: of the next one no image told anything.
    fn forget(&mut self)
        ensures reads { self.new.reads ≡ Reads.Nothing }
        ensures writes { self.new.writes ≡ Writes.Nothing }
        ensures run { self.new.run ≡ self.old.run }
        ensures good { self.new.good ≡ self.old.good }
    {
        self.reads = Reads::Nothing;
        self.writes = Writes::Nothing;
    }

    /// Passes over the images that are not read: they tell nothing.
    fn pass_over(&mut self)
        requires standing { IsStanding self.old }
        ensures settled { (plan : Plan Ran) → Stands self.old plan → TripleRunFor self.new plan }
        ensures work { triple_work self.new ≤ triple_work self.old }
    {
        law_operation();
        'images: loop {
            match self.unread() {
                Some(op) => self.read(op, Part::Pending),
                None => return,
            }
        }
    }

    /// The read that comes next, where its next image is not read.
    fn unread(&self) -> Option<DiskOp>
        requires under_way { UnderWay self.now.run }
        ensures operation { IfSome result (λ op. operation_of self.now.run ≡ Some op) }
        ensures reads { IfSome result (λ op. is_write op ≡ false) }
        ensures passed { IfSome result (λ op. is_next_asked op self.now.good self.now.reads ≡ false) }
        ensures none { IfNone result ((op : DiskOp)
            → operation_of self.now.run ≡ Some op
            → is_write op ≡ false
            → is_next_asked op self.now.good self.now.reads ≡ true) }
    {
        let op = self.run.operation()?;
        if is_write(op) || self.is_next_asked(op) {
            return None;
        }
        Some(op)
    }

    /// Whether the next image is read for this operation.
    fn is_next_asked(&self, op: DiskOp) -> bool
        ensures { result ≡ is_next_asked op self.now.good self.now.reads }
    {
        let good = match self.reads {
            Reads::Nothing => self.good[0],
            Reads::One(_) => self.good[1],
            Reads::Two(..) => self.good[2],
        };
        is_asked(read_as(op), good)
    }
}
