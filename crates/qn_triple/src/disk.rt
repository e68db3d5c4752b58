//! The disk of a world of three images: the parts of the operations, the good images, the sectors and the leftovers.
ghost use Rattle.std.specs.Prelude.{◌≡◌, ◌<◌, ◌-◌, ◌&&◌, ℕ, true};
ghost use Rattle.qn_model.specs.World.{is_write, put};
ghost use Rattle.qn_triple.specs.Stepping.{only_on};
ghost use Rattle.qn_parts.specs.Parts.{part_on};
ghost use Rattle.qn_safety.specs.TripleRules.{is_image, none_pending};
ghost use Rattle.qn_safety.specs.TripleWorld.{has_failed, is_pending};

use crate::state::State;
use qn_base::{NoMemory, Rank};
use qn_cluster::{HasNodes, Sectors};
use qn_model::{DiskOp, Message, What};
use qn_parts::{Part, answer_of, good_after};

/// Whether a part is pending.
pub(crate) fn is_pending(part: Part) -> bool
    ensures { result ≡ is_pending part }
{
    matches!(part, Part::Pending)
}

/// Whether a part failed.
pub(crate) fn has_failed(part: Part) -> bool
    ensures { result ≡ has_failed part }
{
    matches!(part, Part::Failed)
}

/// The place of an image, from 0.
fn place_of(image: u8) -> usize
    requires { is_image image ≡ true }
    ensures place { result ≡ image - 1 }
    ensures below { result < 3 }
{
    usize::from(image) - 1
}

/// Whether no part is pending.
fn are_settled(parts: &[Part; 3]) -> bool
    ensures { result ≡ none_pending (λ image. is_pending (part_on parts.now image)) }
{
    !is_pending(parts[0]) && !is_pending(parts[1]) && !is_pending(parts[2])
}

/// Whether an operation is left over on an image where it is given up: a write whose part there is pending.
pub(crate) fn is_left_over(op: DiskOp, part: Part) -> bool
    ensures { result ≡ (is_write op && is_pending part) }
{
    op.is_write() && is_pending(part)
}

/// One image is marked, if any is.
pub(crate) fn only_on(marked: bool, image: u8) -> [bool; 3]
    ensures { result ≡ only_on marked image }
{
    [
        marked && image == 1,
        marked && image == 2,
        marked && image == 3,
    ]
}

/// The parts of an operation with another one on an image.
fn with_part(parts: [Part; 3], image: u8, part: Part) -> [Part; 3]
    requires { is_image image ≡ true }
    ensures { (k : ℕ) → is_image k ≡ true → part_on result k ≡ put (part_on parts) image part k }
{
    if image == 1 {
        return [part, parts[1], parts[2]];
    }
    if image == 2 {
        return [parts[0], part, parts[2]];
    }
    [parts[0], parts[1], part]
}

impl State {
    ghost use Rattle.std.specs.Prelude.{◌≡◌, ◌<◌, ◌≤◌, ℕ, true, None, Some, OnOk, OnErr, OnSome, is_some, length, slice_get, slice_set};
    ghost use Rattle.qn_cluster.specs.Standing.{IsOpWithin, IsWithin};
    ghost use Rattle.qn_cluster.specs.DiskStanding.{is_marked, left_over};
    ghost use Rattle.qn_cluster.specs.declared.sectors.Sectors.{Sectors};
    ghost use Rattle.qn_model.specs.World.{numbered, put, taken, without};
    ghost use Rattle.qn_safety.specs.TripleRules.{is_image, none_pending};
    ghost use Rattle.qn_safety.specs.TripleSteps.{written_on};
    ghost use Rattle.qn_safety.specs.TripleWorld.{TripleWorld, all_good, all_pending, answer_of, good_after, image_of, is_pending, none_left, put_on};
    ghost use Rattle.qn_cluster.specs.WorldSteps.{Turns};
    ghost use Rattle.qn_triple.specs.Standing.{IsStanding, TripleFor, three_images};
    ghost use Rattle.qn_triple.specs.Stepping.{GivesUp, KeepsOn, Mails, Writes};

    /// The parts of the operation of a rank.
    pub(crate) fn parts(&self, i: Rank) -> [Part; 3]
        requires { i.0 < 32 }
        ensures { slice_get self.now.parts i.0 ≡ Some result }
    {
        self.parts[usize::from(i.0)]
    }

    fn set_parts(&mut self, i: Rank, parts: [Part; 3])
        requires { i.0 < 32 }
        ensures { self.new ≡ record self.old { parts = slice_set self.old.parts i.0 parts } }
    {
        self.parts[usize::from(i.0)] = parts;
    }

    /// The good images of a rank.
    fn good(&self, i: Rank) -> [bool; 3]
        requires { i.0 < 32 }
        ensures { slice_get self.now.good i.0 ≡ Some result }
    {
        self.good[usize::from(i.0)]
    }

    fn set_good(&mut self, i: Rank, good: [bool; 3])
        requires { i.0 < 32 }
        ensures { self.new ≡ record self.old { good = slice_set self.old.good i.0 good } }
    {
        self.good[usize::from(i.0)] = good;
    }

    /// The sectors of the image at a place, from 0.
    fn sectors_at(&self, place: usize) -> &Sectors
        requires { place < 3 }
        ensures { slice_get self.now.sectors place ≡ Some result.now }
    {
        &self.sectors[place]
    }

    /// The part of the operation of a rank on an image.
    pub(crate) fn part(&self, i: Rank, image: u8) -> Part
        requires within { i.0 < 32 }
        requires image { is_image image ≡ true }
        ensures { (d : TripleWorld) → TripleFor self.now d → result ≡ d.parts i.0 image }
    {
        let parts = self.parts(i);
        parts[place_of(image)]
    }

    /// The part of the operation of a rank on an image is this.
    pub(crate) fn set_part(&mut self, i: Rank, image: u8, part: Part)
        requires within { i.0 < 32 }
        requires image { is_image image ≡ true }
        ensures { Turns three_images self.old self.new
            (λ d. record d { parts = put_on d.parts i.0 image part }) }
    {
        let parts = with_part(self.parts(i), image, part);
        self.set_parts(i, parts);
    }

    /// No part of a rank has landed or failed any more.
    pub(crate) fn forget_parts(&mut self, i: Rank)
        requires { i.0 < 32 }
        ensures { Turns three_images self.old self.new
            (λ d. record d { parts = put d.parts i.0 all_pending }) }
    {
        self.set_parts(i, [Part::Pending; 3]);
    }

    /// Each image is a good one of a rank.
    pub(crate) fn trust_all(&mut self, i: Rank)
        requires { i.0 < 32 }
        ensures { Turns three_images self.old self.new
            (λ d. record d { good = put d.good i.0 all_good }) }
    {
        self.set_good(i, [true; 3]);
    }

    /// The entry that answers an operation of a rank by its parts.
    pub(crate) fn answer(&self, i: Rank, op: DiskOp) -> What
        requires { i.0 < 32 }
        ensures { (d : TripleWorld) → TripleFor self.now d
            → result ≡ answer_of op (d.parts i.0) (d.good i.0) }
    {
        answer_of(op, &self.parts(i), &self.good(i))
    }

    /// The operation of a rank was answered: no part of it is left, and its good images are those after the answer.
    pub(crate) fn close(&mut self, i: Rank, op: DiskOp)
        requires { i.0 < 32 }
        ensures { Turns three_images self.old self.new (λ d. record d {
          parts = put d.parts i.0 all_pending;
          good = put d.good i.0 (good_after op (d.parts i.0) (d.good i.0));
        }) }
    {
        let good = good_after(op, &self.parts(i), &self.good(i));
        self.set_good(i, good);
        self.forget_parts(i);
    }

    /// Whether no part of the operation of a rank is pending.
    pub(crate) fn none_pending(&self, i: Rank) -> bool
        requires { i.0 < 32 }
        ensures { (d : TripleWorld)
            → TripleFor self.now d
            → result ≡ none_pending (λ image. is_pending (d.parts i.0 image)) }
    {
        are_settled(&self.parts(i))
    }

    /// The entry that a part of an operation of a rank takes where it lands on an image.
    pub(crate) fn taken(&self, i: Rank, image: u8, op: DiskOp) -> What
        requires within { i.0 < 32 }
        requires image { is_image image ≡ true }
        requires target { IsWithin 32 op }
        ensures { (d : TripleWorld)
            → TripleFor self.now d
            → result ≡ taken self.now.settings self.now.timing i.0 op (image_of image d) }
    {
        let sectors = self.sectors_at(place_of(image));
        sectors.taken(self.cluster.settings(), self.timing, i, op)
    }

    /// The message in the mailbox of a rank on an image.
    pub(crate) fn mailbox(&self, i: Rank, image: u8) -> Message
        requires within { i.0 < 32 }
        requires image { is_image image ≡ true }
        ensures { (d : TripleWorld) → TripleFor self.now d → result ≡ d.mailboxes i.0 image }
    {
        let sectors = self.sectors_at(place_of(image));
        sectors.mailbox(i)
    }

    /// A write of a rank lands on the image at a place, from 0.
    fn write_at(&mut self, place: usize, i: Rank, op: DiskOp)
        requires place { place < 3 }
        requires within { i.0 < 32 }
        requires target { IsWithin 32 op }
        ensures { (own : Sectors) → slice_get self.old.sectors place ≡ Some own
            → (after : Sectors)
            × (self.new ≡ record self.old { sectors = slice_set self.old.sectors place after })
            × Writes own after i.0 op }
    {
        let sectors = &mut self.sectors[place];
        sectors.write(i, op);
    }

    /// A message replaces what the mailbox of a rank on the image at a place, from 0, holds.
    fn mail_at(&mut self, place: usize, i: Rank, message: Message)
        requires place { place < 3 }
        requires within { i.0 < 32 }
        ensures { (own : Sectors) → slice_get self.old.sectors place ≡ Some own
            → (after : Sectors)
            × (self.new ≡ record self.old { sectors = slice_set self.old.sectors place after })
            × Mails own after i.0 message }
    {
        let sectors = &mut self.sectors[place];
        sectors.set_mailbox(i, message);
    }

    /// A write of a rank lands on an image.
    pub(crate) fn write(&mut self, i: Rank, image: u8, op: DiskOp)
        requires standing { IsStanding self.old }
        requires within { i.0 < 32 }
        requires image { is_image image ≡ true }
        requires target { IsWithin 32 op }
        ensures { Turns three_images self.old self.new (written_on i.0 image op) }
    {
        self.write_at(place_of(image), i, op);
    }

    /// A message replaces what the mailbox of a rank on an image holds.
    pub(crate) fn set_mailbox(&mut self, i: Rank, image: u8, message: Message)
        requires standing { IsStanding self.old }
        requires within { i.0 < 32 }
        requires image { is_image image ≡ true }
        ensures { Turns three_images self.old self.new
            (λ d. record d { mailboxes = put_on d.mailboxes i.0 image message }) }
    {
        self.mail_at(place_of(image), i, message);
    }

    /// A write of a rank is left over on the images that are marked.
    pub(crate) fn leave_over(&mut self, i: Rank, op: DiskOp, on: [bool; 3]) -> Result<(), NoMemory>
        requires { (d : TripleWorld) → TripleFor self.old d
            → IsWithin (length self.old.settings.nodes) op }
        ensures ok { OnOk result (Turns three_images self.old self.new
            (λ d. record d { left = left_over d.left i.0 op on })) }
        ensures err { OnErr result (self.new ≡ self.old) }
        ensures cause { OnErr result
            ((image : ℕ) × (is_image image ≡ true) × (is_marked on image ≡ true)) }
    {
        self.left.leave(i, op, &on)
    }

    /// The operation of a running node is given up: a write is left over on the images where its part is pending.
    pub(crate) fn give_up(&mut self, i: Rank) -> Result<(), NoMemory>
        requires within { i.0 < length self.old.seats }
        requires few { i.0 < 32 }
        ensures ok { OnOk result (GivesUp self.old self.new i.0) }
        ensures err { OnErr result (KeepsOn self.old self.new i.0) }
    {
        if let Some(op) = self.op(i) {
            let parts = self.parts(i);
            let on = [
                is_left_over(op, parts[0]),
                is_left_over(op, parts[1]),
                is_left_over(op, parts[2]),
            ];
            self.leave_over(i, op, on)?;
        }
        Ok(())
    }

    /// Whether there is a leftover of a rank on an image with that number, from 1.
    pub(crate) fn has_left(&self, i: Rank, image: u8, number: u64) -> bool
        requires image { is_image image ≡ true }
        requires number { 1 ≤ number }
        ensures { (d : TripleWorld) → TripleFor self.now d
            → result ≡ is_some (numbered (d.left i.0 image) number) }
    {
        self.left.has(i, image, number)
    }

    /// The leftover of a rank on an image with that number, from 1, leaves the list.
    pub(crate) fn take_left(&mut self, i: Rank, image: u8, number: u64) -> Option<DiskOp>
        requires image { is_image image ≡ true }
        requires number { 1 ≤ number }
        ensures op { (d : TripleWorld) → TripleFor self.old d
            → result ≡ numbered (d.left i.0 image) number }
        ensures within { (d : TripleWorld) → TripleFor self.old d
            → IsOpWithin (length self.old.settings.nodes) result }
        ensures rest { OnSome result (Turns three_images self.old self.new
            (λ d. record d
            { left = put_on d.left i.0 image (without (d.left i.0 image) number) })) }
        ensures none { result ≡ None → self.new ≡ self.old }
    {
        self.left.take(i, image, number)
    }

    /// The leftovers of a rank are dropped.
    pub(crate) fn drop_left(&mut self, i: Rank)
        ensures { Turns three_images self.old self.new
            (λ d. record d { left = put d.left i.0 none_left }) }
    {
        self.left.drop_of(i);
    }
}
