//! Writes that were given up before they landed.
ghost use Rattle.std.specs.Prelude.{◌≡◌, ◌≤◌, ◌++◌, [], ◌∷◌, ℕ, true, OnErr, OnOk, length};
ghost use Rattle.qn_cluster.specs.Places.{marked_on, others_of, place_in};
ghost use Rattle.qn_cluster.specs.DiskStanding.{is_marked, is_of, left_of};
ghost use Rattle.qn_safety.specs.TripleRules.{is_image};

use qn_base::{NoMemory, Rank};
use qn_model::DiskOp;
use std::alloc::Global;
use std::marker::Model;

/// A write that was given up before it landed, whose it was, and on which image, 1 to 3.
#[derive(Clone, Copy, PartialEq, Eq)]
pub struct Leftover {
    pub of: Rank,
    pub image: u8,
    pub op: DiskOp,
}

impl Leftover {
    ghost use Rattle.std.specs.Prelude.{◌≡◌};
    ghost use Rattle.qn_cluster.specs.DiskStanding.{is_of};

    /// Whether it is that of a rank on an image.
    fn is_of(&self, i: Rank, image: u8) -> bool
        ensures { result ≡ is_of i.0 image self.now }
    {
        self.of.0 == i.0 && self.image == image
    }
}

/// The writes that were given up before they landed, oldest first.
#[derive(Drop)]
pub struct Leftovers {
    items: Vec<Leftover>,
}

impl Model for Leftovers {
    ghost use Rattle.std.specs.Prelude.{List};
    ghost use Rattle.qn_cluster.specs.declared.leftovers.Leftover.{Leftover};

    ghost Value = { List Leftover };

    ghost view = { λ l. l.items.items };
}

impl Leftovers {
    ghost use Rattle.std.specs.Prelude.{◌≡◌, ◌<◌, ◌≤◌, ℕ, List, [], true, None, Some, OnErr, OnOk, OnSome, is_some, length, slice_get, take};
    ghost use Rattle.std.specs.List.{remove};
    ghost use Rattle.qn_cluster.specs.Standing.{IsOpWithin, IsWithin};
    ghost use Rattle.qn_cluster.specs.DiskStanding.{LeftFor, is_marked, left_over};
    ghost use Rattle.qn_model.specs.declared.outputs.DiskOp.{DiskOp};
    ghost use Rattle.qn_model.specs.World.{numbered, put, without};
    ghost use Rattle.qn_safety.specs.TripleRules.{is_image};
    ghost use Rattle.qn_safety.specs.TripleWorld.{put_on};

    /// No leftovers.
    pub fn new(alloc: Global) -> Leftovers
        ensures { result ≡ [] }
    {
        Leftovers {
            items: Vec::new(alloc),
        }
    }

    /// How many leftovers there are.
    pub fn len(&self) -> usize
        ensures { result ≡ length self.now }
    {
        self.items.len()
    }

    /// How many of the leftovers are those of a rank on an image.
    pub fn count_of(&self, i: Rank, image: u8) -> u64
        requires { is_image image ≡ true }
        ensures { (count : ℕ) (left : ℕ → ℕ → List DiskOp) → LeftFor count self.now left
            → result ≡ length (left i.0 image) }
    {
        count_of(self.items.as_slice(), i, image)
    }

    /// A write of a rank is left over on the images that are marked, image 1 first, after the leftovers that were there.
    /// It runs out of memory only where one is marked, and the leftovers are then as they were.
    pub fn leave(&mut self, i: Rank, op: DiskOp, on: &[bool; 3]) -> Result<(), NoMemory>
        ensures ok { OnOk result ((count : ℕ) (left : ℕ → ℕ → List DiskOp)
            → IsWithin count op
            → LeftFor count self.old left
            → LeftFor count self.new (left_over left i.0 op on.now)) }
        ensures first { OnOk result (take (length self.old) self.new ≡ self.old) }
        ensures err { OnErr result (self.new ≡ self.old) }
        ensures cause { OnErr result
            ((image : ℕ) × (is_image image ≡ true) × (is_marked on.now image ≡ true)) }
    {
        leave_all(&mut self.items, i, op, on)
    }

    /// Only the first leftovers stay, as many as `count`.
    pub fn keep(&mut self, count: usize)
        ensures { self.new ≡ take count self.old }
    {
        self.items.truncate(count);
    }

    /// Whether there is a leftover of a rank on an image with that number, from 1.
    pub fn has(&self, i: Rank, image: u8, number: u64) -> bool
        requires image { is_image image ≡ true }
        requires number { 1 ≤ number }
        ensures { (count : ℕ) (left : ℕ → ℕ → List DiskOp)
            → LeftFor count self.now left
            → result ≡ is_some (numbered (left i.0 image) number) }
    {
        place_of(self.items.as_slice(), i, image, number).is_some()
    }

    /// The leftover of a rank on an image with that number, from 1, leaves the list.
    pub fn take(&mut self, i: Rank, image: u8, number: u64) -> Option<DiskOp>
        requires image { is_image image ≡ true }
        requires number { 1 ≤ number }
        ensures op { (count : ℕ) (left : ℕ → ℕ → List DiskOp)
            → LeftFor count self.old left
            → result ≡ numbered (left i.0 image) number }
        ensures within { (count : ℕ) (left : ℕ → ℕ → List DiskOp) → LeftFor count self.old left
            → IsOpWithin count result }
        ensures rest { OnSome result ((count : ℕ) (left : ℕ → ℕ → List DiskOp)
            → LeftFor count self.old left
            → LeftFor count self.new (put_on left i.0 image (without (left i.0 image) number))) }
        ensures none { result ≡ None → self.new ≡ self.old }
    {
        match place_of(self.items.as_slice(), i, image, number) {
            Some(place) => {
                let leftover = self.take_at(place);
                Some(leftover.op)
            }
            None => None,
        }
    }

    /// The leftover at a place leaves the list.
    fn take_at(&mut self, place: usize) -> Leftover
        requires { place < length self.old }
        ensures item { slice_get self.old place ≡ Some result }
        ensures others { self.new ≡ remove self.old place }
    {
        self.items.remove(place)
    }

    /// The leftovers of a rank are dropped.
    pub fn drop_of(&mut self, i: Rank)
        ensures { (count : ℕ) (left : ℕ → ℕ → List DiskOp)
            → LeftFor count self.old left
            → LeftFor count self.new (put left i.0 (λ image. [])) }
    {
        drop_left(&mut self.items, i);
    }
}

/// The place of the leftover of a rank on an image with that number, from 1.
fn place_of(left: &[Leftover], i: Rank, image: u8, number: u64) -> Option<usize>
    requires { 1 ≤ number }
    ensures { result ≡ place_in (is_of i.0 image) number left.now }
{
    let mut wanted = number;
    for (place, leftover) in left.iter().enumerate() {
        if leftover.is_of(i, image) {
            if wanted == 1 {
                return Some(place);
            }
            wanted -= 1;
        }
    }
    None
}

/// How many of the leftovers are those of a rank on an image.
fn count_of(left: &[Leftover], i: Rank, image: u8) -> u64
    ensures { result ≡ length (left_of i.0 image left.now) }
{
    let mut count = 0u64;
    for leftover in left {
        if leftover.is_of(i, image) {
            count += 1;
        }
    }
    count
}

/// The leftovers of a rank are dropped.
fn drop_left(left: &mut Vec<Leftover>, i: Rank)
    ensures { left.new.items ≡ others_of i.0 left.old.items }
{
    let mut place = 0;
    while place < left.len() {
        if left[place].of.0 == i.0 {
            left.remove(place);
        } else {
            place += 1;
        }
    }
}

/// A write of a rank is left over on the images that are marked.
fn leave_all(left: &mut Vec<Leftover>, i: Rank, op: DiskOp, on: &[bool; 3]) -> Result<(), NoMemory>
    ensures ok { OnOk result (left.new.items ≡ left.old.items ++ marked_on i op on.now 3) }
    ensures err { OnErr result (left.new.items ≡ left.old.items) }
    ensures cause { OnErr result
        ((image : ℕ) × (is_image image ≡ true) × (is_marked on.now image ≡ true)) }
{
    let before = left.len();
    for image in 0..3 {
        if on[image] && leave_one(left, i, image as u8 + 1, op).is_err() {
            left.truncate(before);
            return Err(NoMemory);
        }
    }
    Ok(())
}

/// A write of a rank is left over on an image.
fn leave_one(left: &mut Vec<Leftover>, i: Rank, image: u8, op: DiskOp) -> Result<(), NoMemory>
    ensures ok { OnOk result
        (left.new.items ≡ left.old.items ++ (record { of = i; image = image; op = op }) ∷ []) }
    ensures err { OnErr result (left.new.items ≡ left.old.items) }
{
    match left.push(Leftover { of: i, image, op }) {
        Ok(()) => Ok(()),
        Err(_) => Err(NoMemory),
    }
}
