//! On how many of three images a node runs.
ghost use Rattle.std.specs.Prelude.{◌≡◌, ◌<◌, if◌then◌else◌, nat_lt, slice_set};
ghost use Rattle.qn_told.specs.Losses.{noted_at};

use crate::differing::differ;

/// How many images there are.
const IMAGES: usize = 3;

/// How many sectors each of them has.
pub const IMAGE: u32 = 1024;

/// An image that is lost, or is back. One counts where its last call was done, its header is one, and the last read of the node's mailbox gave one.
#[derive(Clone, Copy)]
pub struct ImageNews {
    /// Its number, from 1.
    pub image: u64,
    pub is_lost: bool,
}

/// The images of a node.
#[derive(Clone, Copy)]
pub struct Images {
    /// Whether there are three.
    are_three: bool,
    /// Of each whether its last call failed.
    failed: [bool; IMAGES],
    /// Of each whether its first sector was read and is no header: it is none of the cluster's.
    without_header: [bool; IMAGES],
    /// Of each whether the last read of the node's mailbox gave none: something else was written over it.
    without_mailbox: [bool; IMAGES],
    /// Of each whether it was told that it is lost.
    told: [bool; IMAGES],
}

impl Images {
    ghost use Rattle.std.specs.Prelude.{◌≡◌, ◌<◌, IfSome, false, option_map, replicate};
    ghost use Rattle.qn_told.specs.Losses.{after_news, called, fewer, good_count, headed, image_news, is_changed, is_lost, mailboxed, place_of_news};

    /// Images of which nothing is known.
    pub fn new() -> Images
        ensures { result ≡ record {
          are_three = false;
          failed = replicate 3 false;
          without_header = replicate 3 false;
          without_mailbox = replicate 3 false;
          told = replicate 3 false;
        } }
    {
        Images {
            are_three: false,
            failed: [false; IMAGES],
            without_header: [false; IMAGES],
            without_mailbox: [false; IMAGES],
            told: [false; IMAGES],
        }
    }

    /// A call on that sector was made, and was done or failed.
    pub fn call(&mut self, sector: u32, ok: bool)
        ensures { self.new ≡ called self.old sector ok }
    {
        let place = (sector / IMAGE) as usize;
        self.are_three = self.are_three || place > 0;
        note(&mut self.failed, place, !ok);
    }

    /// The first sector of the image at that place was read, and is a header or none.
    pub fn header(&mut self, place: usize, is_one: bool)
        ensures { self.new ≡ headed self.old place is_one }
    {
        note(&mut self.without_header, place, !is_one);
    }

    /// The node's mailbox was read on the image at that place, and is one or none.
    pub fn mailbox(&mut self, place: usize, is_one: bool)
        ensures { self.new ≡ mailboxed self.old place is_one }
    {
        note(&mut self.without_mailbox, place, !is_one);
    }

    /// Whether the image at that place is lost.
    fn is_lost(&self, place: usize) -> bool
        requires { place < 3 }
        ensures { result ≡ is_lost self.now place }
    {
        self.failed[place] || self.without_header[place] || self.without_mailbox[place]
    }

    /// Whether that is otherwise than it was told.
    fn is_changed(&self, place: usize) -> bool
        requires { place < 3 }
        ensures { result ≡ is_changed self.now place }
    {
        differ(self.told[place], self.is_lost(place))
    }

    /// One of three images of which is to be told now that it is lost, or is back.
    pub fn news(&mut self) -> Option<ImageNews>
        ensures told { result ≡ option_map (image_news self.old) (place_of_news self.old) }
        ensures after { self.new ≡ after_news self.old (place_of_news self.old) }
    {
        let place = self.place_of_news()?;
        let is_lost = self.is_lost(place);
        self.told[place] = is_lost;
        Some(ImageNews {
            image: place as u64 + 1,
            is_lost,
        })
    }

    /// The place of the first of three images of which there is news.
    fn place_of_news(&self) -> Option<usize>
        ensures place { result ≡ place_of_news self.now }
        ensures within { IfSome result (λ place. place < 3) }
    {
        if !self.are_three {
            return None;
        }
        if self.is_changed(0) {
            Some(0)
        } else if self.is_changed(1) {
            Some(1)
        } else {
            self.is_changed(2).then_some(2)
        }
    }

    /// On how many it runs, where these are fewer than three.
    pub fn count(&self) -> Option<u64>
        ensures { result ≡ fewer self.now.are_three (good_count self.now) }
    {
        let good = u64::from(!self.is_lost(0))
            + u64::from(!self.is_lost(1))
            + u64::from(!self.is_lost(2));
        (self.are_three && good < 3).then_some(good)
    }
}

/// Notes of the image at that place whether something is so, where there is one.
fn note(noted: &mut [bool; IMAGES], place: usize, is_so: bool)
    ensures { noted.new ≡ noted_at place is_so noted.old }
{
    if place < IMAGES {
        noted[place] = is_so;
    }
}
