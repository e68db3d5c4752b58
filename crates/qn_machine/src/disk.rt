//! The disk of a node: one image, or three of which one may be lost.
ghost use Rattle.std.specs.Prelude.{◌<◌, ◌≡◌, ◌↔◌, IsTrue, Some, is_ok};

use crate::blank::{found_at, is_zeros};
use crate::edge::{Edge, Overwrites};
use crate::headers::{header_times, times_of};
use crate::image::{Image, Opener};
use crate::named_file::Absent;
use crate::reported::reported;
use qn_base::Failed;
use qn_exchange::ShortFeedDelay;
use qn_io::SECTOR;
use qn_outside::{Layout, Times};
use qn_sector::get_header;
use std::fs::File;
use std::io::{self, ErrorKind};
use std::net::{Net, TcpStream};
use std::rt::Files;
use std::time::{Clock, Duration};

/// The images of a node that are open, each under its own lock.
#[derive(Drop)]
pub(crate) struct Disk {
    layout: Layout,
    images: [Option<Image>; 3],
    /// Of each image what was said last of a call that failed.
    told: [Option<Told>; 3],
    /// Of each image whether the last write to it was done.
    wrote: [bool; 3],
    /// Of each image whether its header is looked at before the next call: one failed, and something else may be in its place since.
    doubted: [bool; 3],
    /// The header of the cluster: that of the first image that has one.
    header: Option<[u8; SECTOR]>,
    /// By what three images are opened again.
    again: Option<Again>,
}

/// By what those of three images that are not open are tried again.
#[derive(Drop)]
struct Again {
    /// The words of the three.
    word: String,
    opener: Opener,
    /// From which moment of the monotonic clock on.
    from: Duration,
}

/// How many times as long as a try took the next one is waited for, so that a server which does not answer takes little of a node's time.
const TRY_SHARE: u32 = 10;

/// How long the same of an image is not said again, in milliseconds.
const BETWEEN_LINES: u64 = 60_000;

/// What was said of an image, and the moment of the monotonic clock from which on it may be said again.
#[derive(Clone, Copy)]
struct Told {
    kind: ErrorKind,
    until: Duration,
}

impl Disk {
    ghost use Rattle.std.specs.Prelude.{◌≡◌, ◌<◌, IfSome, is_ok, slice_set};
    ghost use Rattle.qn_outside.specs.Layouts.{image_of, is_written};

    /// A disk of which no image is open.
    pub(crate) fn closed() -> Disk {
        Disk::of(Layout::One, [None, None, None])
    }

    /// The disk of these images, of which nothing was said.
    fn of(layout: Layout, images: [Option<Image>; 3]) -> Disk {
        Disk {
            layout,
            images,
            told: [None, None, None],
            wrote: [false; 3],
            doubted: [false; 3],
            header: None,
            again: None,
        }
    }

    /// Opens the image of that word, or the three whose words stand between the two commas of the word. Of three one may fail.
    pub(crate) fn open<
        R: Files<File = File> + Net<Stream = TcpStream> + Clock + AllocGlobal,
        E: Eprint,
    >(
        rt: &R,
        errors: &E,
        images: u8,
        word: &str,
        opener: Opener,
        absent: Absent,
    ) -> Result<Disk, Failed> {
        match images {
            1 => {
                let image = open_image(rt, errors, word, opener, absent)?;
                Ok(Disk::of(Layout::One, [Some(image), None, None]))
            }
            3 => open_three(rt, errors, word, opener, absent),
            _ => reported(
                errors,
                "images",
                Err(io::Error::from(ErrorKind::Unsupported)),
            ),
        }
    }

    /// Whether one of three images is lost.
    pub(crate) fn has_lost(&self) -> bool {
        match self.layout {
            Layout::One => false,
            Layout::Three => opened(&self.images) < 3,
        }
    }

    /// The least watchdog's time and the least feed delay of the headers of the images. Of three images one may be lost, or have no header; where the
    /// headers are judged, one that is not taken is closed, since it is none of the cluster's.
    pub(crate) fn edge_times<R: Files<File = File> + Net<Stream = TcpStream> + Clock, E: Eprint>(
        &mut self,
        rt: &R,
        errors: &E,
        edge: &Edge,
    ) -> Result<Times, Failed> {
        let mut said = [None; 3];
        let mut header = None;
        'images: for index in 0..3 {
            said[index] = read_times(rt, errors, edge, &mut self.images[index], &mut header);
            if said[index].is_none() && edge.absent() == Absent::Refused {
                self.images[index] = None;
            }
        }
        self.header = header;
        self.layout.times(said).ok_or(Failed)
    }

    /// Reads a sector; what lies past the end of a file reads as zeros. The header of the image is looked at before the next call after one that failed.
    pub(crate) fn read<R: Files<File = File> + Net<Stream = TcpStream> + Clock, E: Eprint>(
        &mut self,
        rt: &R,
        errors: &E,
        sector: u32,
        into: &mut [u8; SECTOR],
    ) -> Result<(), Failed>
        requires { sector < 3072 }
        ensures kept { (self.new.layout ≡ self.old.layout) × (self.new.wrote ≡ self.old.wrote) }
    {
        let (index, sector) = self.layout.place(sector);
        self.look_again(rt, errors, index)?;
        let image = self.images[index].as_mut().ok_or(Failed)?;
        let done = image.read(rt, sector, into);
        self.doubted[index] = done.is_err();
        tell(rt, errors, image.name(), &mut self.told[index], done)
    }

    /// Where the last call on one of three images failed, fails where its header is not that of the cluster: a new and empty image may be in its place.
    fn look_again<R: Files<File = File> + Net<Stream = TcpStream> + Clock, E: Eprint>(
        &mut self,
        rt: &R,
        errors: &E,
        index: usize,
    ) -> Result<(), Failed>
        requires { index < 3 }
        ensures layout { self.new.layout ≡ self.old.layout }
        ensures kept { (self.new.wrote ≡ self.old.wrote) × (self.new.doubted ≡ self.old.doubted) }
    {
        if !self.layout.is_looked_at(self.doubted[index]) {
            return Ok(());
        }
        let image = self.images[index].as_mut().ok_or(Failed)?;
        let done = check_header(rt, image, &self.header);
        tell(rt, errors, image.name(), &mut self.told[index], done)
    }

    /// Tries again to open the one of three images that is not open and has the header of the cluster, and gives its place where it was opened.
    pub(crate) fn open_again<
        R: Files<File = File> + Net<Stream = TcpStream> + Clock + AllocGlobal,
        E: Eprint,
    >(&mut self, rt: &R, errors: &E) -> Option<u8>
        ensures few { IfSome result (λ place. place < 3) }
        ensures kept { (self.new.layout ≡ self.old.layout) × (self.new.wrote ≡ self.old.wrote) }
    {
        let mut again = self.again.take()?;
        let place = if opened(&self.images) < 3 {
            self.try_again(rt, errors, &mut again)
        } else {
            None
        };
        self.again = Some(again);
        place
    }

    /// The same, where the moment has come, and sets the next one.
    fn try_again<R: Files<File = File> + Net<Stream = TcpStream> + Clock + AllocGlobal, E: Eprint>(
        &mut self,
        rt: &R,
        errors: &E,
        again: &mut Again,
    ) -> Option<u8>
        ensures few { IfSome result (λ place. place < 3) }
        ensures kept { (self.new.layout ≡ self.old.layout) × (self.new.wrote ≡ self.old.wrote) }
    {
        let began = rt.monotonic().ok()?;
        if began < again.from {
            return None;
        }
        let place = self.open_missing(rt, errors, again);
        let now = rt.monotonic().unwrap_or(began);
        let took = now.saturating_sub(began);
        again.from = now.saturating_add(took.saturating_mul(TRY_SHARE));
        place
    }

    /// Opens those of three images that are not open and have the header of the cluster, and gives the place of the last one that was opened.
    fn open_missing<
        R: Files<File = File> + Net<Stream = TcpStream> + Clock + AllocGlobal,
        E: Eprint,
    >(&mut self, rt: &R, errors: &E, again: &Again) -> Option<u8>
        ensures few { IfSome result (λ place. place < 3) }
        ensures kept { (self.new.layout ≡ self.old.layout) × (self.new.wrote ≡ self.old.wrote) }
    {
        let (first, second, third) = three_paths(again.word.as_str()).ok()?;
        let has_first = self.open_at(rt, errors, again.opener, 0, first);
        let has_second = self.open_at(rt, errors, again.opener, 1, second);
        let has_third = self.open_at(rt, errors, again.opener, 2, third);
        match (has_first, has_second, has_third) {
            (_, _, true) => Some(2),
            (_, true, false) => Some(1),
            (true, false, false) => Some(0),
            (false, false, false) => None,
        }
    }

    /// Opens the image at that place by that word, where it is not open, and gives whether it was opened: it has the header of the cluster.
    fn open_at<R: Files<File = File> + Net<Stream = TcpStream> + Clock + AllocGlobal, E: Eprint>(
        &mut self,
        rt: &R,
        errors: &E,
        opener: Opener,
        index: usize,
        word: &str,
    ) -> bool
        requires { index < 3 }
        ensures kept { (self.new.layout ≡ self.old.layout) × (self.new.wrote ≡ self.old.wrote) }
    {
        if self.images[index].is_some() {
            return false;
        }
        let found = open_as(rt, errors, word, opener, &self.header);
        self.images[index] = kept(rt, errors, word, &mut self.told[index], found);
        self.images[index].is_some()
    }

    /// Writes a sector and has it pushed to the disk. Sector 0 of an image is written only under the exclusive lock, which is
    /// then held while the image is open; where that lock is not to be had, or something is there that is not to be written over, the image is
    /// closed, since its shared lock is lost.
    pub(crate) fn write<R: Files<File = File> + Net<Stream = TcpStream> + Clock, E: Eprint>(
        &mut self,
        rt: &R,
        errors: &E,
        sector: u32,
        from: &[u8; SECTOR],
        overwrites: Overwrites,
    ) -> Result<(), Failed>
        requires { sector < 3072 }
        ensures wrote { self.new.wrote
            ≡ slice_set self.old.wrote (image_of self.old.layout sector) (is_ok result) }
        ensures layout { self.new.layout ≡ self.old.layout }
    {
        let (index, sector) = self.layout.place(sector);
        if sector == 0 {
            let open = self.images[index].take();
            self.images[index] = open.and_then(|image| locked(rt, errors, image, from, overwrites));
        }
        let done = self.write_at(rt, errors, index, sector, from);
        self.wrote[index] = done.is_ok();
        done
    }

    /// Writes a sector of the image at that place, where that is open.
    fn write_at<R: Files<File = File> + Net<Stream = TcpStream> + Clock, E: Eprint>(
        &mut self,
        rt: &R,
        errors: &E,
        index: usize,
        sector: u32,
        from: &[u8; SECTOR],
    ) -> Result<(), Failed>
        requires image { index < 3 }
        requires sector { sector < 3072 }
        ensures layout { self.new.layout ≡ self.old.layout }
        ensures kept { self.new.wrote ≡ self.old.wrote }
    {
        self.look_again(rt, errors, index)?;
        let image = self.images[index].as_mut().ok_or(Failed)?;
        let done = image.write(rt, sector, from);
        self.doubted[index] = done.is_err();
        tell(rt, errors, image.name(), &mut self.told[index], done)?;
        if sector == 0 {
            warn_of_feeds(errors, image.name(), from);
        }
        Ok(())
    }

    /// Whether the last write was done, of three images that to two of them: then no write of it can land later and count.
    pub(crate) fn is_written(&self) -> bool
        ensures { result ≡ is_written self.now.layout self.now.wrote }
    {
        self.layout.is_written(self.wrote)
    }

    /// Ends the boot of a node that has left, in each image that knows of boots. Where that fails another machine cannot open the node
    /// there, which a line on standard error says.
    pub(crate) fn end_boot<R: Net<Stream = TcpStream> + Clock, E: Eprint>(
        &mut self,
        rt: &R,
        errors: &E,
    ) {
        'images: for image in &mut self.images {
            if let Some(image) = image {
                let done = image.end_boot(rt);
                let _ = reported(errors, image.name(), done);
            }
        }
    }
}

fn open_image<R: Files<File = File> + Net<Stream = TcpStream> + Clock + AllocGlobal, E: Eprint>(
    rt: &R,
    errors: &E,
    word: &str,
    opener: Opener,
    absent: Absent,
) -> Result<Image, Failed> {
    let image = reported(errors, word, Image::open(rt, errors, word, opener, absent))?;
    say_made(errors, &image);
    Ok(image)
}

/// Says that the file of an image was made, where it was.
fn say_made<E: Eprint>(errors: &E, image: &Image) {
    if image.is_made() {
        let name = image.name();
        let _ = eprintln!(errors; "quorumd: {name}: nothing was there, and an empty file was made");
    }
}

/// Opens the three images of a word, of which at least two have to be there. The third is tried again later.
fn open_three<R: Files<File = File> + Net<Stream = TcpStream> + Clock + AllocGlobal, E: Eprint>(
    rt: &R,
    errors: &E,
    word: &str,
    opener: Opener,
    absent: Absent,
) -> Result<Disk, Failed> {
    let (first, second, third) = reported(errors, word, three_paths(word))?;
    let kept_word = String::from_str(rt.alloc(), word).map_err(|_| Failed)?;
    let mut disk = Disk::of(Layout::Three, [None, None, None]);
    'images: for (index, word) in [first, second, third].iter().enumerate() {
        let found = Image::open(rt, errors, word, opener, absent);
        disk.images[index] = kept(rt, errors, word, &mut disk.told[index], found);
    }
    if opened(&disk.images) < 2 {
        return Err(Failed);
    }
    disk.again = Some(Again {
        word: kept_word,
        opener,
        from: Duration::ZERO,
    });
    Ok(disk)
}

/// The image that was opened by that word; where it was not, a line says why.
fn kept<C: Clock, E: Eprint>(
    clock: &C,
    errors: &E,
    word: &str,
    told: &mut Option<Told>,
    found: io::Result<Image>,
) -> Option<Image> {
    match found {
        Ok(image) => {
            say_made(errors, &image);
            Some(image)
        }
        Err(error) => {
            let _ = tell(clock, errors, word, told, Err(error));
            None
        }
    }
}

/// Opens the image of that word, which is there and has this header.
fn open_as<R: Files<File = File> + Net<Stream = TcpStream> + Clock + AllocGlobal, E: Eprint>(
    rt: &R,
    errors: &E,
    word: &str,
    opener: Opener,
    header: &Option<[u8; SECTOR]>,
) -> io::Result<Image> {
    let mut image = Image::open(rt, errors, word, opener, Absent::Refused)?;
    check_header(rt, &mut image, header)?;
    Ok(image)
}

/// Fails where the first sector of an image is not that header.
fn check_header<R: Files<File = File> + Net<Stream = TcpStream> + Clock>(
    rt: &R,
    image: &mut Image,
    header: &Option<[u8; SECTOR]>,
) -> io::Result<()> {
    let mut sector = [0; SECTOR];
    image.read(rt, 0, &mut sector)?;
    if is_header(&sector, header) {
        Ok(())
    } else {
        Err(io::Error::other("no image of this cluster: its first sector is another one"))
    }
}

/// Whether a first sector is that header.
fn is_header(sector: &[u8; SECTOR], header: &Option<[u8; SECTOR]>) -> bool
    ensures { IsTrue result ↔ header.now ≡ Some sector.now }
{
    match header {
        Some(header) => sector == header,
        None => false,
    }
}

/// The paths of a word with exactly two commas.
fn three_paths(word: &str) -> io::Result<(&str, &str, &str)> {
    let no_three = Err(io::Error::from(ErrorKind::InvalidInput));
    let Some((first, rest)) = word.split_once(',') else {
        return no_three;
    };
    match rest.split_once(',') {
        Some((second, third)) if !third.contains(',') => Ok((first, second, third)),
        _ => no_three,
    }
}

/// How many of the images are open.
fn opened(images: &[Option<Image>; 3]) -> usize {
    images.iter().filter(|image| image.is_some()).count()
}

/// The image under its exclusive lock, into whose first sector these bytes are to be written; None where the lock is not to be had, or where zeros,
/// which are the first bytes of a new image, would go over what is not to be written over.
fn locked<R: Files<File = File> + Net<Stream = TcpStream> + Clock, E: Eprint>(
    rt: &R,
    errors: &E,
    mut image: Image,
    from: &[u8; SECTOR],
    overwrites: Overwrites,
) -> Option<Image> {
    let was_made = image.is_made();
    let done = image.lock(rt);
    if !was_made {
        say_made(errors, &image);
    }
    reported(errors, image.name(), done).ok()?;
    if is_zeros(from) {
        let found = found_at(rt, &mut image, overwrites);
        if let Some(found) = reported(errors, image.name(), found).ok()? {
            let name = image.name();
            let _ = eprintln!(errors; "quorumd: {name}: {found}");
            return None;
        }
    }
    Some(image)
}

/// Says that the feed delay of a header that was written is short, where it is.
fn warn_of_feeds<E: Eprint>(errors: &E, name: &str, header: &[u8; SECTOR]) {
    let Some((_, timing)) = get_header(header) else {
        return;
    };
    if let Some(short) = ShortFeedDelay::of(timing.feed_delay) {
        let _ = eprintln!(errors; "quorumd: {name}: {short}");
    }
}

/// What a call on an image came to. Where it failed a line says why, and the same at most once a minute.
fn tell<C: Clock, E: Eprint>(
    clock: &C,
    errors: &E,
    name: &str,
    told: &mut Option<Told>,
    done: io::Result<()>,
) -> Result<(), Failed>
    ensures { is_ok result ≡ is_ok done }
{
    let Err(error) = done else {
        return Ok(());
    };
    let now = clock.monotonic().unwrap_or(Duration::ZERO);
    let kind = error.kind();
    if told.is_some_and(|told| told.kind == kind && now < told.until) {
        return Err(Failed);
    }
    let until = now.saturating_add(Duration::from_millis(BETWEEN_LINES));
    *told = Some(Told { kind, until });
    reported(errors, name, Err(error))
}

/// Keeps a header, where none is kept.
fn keep_first(header: &mut Option<[u8; SECTOR]>, sector: &[u8; SECTOR]) {
    if header.is_none() {
        let copy = *sector;
        *header = Some(copy);
    }
}

/// The times of the header of an image, where it is open and has one, which is kept where it is the first. Where a word of a machine was said before
/// the command the header is judged, and a line says why it is not taken.
fn read_times<R: Files<File = File> + Net<Stream = TcpStream> + Clock, E: Eprint>(
    rt: &R,
    errors: &E,
    edge: &Edge,
    image: &mut Option<Image>,
    header: &mut Option<[u8; SECTOR]>,
) -> Option<Times> {
    let image = image.as_mut()?;
    let mut sector = [0; SECTOR];
    let read = image.read(rt, 0, &mut sector);
    let name = image.name();
    match edge.absent() {
        Absent::Made => {
            read.ok()?;
            let (_, timing) = get_header(&sector)?;
            keep_first(header, &sector);
            Some(header_times(&timing))
        }
        Absent::Refused => {
            reported(errors, name, read).ok()?;
            match times_of(&sector, edge.nodes()) {
                Ok(times) => {
                    keep_first(header, &sector);
                    Some(times)
                }
                Err(fault) => {
                    let _ = eprintln!(errors; "quorumd: {name}: {fault}");
                    None
                }
            }
        }
    }
}
