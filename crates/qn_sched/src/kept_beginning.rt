//! The beginning of a trace line, of which mostly one digit alone is another one than in the line before.
ghost use Rattle.std.specs.Prelude.{◌≡◌, ◌≤◌, ◌+◌, ◌++◌, ◌∷◌, length, decimal};
ghost use Rattle.qn_sched.specs.TraceLines.{time_text};

use arrayvec::ArrayVec;
use qn_base::{add, add_number};
use std::marker::Model;

/// The number and the time of a line, kept for the next line: one that has the same time, and the same number but for its
/// last digit, has this text with another digit at that place.
#[derive(Drop)]
pub(crate) struct KeptBeginning {
    tens: u64,
    digit: u8,
    time: u64,
    place: usize,
    text: ArrayVec<u8, 50>,
}

impl Model for KeptBeginning {
    ghost use Rattle.std.specs.Prelude.{◌≡◌, ◌+◌, ◌++◌, ◌∷◌, ℕ, length, decimal};
    ghost use Rattle.qn_sched.specs.TraceLines.{time_text};

    ghost Value = { (ℕ × ℕ) × ℕ };

    ghost view = { λ k. ((k.tens, k.digit), k.time) };

    ghost invariant = { λ k.
        (k.text.items ≡ decimal k.tens ++ (48 + k.digit) ∷ time_text k.time)
        × (k.place ≡ length (decimal k.tens)) };
}

impl KeptBeginning {
    ghost use Rattle.std.specs.Prelude.{◌≡◌, ◌≤◌, ◌+◌, ◌<◌, ◌/◌, ◌++◌, length, decimal};
    ghost use Rattle.qn_sched.specs.TraceLines.{time_text};

    /// The beginning of the lines of the numbers below 10 at time 0.
    pub(crate) fn new() -> KeptBeginning {
        let mut text = ArrayVec::new();
        let place = write_beginning(&mut text, 0, 0);
        KeptBeginning {
            tens: 0,
            digit: 0,
            time: 0,
            place,
            text,
        }
    }

    /// Adds a number and a time, in decimal digits, at the end of a list that has room for 50 bytes.
    pub(crate) fn add(&mut self, into: &mut ArrayVec<u8, 4096>, number: u64, time: u64)
        requires { length into.old.items + 50 ≤ 4096 }
        ensures text { into.new.items ≡ into.old.items ++ (decimal number ++ time_text time) }
        ensures len { length into.new.items ≤ length into.old.items + 50 }
    {
        if number < 10 {
            add_beginning(into, number, time);
        } else {
            self.keep(number / 10, time);
            self.add_kept(into, number);
        }
    }

    /// Keeps the text of the numbers that have these digits before their last one, at this time.
    fn keep(&mut self, tens: u64, time: u64)
        ensures tens { self.new.0.0 ≡ tens }
        ensures time { self.new.1 ≡ time }
    {
        if tens != self.tens || time != self.time {
            self.rewrite(tens, time);
        }
    }

    /// The same, where another text was kept.
    #[inline(never)]
    fn rewrite(&mut self, tens: u64, time: u64)
        ensures tens { self.new.0.0 ≡ tens }
        ensures time { self.new.1 ≡ time }
    {
        self.place = write_beginning(&mut self.text, tens, time);
        self.tens = tens;
        self.digit = 0;
        self.time = time;
    }

    /// Adds a number of which all but the last digit is kept, and the time that is kept.
    #[tactic(auto, using(crate::proofs::LastDigits::with_last))]
    fn add_kept(&mut self, into: &mut ArrayVec<u8, 4096>, number: u64)
        requires room { length into.old.items + 50 ≤ 4096 }
        requires long { 10 ≤ number }
        requires kept { self.old.0.0 ≡ number / 10 }
        ensures text { into.new.items
            ≡ into.old.items ++ (decimal number ++ time_text self.old.1) }
        ensures len { length into.new.items ≤ length into.old.items + 50 }
    {
        self.set_digit((number % 10) as u8);
        add(into, self.text.as_slice());
    }

    /// Another last digit stands in the text.
    fn set_digit(&mut self, digit: u8)
        requires { digit < 10 }
        ensures { self.new ≡ ((self.old.0.0, digit), self.old.1) }
    {
        let place = self.place;
        self.text.as_mut_slice()[place] = b'0' + digit;
        self.digit = digit;
    }
}

/// Writes a number with the digit 0 behind it and a time over `into`, and gives the place of that digit.
fn write_beginning(into: &mut ArrayVec<u8, 50>, tens: u64, time: u64) -> usize
    ensures text { into.new.items ≡ decimal tens ++ 48 ∷ time_text time }
    ensures place { result ≡ length (decimal tens) }
{
    into.clear();
    add_number(into, tens);
    let place = into.len();
    into.push(b'0');
    add(into, b" ");
    add_number(into, time);
    place
}

/// Adds a number and a time, of which nothing is kept.
#[inline(never)]
pub(crate) fn add_beginning(into: &mut ArrayVec<u8, 4096>, number: u64, time: u64)
    requires { length into.old.items + 50 ≤ 4096 }
    ensures text { into.new.items ≡ into.old.items ++ (decimal number ++ time_text time) }
    ensures len { length into.new.items ≤ length into.old.items + 50 }
{
    add_number(into, number);
    add(into, b" ");
    add_number(into, time);
}
