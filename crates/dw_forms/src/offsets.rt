//! What begins at which offset of a section.

ghost use Rattle.std.specs.Prelude.{◌≡◌, ◌<◌, ◌≤◌, ◌+◌, ◌⊎◌, ◌∷◌, ◌++◌, ℕ, [], length, get_or, OnOk};
ghost use Rattle.dw_forms.specs.Offsets.{AreEntered, AreBefore, BeginsAt, AreKnownFrom, NothingAt};

use std::alloc::{AllocError, Global};

/// Something that was read, and the offset of its first byte.
#[derive(Clone, Copy, Debug)]
pub struct Placed<T> {
    pub at: usize,
    pub item: T,
}

/// The offsets at which something of one kind begins, such as tables. What begins there is numbered from 1.
#[derive(Debug, Drop)]
pub struct Offsets {
    /// The offset of each number.
    pub(crate) starts: Vec<u32>,
    /// The number of what begins at each offset, or 0.
    numbers: Vec<u32>,
    /// How many of the offsets have their numbers there.
    entered: usize,
    /// Nothing begins at this offset or after it.
    end: usize,
    ghost few: { length starts.items ≤ 0xffffffff },
    ghost before: { AreBefore end starts.items },
    ghost within: { entered ≤ length starts.items },
    ghost known: { AreEntered entered starts.items numbers.items },
}

/// The offset after all things, with one more that begins at an offset.
fn end_after(end: usize, start: u32) -> usize
    ensures old { end ≤ result }
    ensures new { start < result }
    ensures least { (result ≡ end) ⊎ (result ≡ start + 1) }
{
    let start = start as usize;
    if start < end { end } else { start + 1 }
}

/// Makes room for the numbers at the offsets before an end.
fn make_room(numbers: &mut Vec<u32>, end: usize) -> Result<(), AllocError>
    ensures same { (offset : ℕ) → get_or numbers.new.items offset 0 ≡ get_or numbers.old.items offset 0 }
    ensures long { OnOk result (end ≤ length numbers.new.items) }
    ensures least { OnOk result ((length numbers.new.items ≡ length numbers.old.items)
        ⊎ (length numbers.new.items ≡ end)) }
{
    if numbers.len() < end {
        numbers.resize(end, 0)?;
    }
    Ok(())
}

/// Enters the numbers of the offsets, from the one after so many on.
fn enter(starts: &[u32], entered: usize, numbers: &mut [u32])
    requires few { length starts.now ≤ 0xffffffff }
    requires before { AreBefore (length numbers.old) starts.now }
    requires within { entered ≤ length starts.now }
    requires entered { AreEntered entered starts.now numbers.old }
    ensures { AreEntered (length starts.now) starts.now numbers.new }
{
    for place in entered..starts.len() {
        numbers[starts[place] as usize] = place as u32 + 1;
    }
}

impl Offsets {
    /// No offsets.
    pub fn new(alloc: Global) -> Offsets
        ensures { result.starts.items ≡ [] }
    {
        Offsets {
            starts: Vec::new(alloc),
            numbers: Vec::new(alloc),
            entered: 0,
            end: 0,
        }
    }

    /// Adds the offset of the next number.
    pub fn push(&mut self, start: u32) -> Result<(), AllocError>
        requires { length self.old.starts.items < 0xffffffff }
        ensures { OnOk result (self.new.starts.items ≡ self.old.starts.items ++ start ∷ []) }
    {
        let end = end_after(self.end, start);
        self.starts.push(start)?;
        self.end = end;
        Ok(())
    }

    /// Enters the number of each offset, if something begins at this offset or after it. Where things are read in the
    /// order of their offsets, that never happens.
    pub fn enter_from(&mut self, offset: usize) -> Result<(), AllocError>
        ensures same { self.new.starts.items ≡ self.old.starts.items }
        ensures known { OnOk result (AreKnownFrom offset self.new.starts.items self.new.numbers.items) }
    {
        if offset >= self.end {
            return Ok(());
        }
        make_room(&mut self.numbers, self.end)?;
        enter(&self.starts, self.entered, &mut self.numbers);
        self.entered = self.starts.len();
        Ok(())
    }

    /// The number of what begins at an offset, if it was entered, or 0.
    pub fn find(&self, offset: usize) -> u32
        ensures begins { 0 < result → BeginsAt self.now.starts.items result offset }
        ensures none { result ≡ 0 → (from : ℕ) → AreKnownFrom from self.now.starts.items self.now.numbers.items
            → from ≤ offset → NothingAt self.now.starts.items offset }
    {
        if offset < self.numbers.len() {
            self.numbers[offset]
        } else {
            0
        }
    }
}
