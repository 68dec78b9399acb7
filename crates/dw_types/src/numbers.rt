//! Vectors of numbers in four bytes each, while all of them fit.

ghost use Rattle.std.specs.Prelude.{◌≡◌, ◌+◌, ◌-◌, ◌<◌, ◌≤◌, [], ◌∷◌, ◌++◌, ℕ, List, length, replicate, slice_index};
ghost use Rattle.std.specs.Prelude.{slice_set, take, IfOk, MatchOption, OnOk};

use std::alloc::{AllocError, Global};
use std::marker::Model;

/// An allocation failed.
#[derive(Clone, Copy, Debug, PartialEq, Eq)]
pub struct NoMemory;

impl From<AllocError> for NoMemory {
    fn from(_error: AllocError) -> NoMemory {
        NoMemory
    }
}

/// Numbers in four bytes each. From the first one on that is added and does not fit, each has eight.
#[derive(Drop)]
pub struct Numbers {
    small: Vec<u32>,
    large: Vec<usize>,
}

impl Model for Numbers {
    ghost Value = { List ℕ };

    ghost view = { λ it. it.small.items ++ it.large.items };
}

impl Numbers {
    /// No numbers, and room for so many.
    pub fn with_room(alloc: Global, count: usize) -> Result<Self, AllocError>
        ensures { IfOk result (λ it. it ≡ []) }
    {
        Ok(Numbers {
            small: Vec::with_capacity(alloc, count)?,
            large: Vec::new(alloc),
        })
    }

    /// Numbers of four bytes.
    pub(crate) fn from_small(alloc: Global, small: Vec<u32>) -> Self
        ensures { result ≡ small.items }
    {
        Numbers {
            small,
            large: Vec::new(alloc),
        }
    }

    /// The number 0 so many times.
    pub fn zeros(alloc: Global, count: usize) -> Result<Self, AllocError>
        ensures { IfOk result (λ it. it ≡ replicate count 0) }
    {
        Ok(Numbers {
            small: vec![in alloc; 0; count]?,
            large: Vec::new(alloc),
        })
    }

    /// How many numbers there are.
    pub fn len(&self) -> usize
        ensures { result ≡ length self.now }
    {
        self.small.len() + self.large.len()
    }

    /// The number at a place.
    #[inline(always)]
    pub fn get(&self, place: usize) -> usize
        requires { place < length self.now }
        ensures { result ≡ slice_index self.now place }
    {
        self.get_behind(place, 0)
    }

    /// The number so many places after another.
    #[inline(always)]
    pub(crate) fn get_behind(&self, start: usize, count: usize) -> usize
        requires { start + count < length self.now }
        ensures { result ≡ slice_index self.now (start + count) }
    {
        let small = self.small.len();
        let place = start + count;
        if place < small {
            self.small[place] as usize
        } else {
            self.large[place - small]
        }
    }

    /// How much larger a number is than the one before it, or than 0 if it is the first.
    #[inline(always)]
    pub(crate) fn rise(&self, place: usize) -> usize
        requires place { place < length self.now }
        requires rises { slice_index (0 ∷ self.now) place ≤ slice_index self.now place }
        ensures { result ≡ slice_index self.now place - slice_index (0 ∷ self.now) place }
    {
        if place == 0 {
            return self.get(0);
        }
        if place < self.small.len() {
            return (self.small[place] - self.small[place - 1]) as usize;
        }
        self.get(place) - self.get(place - 1)
    }

    /// Adds a number at the end.
    #[inline(always)]
    pub fn push(&mut self, number: usize) -> Result<(), AllocError>
        ensures { OnOk result (self.new ≡ self.old ++ number ∷ []) }
    {
        if self.large.is_empty() && number <= 0xffff_ffff {
            self.small.push(number as u32)?;
        } else {
            self.large.push(number)?;
        }
        Ok(())
    }

    /// Adds a number until there are so many numbers.
    pub(crate) fn fill(&mut self, number: usize, count: usize) -> Result<(), AllocError>
        ensures { OnOk result (self.new ≡ self.old ++ replicate (count - length self.old) number) }
    {
        if self.large.is_empty() && number <= 0xffff_ffff {
            if self.small.len() < count {
                self.small.resize(count, number as u32)?;
            }
            return Ok(());
        }
        while self.len() < count {
            self.large.push(number)?;
        }
        Ok(())
    }

    /// Takes the last number away, if there is one.
    pub(crate) fn pop(&mut self) -> Option<usize>
        ensures { MatchOption result ((self.old ≡ []) × (self.new ≡ [])) (λ last. self.old ≡ self.new ++ last ∷ []) }
    {
        if let Some(last) = self.large.pop() {
            return Some(last);
        }
        Some(self.small.pop()? as usize)
    }

    /// Takes all numbers away.
    pub(crate) fn clear(&mut self)
        ensures { self.new ≡ [] }
    {
        self.small.clear();
        self.large.clear();
    }

    /// The numbers in eight bytes each.
    pub(crate) fn to_vec(&self, alloc: Global) -> Result<Vec<usize>, AllocError>
        ensures { IfOk result (λ all. all.items ≡ self.now) }
    {
        let count = self.len();
        let mut all = Vec::with_capacity(alloc, count)?;
        for place in 0..count {
            all.push(self.get(place))?;
        }
        Ok(all)
    }

    /// Writes a number at a place.
    pub fn set(&mut self, alloc: Global, place: usize, number: usize) -> Result<(), AllocError>
        requires { place < length self.old }
        ensures { OnOk result (self.new ≡ slice_set self.old place number) }
    {
        if place < self.small.len() && number <= 0xffff_ffff {
            self.small[place] = number as u32;
            return Ok(());
        }
        self.set_large(alloc, place, number)
    }

    /// Writes a number in eight bytes at a place. Where four stood there, each number has eight from then on.
    fn set_large(&mut self, alloc: Global, place: usize, number: usize) -> Result<(), AllocError>
        requires { place < length self.old }
        ensures { OnOk result (self.new ≡ slice_set self.old place number) }
    {
        if place < self.small.len() {
            self.large = self.to_vec(alloc)?;
            self.small = Vec::new(alloc);
        }
        let behind = place - self.small.len();
        self.large[behind] = number;
        Ok(())
    }
}
