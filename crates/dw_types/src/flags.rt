//! A bit for each entry, or for each node of a graph.

ghost use Rattle.std.specs.Prelude.{◌≡◌, ◌<◌, ◌≤◌, ◌&&◌, ◌||◌, ℕ, true, false, nat_eq, IfOk};
ghost use Rattle.dw_types.specs.StoredFlags.{flag_at, flag_count};

use std::alloc::{AllocError, Global};

/// How many flags a word has.
const WORD: usize = 64;

/// Flags of entries, or of the nodes of a graph, by their numbers, one bit each.
#[derive(Drop)]
pub struct Flags {
    words: Vec<u64>,
}

impl Flags {
    /// At least so many flags, all of them false.
    pub(crate) fn none(alloc: Global, count: usize) -> Result<Self, AllocError>
        ensures room { IfOk result (λ flags. count < flag_count flags) }
        ensures none { IfOk result (λ flags. (k : ℕ) → flag_at flags k ≡ false) }
    {
        Ok(Flags {
            words: vec![in alloc; 0u64; count / WORD + 1]?,
        })
    }

    /// The flag of a number.
    #[inline(always)]
    pub(crate) fn get(&self, number: usize) -> bool
        requires { number < flag_count self.now }
        ensures { result ≡ flag_at self.now number }
    {
        (self.words[number / WORD] >> (number % WORD)) & 1 == 1
    }

    /// Sets the flag of a number if a test is true.
    #[inline(always)]
    pub(crate) fn set_if(&mut self, number: usize, is: bool)
        requires { number < flag_count self.old }
        ensures room { flag_count self.new ≡ flag_count self.old }
        ensures set { (k : ℕ) → flag_at self.new k ≡ ((is && nat_eq k number) || flag_at self.old k) }
    {
        if is {
            self.words[number / WORD] |= 1 << (number % WORD);
        }
    }

    /// The same flags.
    pub(crate) fn copy(&self, alloc: Global) -> Result<Self, AllocError>
        ensures { IfOk result (λ it. it.words.items ≡ self.now.words.items) }
    {
        let mut words = Vec::new(alloc);
        words.extend_from_slice(self.words.as_slice())?;
        Ok(Flags { words })
    }

    /// The first number from one on, and before another, whose flag is set. That other if there is none.
    #[inline(always)]
    pub(crate) fn next(&self, from: usize, end: usize) -> usize
        requires from { from ≤ end }
        requires end { end < flag_count self.now }
        ensures within { (from ≤ result) × (result ≤ end) }
        ensures none { (k : ℕ) → from ≤ k → k < result → flag_at self.now k ≡ false }
        ensures set { result < end → flag_at self.now result ≡ true }
    {
        let mut at = from;
        while at < end {
            let bits = self.words[at / WORD] >> (at % WORD);
            if bits != 0 {
                return (at + bits.trailing_zeros() as usize).min(end);
            }
            at = (at / WORD * WORD).saturating_add(WORD);
        }
        end
    }
}

/// A flag for each entry that is a type without steps by value, and one for each that is a member.
#[derive(Drop)]
pub struct SizeFlags {
    pub(crate) leaves: Flags,
    pub(crate) members: Flags,
}
