//! Where entries start.

ghost use Rattle.std.specs.Prelude.{◌<◌, ◌^◌, ◌≡◌, ◌≤◌, IfOk, IfSome, length};
ghost use Rattle.dw_entries.specs.Starts.{AreInOrder, AreStarts, IsNextIn, StartsToo, number_at};
ghost use Rattle.dw_entries.specs.Starts.{number_from as number_of};

use crate::records::Record;
use std::alloc::{AllocError, Global};

/// How many bytes of .debug_info a block has.
const BLOCK: usize = 32;

/// Which entries start in a block.
#[derive(Clone, Copy, Debug)]
pub struct Block {
    /// The number of the first of them. Of no meaning if there is none.
    pub first: u32,
    /// A bit for each byte, the lowest for the first: whether an entry starts there.
    pub bits: u32,
}

impl Block {
    /// The number of the entry that starts at a byte of the block, if one does.
    #[inline(always)]
    fn number(self, byte: u32) -> Option<u32>
        requires byte { byte < 32 }
        requires fits { IfSome (number_at self byte) (λ n. n < 2 ^ 32) }
        ensures { result ≡ number_at self byte }
    {
        let bit = 1 << byte;
        if self.bits & bit == 0 {
            return None;
        }
        let before = self.bits & (bit - 1);
        Some(self.first + before.count_ones())
    }

    /// The block, where also the entry of this number starts.
    #[inline(always)]
    fn with(self, byte: u32, number: u32) -> Block
        requires byte { byte < 32 }
        requires next { IsNextIn self byte number }
        ensures { StartsToo self byte number result }
    {
        Block {
            first: if self.bits == 0 { number } else { self.first },
            bits: self.bits | 1 << byte,
        }
    }
}

/// The number of the entry that starts so many bytes after the first block does, if one does.
#[inline(always)]
pub fn number_from(blocks: &[Block], offset: u64) -> Option<u32>
    requires { IfSome (number_of blocks.now offset) (λ n. n < 2 ^ 32) }
    ensures { result ≡ number_of blocks.now offset }
{
    let block = (offset / BLOCK as u64) as usize;
    if block >= blocks.len() {
        return None;
    }
    blocks[block].number((offset % BLOCK as u64) as u32)
}

/// Where records start, all of them from `base` on and below `end`.
pub fn read_starts(
    alloc: Global,
    base: usize,
    end: usize,
    records: &[Record],
) -> Result<Vec<Block>, AllocError>
    requires base { base ≤ end }
    requires order { AreInOrder records.now base end }
    requires few { length records.now ≤ 2 ^ 32 }
    ensures { IfOk result (λ blocks. AreStarts records.now base blocks.items) }
{
    let mut blocks = vec![in alloc; Block { first: 0, bits: 0 }; (end - base) / BLOCK + 1]?;
    for number in 0..records.len() {
        let at = records[number].at as usize - base;
        let block = at / BLOCK;
        blocks[block] = blocks[block].with((at % BLOCK) as u32, number as u32);
    }
    Ok(blocks)
}
