//! The table of sizes.

ghost use Rattle.std.specs.Prelude.{◌≡◌, ◌<◌, ◌≤◌, ◌^◌, None, length, replicate, slice_set, IfOk, IfSome, OnOk};
ghost use Rattle.dw_types.specs.Sizes.{size_to};
ghost use Rattle.dw_types.specs.SizeTables.{size_at};
ghost use Rattle.dw_types.specs.StoredSizes.{size_in};

use crate::numbers::Numbers;
use dw_entries::EntryId;
use std::alloc::{AllocError, Global};
use std::marker::Model;

/// The size of each entry in bytes, or none, by the entry's number. An entry that is no type has none.
#[derive(Drop)]
pub struct SizeTable {
    /// 0 represents none, and each other number for the size before it.
    sizes: Numbers,
}

impl Model for SizeTable {
    ghost use Rattle.std.specs.Prelude.{List};
    ghost use Rattle.dw_types.specs.SizeTables.{Size};
    ghost use Rattle.dw_types.specs.StoredSizes.{sizes_in};

    ghost Value = { List Size };

    ghost view = { λ it. sizes_in it.sizes };
}

impl SizeTable {
    /// No size at each of so many entries.
    pub(crate) fn none(alloc: Global, count: usize) -> Result<Self, AllocError>
        ensures { IfOk result (λ table. table ≡ replicate count None) }
    {
        Ok(SizeTable {
            sizes: Numbers::zeros(alloc, count)?,
        })
    }

    /// The size of an entry.
    pub fn get(&self, id: EntryId) -> Option<u64>
        requires { id < length self.now }
        ensures { result ≡ size_at self.now id }
    {
        match self.sizes.get(id.number()) {
            0 => None,
            number => Some((number - 1) as u64),
        }
    }

    /// The size of the entry that is named, if one is.
    pub(crate) fn get_to(&self, target: Option<EntryId>) -> Option<u64>
        requires { IfSome target (λ to. to < length self.now) }
        ensures { result ≡ size_to (size_at self.now) target }
    {
        self.get(target?)
    }

    /// Writes the size of an entry, which is at most 2^63.
    pub(crate) fn set(
        &mut self,
        alloc: Global,
        id: EntryId,
        size: Option<u64>,
    ) -> Result<(), AllocError>
        requires id_in { id < length self.old }
        requires small { IfSome size (λ n. n ≤ 2 ^ 63) }
        ensures { OnOk result (self.new ≡ slice_set self.old id size) }
    {
        self.sizes.set(alloc, id.number(), stored(size))
    }
}

/// The number that represents a size.
fn stored(size: Option<u64>) -> usize
    requires { IfSome size (λ n. n ≤ 2 ^ 63) }
    ensures { size_in result ≡ size }
{
    match size {
        Some(size) => size as usize + 1,
        None => 0,
    }
}
