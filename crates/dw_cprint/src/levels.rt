//! The levels of the named types, by which their lines are in order.

ghost use Rattle.std.specs.Prelude.{◌≡◌, ◌<◌, ◌^◌, length, AllPairs, IsPermutation, IfOk};
ghost use Rattle.std.specs.List.{range_with_len};
ghost use Rattle.dw_cprint.specs.Judgements.{level_of};
ghost use Rattle.dw_cprint.specs.Listings.{AreNamedTypes, AreRanked, StandsBefore};

use dw_image::{EntryId, Image};
use dw_types::{Numbers, longest_at, longest_rows};
use std::alloc::{AllocError, Global};

/// The level of the named type with a number; 0 where there is none.
#[inline]
fn level_at(named: &[EntryId], levels: &Numbers, number: u32) -> usize
    ensures { result ≡ level_of levels.now named.now number }
{
    match named.get(number as usize) {
        Some(id) => longest_at(levels, id.number()),
        None => 0,
    }
}

/// The numbers below a count.
fn numbers_below(alloc: Global, count: u32) -> Result<Vec<u32>, AllocError>
    ensures { IfOk result (λ numbers. numbers.items ≡ range_with_len 0 count) }
{
    (0..count).collect(alloc)
}

/// The numbers of the named types, by rising level. Those of one level stay in rising offset. Each level is looked up
/// once.
fn numbers_by_level(
    alloc: Global,
    named: &[EntryId],
    levels: &Numbers,
) -> Result<Vec<u32>, AllocError>
    requires { length named.now < 2 ^ 32 }
    ensures all { IfOk result (λ numbers. IsPermutation (range_with_len 0 (length named.now)) numbers.items) }
    ensures sorted { IfOk result (λ numbers.
        AllPairs (λ j k. StandsBefore (level_of levels.now named.now) j k) numbers.items) }
{
    let mut numbers = numbers_below(alloc, named.len() as u32)?;
    numbers.sort_by_cached_key(|number| level_at(named, levels, *number))?;
    Ok(numbers)
}

/// The numbers of the named types, by rising level, then by rising offset. The level of an entry: how many steps by
/// value the longest path from it has.
pub fn numbers_in_order(
    alloc: Global,
    image: &Image<'_>,
    named: &[EntryId],
) -> Result<Vec<u32>, AllocError>
    requires { AreNamedTypes image.now named.now }
    ensures { IfOk result (λ numbers. AreRanked image.now named.now numbers.items) }
{
    let levels = longest_rows(alloc, image.by_value(), image.by_rank())?;
    let numbers = numbers_by_level(alloc, named, &levels)?;
    Ok(numbers)
}
