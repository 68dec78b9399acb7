//! Which unit has an address: the first one if several have it.

ghost use Rattle.std.specs.Prelude.{◌≡◌, ◌+◌, ◌^◌, ◌-◌, ◌≤◌, ◌<◌, ◌↔◌, ◌∷◌, [], ◌++◌, ◌⊎◌, ℕ, length, max};
ghost use Rattle.std.specs.Prelude.{All, Contains, IfSome, IfNone, OnOk};
ghost use Rattle.std.specs.BinaryHeap.{IsHeap, heap_items};
ghost use Rattle.std.specs.List.Sorted.{IsNonDecreasingBy, IsPartitionPoint};
ghost use Rattle.dw_ranges.specs.UnitRanges.{AreUnitRanges, IsFirstBegun, IsFirstUnit, IsInUnit, UnitHas, order_of};

use std::alloc::{AllocError, AllocFailed, Global};
use std::cmp::Reverse;
use std::collections::BinaryHeap;

/// Addresses of a unit's code.
#[derive(Clone, Copy, Debug, PartialEq, Eq)]
pub struct UnitRange {
    pub low: u64,
    /// The address after the last one.
    pub high: u64,
    /// The number of the unit.
    pub unit: usize,
}

/// Appends a range that starts after the others end, if it has an address.
fn push_some(ranges: &mut Vec<UnitRange>, range: UnitRange) -> Result<(), AllocFailed<UnitRange>>
    requires ranges { AreUnitRanges ranges.old.items }
    requires before { All (λ r. r.high ≤ range.low) ranges.old.items }
    ensures ranges { OnOk result (AreUnitRanges ranges.new.items) }
    ensures has { OnOk result ((a unit : ℕ)
        → UnitHas ranges.new.items a unit ↔ (UnitHas ranges.old.items a unit ⊎ IsInUnit a unit range)) }
    ensures before { OnOk result (All (λ r. r.high ≤ max range.low range.high) ranges.new.items) }
{
    if range.low < range.high {
        ranges.push(range)?;
    }
    Ok(())
}

/// Appends the ranges of the first unit that is begun, from an address on and below a limit. Takes those from `begun`
/// that end before.
fn close(
    begun: &mut BinaryHeap<Reverse<(usize, u64)>>,
    from: u64,
    limit: u64,
    ranges: &mut Vec<UnitRange>,
) -> Result<(), AllocFailed<UnitRange>>
    requires heap { IsHeap order_of (heap_items begun.old) }
    requires rise { from ≤ limit }
    requires ranges { AreUnitRanges ranges.old.items × All (λ r. r.high ≤ from) ranges.old.items }
    ensures heap { OnOk result (IsHeap order_of (heap_items begun.new)) }
    ensures ranges { OnOk result (AreUnitRanges ranges.new.items) }
    ensures before { OnOk result (All (λ r. r.high ≤ limit) ranges.new.items) }
    ensures earlier { OnOk result ((a unit : ℕ) → a < from
        → UnitHas ranges.new.items a unit ↔ UnitHas ranges.old.items a unit) }
    ensures found { OnOk result ((a unit : ℕ) → from ≤ a → a < limit
        → UnitHas ranges.new.items a unit ↔ IsFirstBegun (heap_items begun.old) a unit) }
    ensures fewer { OnOk result (All (Contains (heap_items begun.old)) (heap_items begun.new)) }
    ensures kept { OnOk result (All (λ x. limit < x.0.1 → Contains (heap_items begun.new) x) (heap_items begun.old)) }
{
    let mut at = from;
    while let Some(top) = begun.peek() {
        let Reverse((unit, high)) = *top;
        let end = high.min(limit);
        push_some(
            ranges,
            UnitRange {
                low: at,
                high: end,
                unit,
            },
        )?;
        at = at.max(end);
        if limit < high {
            return Ok(());
        }
        let _ = begun.pop();
    }
    Ok(())
}

/// Appends the ranges of the first unit of each address, of ranges in rising order that may share addresses.
fn append_firsts(
    alloc: Global,
    all: &[UnitRange],
    ranges: &mut Vec<UnitRange>,
) -> Result<(), AllocError>
    requires { IsNonDecreasingBy (λ r. r.low) all.now }
    ensures ranges { OnOk result (AreUnitRanges ranges.new.items) }
    ensures found { OnOk result ((a unit : ℕ) → UnitHas ranges.new.items a unit ↔ IsFirstUnit all.now a unit) }
{
    ranges.clear();
    let mut begun = BinaryHeap::new(alloc);
    let mut from = 0;
    for range in all {
        close(&mut begun, from, range.low, ranges)?;
        from = range.low;
        begun.push(Reverse((range.unit, range.high)))?;
    }
    close(&mut begun, from, u64::MAX, ranges)?;
    Ok(())
}

/// Makes `ranges` those of the first unit of each address, of ranges of units that may share addresses. Reorders `all`.
pub fn first_units(
    alloc: Global,
    all: &mut [UnitRange],
    ranges: &mut Vec<UnitRange>,
) -> Result<(), AllocError>
    ensures ranges { OnOk result (AreUnitRanges ranges.new.items) }
    ensures found { OnOk result ((a unit : ℕ) → UnitHas ranges.new.items a unit ↔ IsFirstUnit all.old a unit) }
{
    all.sort_unstable_by_key(|range| range.low);
    append_firsts(alloc, all, ranges)
}

/// How many ranges start at an address or below it.
fn ranges_up_to(ranges: &[UnitRange], address: u64) -> usize
    requires { IsNonDecreasingBy (λ r. r.low) ranges.now }
    ensures within { result ≤ length ranges.now }
    ensures up_to { IsPartitionPoint (λ r. r.low ≤ address) (λ r. address < r.low) ranges.now result }
{
    ranges.partition_point(|range| range.low <= address)
}

/// The unit that has an address.
pub fn unit_at(ranges: &[UnitRange], address: u64) -> Option<usize>
    requires { AreUnitRanges ranges.now }
    ensures found { IfSome result (UnitHas ranges.now address) }
    ensures none { IfNone result ((unit : ℕ) → ¬ (UnitHas ranges.now address unit)) }
{
    let after = ranges_up_to(ranges, address);
    if after == 0 {
        return None;
    }
    let range = ranges[after - 1];
    if range.high <= address {
        return None;
    }
    Some(range.unit)
}
