//! Areas: sets of addresses, as ranges in rising order that do not touch.

ghost use Rattle.std.specs.Prelude.{◌≡◌, ◌+◌, ◌≤◌, ◌<◌, ◌↔◌, ℕ, length, take, drop, All, HoldsAt, IfSome, IfNone};
ghost use Rattle.std.specs.Prelude.{IsTrue};
ghost use Rattle.std.specs.List.Sorted.{IsNonDecreasingBy, IsPartitionPoint};
ghost use Rattle.dw_ranges.specs.Areas.{AreAreas, Has, IsCovered, IsIn, Joins};

use crate::range::Range;

/// Adds a range to the areas at the front of a slice, of which none starts above it. Returns how many there are then.
fn add(ranges: &mut [Range], count: usize, range: Range) -> usize
    requires room { count < length ranges.old }
    requires areas { AreAreas (take count ranges.old) }
    requires below { All (λ r. r.low ≤ range.low) (take count ranges.old) }
    ensures within { result ≤ count + 1 }
    ensures joined { Joins (take count ranges.old) range (take result ranges.new) }
    ensures rest { drop (count + 1) ranges.new ≡ drop (count + 1) ranges.old }
{
    if range.low >= range.high {
        return count;
    }
    if count > 0 {
        let last = ranges[count - 1];
        if range.low <= last.high {
            ranges[count - 1] = Range {
                low: last.low,
                high: last.high.max(range.high),
            };
            return count;
        }
    }
    ranges[count] = range;
    count + 1
}

/// Joins ranges in rising order, in the slice that they are in. Returns how many areas are at its front.
fn join_sorted(ranges: &mut [Range]) -> usize
    requires { IsNonDecreasingBy (λ r. r.low) ranges.old }
    ensures within { result ≤ length ranges.new }
    ensures areas { AreAreas (take result ranges.new) }
    ensures same { (a : ℕ) → Has (take result ranges.new) a ↔ Has ranges.old a }
{
    let mut count = 0;
    for k in 0..ranges.len() {
        let range = ranges[k];
        count = add(ranges, count, range);
    }
    count
}

/// Makes ranges areas of the same addresses.
pub fn join(ranges: &mut Vec<Range>)
    ensures areas { AreAreas ranges.new.items }
    ensures same { (a : ℕ) → Has ranges.new.items a ↔ Has ranges.old.items a }
{
    ranges.sort_unstable_by_key(|range| range.low);
    let count = join_sorted(ranges.as_mut_slice());
    ranges.truncate(count);
}

/// How many areas start at an address or below it.
fn areas_up_to(areas: &[Range], address: u64) -> usize
    requires { IsNonDecreasingBy (λ r. r.low) areas.now }
    ensures within { result ≤ length areas.now }
    ensures up_to { IsPartitionPoint (λ r. r.low ≤ address) (λ r. address < r.low) areas.now result }
{
    areas.partition_point(|area| area.low <= address)
}

/// The number of the area that has an address, if one does.
pub fn area_at(areas: &[Range], address: u64) -> Option<usize>
    requires { AreAreas areas.now }
    ensures within { IfSome result (λ k. k < length areas.now) }
    ensures found { IfSome result (HoldsAt (IsIn address) areas.now) }
    ensures none { IfNone result (¬ (Has areas.now address)) }
{
    let after = areas_up_to(areas, address);
    if after == 0 || areas[after - 1].high <= address {
        return None;
    }
    Some(after - 1)
}

/// Whether every address of a range is in an area.
pub fn covers(areas: &[Range], range: Range) -> bool
    requires { AreAreas areas.now }
    ensures { IsTrue result ↔ IsCovered areas.now range }
{
    if range.low >= range.high {
        return true;
    }
    match area_at(areas, range.low) {
        Some(k) => range.high <= areas[k].high,
        None => false,
    }
}
