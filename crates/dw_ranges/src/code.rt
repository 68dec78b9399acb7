//! The code of an entry: the addresses of its live ranges.

ghost use Rattle.std.specs.Prelude.{◌<◌, ◌≤◌, ◌↔◌, ℕ, All, IfOk, IfErr, IsTrue};
ghost use Rattle.dw_forms.specs.Stops.{IfFault};
ghost use Rattle.dw_ranges.specs.Areas.{AreAreas, Has};
ghost use Rattle.dw_ranges.specs.Live.{AreApart, AreCodeOf, CodeFails};

use crate::addresses::UnitAddresses;
use crate::areas::{covers, join};
use crate::bounds::RangeSections;
use crate::fault::RangeFault;
use crate::live::keep_live;
use crate::range::Range;
use crate::rule::RangeRule;
use crate::spans::{Span, order};
use crate::totals::RangeCounts;
use crate::unit::ranges_of_entry;
use dw_entries::{EntryAt, Stop};
use std::alloc::AllocFailed;

/// Whether ranges that share an address are the same. Overwrites `spans`.
fn are_apart(ranges: &[Range], spans: &mut Vec<Span>) -> Result<bool, AllocFailed<Span>>
    requires { All (λ r. r.low < r.high) ranges.now }
    ensures { IfOk result (λ apart. IsTrue apart ↔ AreApart ranges.now) }
{
    spans.clear();
    for range in ranges {
        spans.push(Span {
            group: 0,
            low: range.low,
            high: range.high,
            function: 0,
        })?;
    }
    Ok(order(spans.as_mut_slice()).is_none())
}

/// Makes `ranges` the areas of an entry's live ranges, and returns how many ranges it has, and how many of them are
/// dead. `unit` is that of its unit. The range list that an entry names takes its bytes from `budget`, so that calls
/// with one budget read no more bytes of lists than it has before the first fault, however many entries name a list.
/// Overwrites `spans`.
pub fn code_of_entry(
    sections: &RangeSections<'_>,
    unit: &UnitAddresses<'_>,
    code: &[Range],
    entry: &EntryAt<'_, '_>,
    budget: &mut usize,
    ranges: &mut Vec<Range>,
    spans: &mut Vec<Span>,
) -> Result<RangeCounts, Stop<RangeFault>>
    requires { AreAreas code.now }
    ensures found { IfOk result
        (AreCodeOf sections.now unit.now code.now entry.now budget.old ranges.new.items budget.new) }
    ensures fault { IfErr result (IfFault (CodeFails sections.now unit.now code.now entry.now budget.old)) }
    ensures less { budget.new ≤ budget.old }
{
    ranges.clear();
    let bytes = ranges_of_entry(sections, unit, entry, ranges)?;
    if *budget < bytes {
        return Err(Stop::Fault(RangeFault {
            rule: RangeRule::ListBudget,
            at: entry.offset(),
        }));
    }
    *budget -= bytes;
    let count = ranges.len();
    let dead = keep_live(code, ranges);
    if !are_apart(ranges, spans)? {
        return Err(Stop::Fault(RangeFault {
            rule: RangeRule::RangesMeet,
            at: entry.offset(),
        }));
    }
    join(ranges);
    Ok(RangeCounts {
        ranges: count,
        dead,
    })
}

/// Whether areas have every address that some ranges have.
pub fn contain(areas: &[Range], ranges: &[Range]) -> bool
    requires { AreAreas areas.now }
    ensures { IsTrue result ↔ ((a : ℕ) → Has ranges.now a → Has areas.now a) }
{
    for range in ranges {
        if !covers(areas, *range) {
            return false;
        }
    }
    true
}
