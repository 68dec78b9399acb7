//! What is counted over the units of a file.

ghost use Rattle.std.specs.Prelude.{◌≡◌};
ghost use Rattle.dw_ranges.specs.Totals.{counted, one_function as function_in, one_inlined as inlined_in, no_totals};

/// How many ranges an entry has.
#[derive(Clone, Copy, Debug, PartialEq, Eq)]
pub struct RangeCounts {
    /// All of them, also those of no address.
    pub ranges: usize,
    /// Those that have an address, and not all of whose addresses are of the program's code.
    pub dead: usize,
}

/// What is counted over the units of a file. A count that passes the greatest number stays there.
#[derive(Clone, Copy, Debug, PartialEq, Eq)]
pub struct Totals {
    /// How many more bytes of range lists may be read.
    pub left: usize,
    /// The ranges of entries.
    pub ranges: usize,
    /// The functions with code that are not inlined.
    pub functions: usize,
    /// The inlined functions with code.
    pub inlined: usize,
    /// The dead ranges of entries, as in `RangeCounts`.
    pub dead: usize,
}

/// Nothing is counted yet, and so many bytes of range lists may be read.
pub(crate) fn no_counts(budget: usize) -> Totals
    ensures { result ≡ no_totals budget }
{
    Totals {
        left: budget,
        ranges: 0,
        functions: 0,
        inlined: 0,
        dead: 0,
    }
}

/// One if this is the group of a function that is not inlined.
fn one_function(group: Option<usize>) -> usize
    ensures { result ≡ function_in group }
{
    match group {
        Some(0) => 1,
        _ => 0,
    }
}

/// One if this is the group of an inlined function.
fn one_inlined(group: Option<usize>) -> usize
    ensures { result ≡ inlined_in group }
{
    match group {
        None | Some(0) => 0,
        Some(_) => 1,
    }
}

/// The totals with an entry that has these ranges, and is of this group if it is a function.
pub(crate) fn with_entry(totals: Totals, counts: RangeCounts, group: Option<usize>) -> Totals
    ensures { result ≡ counted totals totals.left counts group }
{
    Totals {
        left: totals.left,
        ranges: totals.ranges.saturating_add(counts.ranges),
        functions: totals.functions.saturating_add(one_function(group)),
        inlined: totals.inlined.saturating_add(one_inlined(group)),
        dead: totals.dead.saturating_add(counts.dead),
    }
}
