//! One entry of a unit: the function that it is or is in (DWARF 5, 3.3), and the rules on its addresses.

ghost use Rattle.std.specs.Prelude.{◌≡◌, ◌++◌, ◌+◌, ◌-◌, ◌^◌, ◌<◌, ◌≤◌, ◌∷◌, [], List, IfErr, OnOk, map};
ghost use Rattle.dw_forms.specs.Stops.{IfFault};
ghost use Rattle.dw_ranges.specs.Areas.{AreAreas};
ghost use Rattle.dw_ranges.specs.Functions.{AreInside, IsInside, Refuses, Takes, group_with, home_of, known_of};
ghost use Rattle.dw_ranges.specs.Functions.{outer_of, outside as outside_rule, scope_at, scope_of, scopes_of, span_in};
ghost use Rattle.dw_ranges.specs.Totals.{no_totals};
ghost use Rattle.dw_ranges.specs.declared.range.Range.{Range as AnyRange};

use crate::addresses::UnitAddresses;
use crate::bounds::RangeSections;
use crate::code::{code_of_entry, contain};
use crate::fault::RangeFault;
use crate::range::Range;
use crate::rule::RangeRule;
use crate::spans::Span;
use crate::totals::{Totals, no_counts, with_entry};
use dw_entries::{EntryAt, EntryId, Stop, Tag};
use std::alloc::{AllocError, AllocFailed, Global};

/// DW_TAG_subprogram
const DW_TAG_SUBPROGRAM: Tag = Tag(0x2e);
/// DW_TAG_inlined_subroutine
const DW_TAG_INLINED_SUBROUTINE: Tag = Tag(0x1d);

/// The function that an entry is or is in.
#[derive(Clone, Copy, Debug, PartialEq, Eq)]
pub struct Inside {
    /// The group of what is inlined there: one more than the number of the function's entry; 0 if there is no function.
    pub group: usize,
    /// The areas of the function are those of the unit from this number on, and before `end`.
    pub first: usize,
    pub end: usize,
}

/// What is known of the entries of a unit, up to one of them.
#[derive(Drop)]
pub struct UnitFunctions {
    /// For each entry, the function that it is or is in. That of the first entry has the areas of the unit.
    pub inside: Vec<Inside>,
    /// The areas of the unit, and of its functions, one after another.
    pub areas: Vec<Range>,
    /// The ranges of the functions.
    pub spans: Vec<Span>,
    /// What is counted so far, also over the units that were read before.
    pub totals: Totals,
}

impl UnitFunctions {
    /// Nothing is known yet, and so many bytes of range lists may be read.
    pub fn new(alloc: Global, budget: usize) -> UnitFunctions
        ensures entries { result.inside.items ≡ [] }
        ensures spans { result.spans.items ≡ [] }
        ensures totals { result.totals ≡ no_totals budget }
    {
        UnitFunctions {
            inside: Vec::new(alloc),
            areas: Vec::new(alloc),
            spans: Vec::new(alloc),
            totals: no_counts(budget),
        }
    }
}

/// Vectors that a call overwrites. Calls that are given the same ones allocate less memory.
#[derive(Drop)]
pub struct Buffers {
    pub ranges: Vec<Range>,
    pub spans: Vec<Span>,
}

impl Buffers {
    /// Empty ones.
    pub fn new(alloc: Global) -> Buffers
        ensures ranges { result.ranges.items ≡ [] }
        ensures spans { result.spans.items ≡ [] }
    {
        Buffers {
            ranges: Vec::new(alloc),
            spans: Vec::new(alloc),
        }
    }
}

/// The function that an entry of the unit is or is in, by how many entries of the unit are before it.
pub(crate) fn inside_at(known: &UnitFunctions, k: usize) -> Inside
    requires { AreInside known.now }
    ensures scope { scope_of known.now.areas.items result ≡ scope_at (scopes_of known.now) k }
    ensures is { IsInside known.now.areas.items result }
{
    if k < known.inside.len() {
        return known.inside[k];
    }
    Inside {
        group: 0,
        first: 0,
        end: 0,
    }
}

/// The function that an entry with this parent is in. The first entry of the unit has the number `first`.
fn outer_of_entry(known: &UnitFunctions, first: usize, parent: Option<EntryId>) -> Inside
    requires { AreInside known.now }
    ensures scope { scope_of known.now.areas.items result ≡ outer_of (scopes_of known.now) first parent }
    ensures is { IsInside known.now.areas.items result }
{
    match parent {
        Some(parent) => inside_at(known, parent.number().saturating_sub(first)),
        None => Inside {
            group: 0,
            first: 0,
            end: 0,
        },
    }
}

/// The group of an entry with these areas, if it is a function.
fn group_of_entry(tag: Tag, outer: usize, areas: &[Range]) -> Option<usize>
    ensures { (o : List AnyRange) → result ≡ group_with tag (record { group = outer; areas = o }) areas.now }
{
    if areas.is_empty() {
        return None;
    }
    if tag == DW_TAG_SUBPROGRAM {
        return Some(0);
    }
    if tag == DW_TAG_INLINED_SUBROUTINE && outer != 0 {
        return Some(outer);
    }
    None
}

/// The rule that a function with this tag violates if it has an address outside of its unit or its function.
fn outside(tag: Tag) -> RangeRule
    ensures { result ≡ outside_rule tag }
{
    if tag == DW_TAG_SUBPROGRAM {
        RangeRule::OutsideUnit
    } else {
        RangeRule::OutsideParent
    }
}

/// Appends a span for each area of a function.
fn push_spans(
    spans: &mut Vec<Span>,
    areas: &[Range],
    group: usize,
    function: usize,
) -> Result<(), AllocFailed<Span>>
    ensures { OnOk result (spans.new.items ≡ spans.old.items ++ map (span_in group function) areas.now) }
{
    for area in areas {
        spans.push(Span {
            group,
            low: area.low,
            high: area.high,
            function,
        })?;
    }
    Ok(())
}

/// Appends the areas of the unit or of a function, as the function that the next entry is.
pub(crate) fn push_inside(
    known: &mut UnitFunctions,
    group: usize,
    areas: &[Range],
) -> Result<(), AllocError>
    requires inside { AreInside known.old }
    requires areas { AreAreas areas.now }
    ensures inside { OnOk result (AreInside known.new) }
    ensures scopes { OnOk result (scopes_of known.new
        ≡ scopes_of known.old ++ record { group = group; areas = areas.now } ∷ []) }
    ensures spans { known.new.spans.items ≡ known.old.spans.items }
    ensures totals { known.new.totals ≡ known.old.totals }
{
    let first = known.areas.len();
    known.areas.extend_from_slice(areas)?;
    let end = known.areas.len();
    known.inside.push(Inside { group, first, end })?;
    Ok(())
}

/// The function, or the unit, of which the addresses of a function with this tag are a part.
fn home_of_entry(known: &UnitFunctions, tag: Tag, outer: Inside) -> Inside
    requires inside { AreInside known.now }
    requires outer { IsInside known.now.areas.items outer }
    ensures scope { scope_of known.now.areas.items result
        ≡ home_of tag (scope_at (scopes_of known.now) 0) (scope_of known.now.areas.items outer) }
    ensures is { IsInside known.now.areas.items result }
{
    if tag == DW_TAG_SUBPROGRAM {
        return inside_at(known, 0);
    }
    outer
}

/// Adds an entry that is no function, and is in this one.
fn push_outer(known: &mut UnitFunctions, outer: Inside) -> Result<(), AllocError>
    requires inside { AreInside known.old }
    requires outer { IsInside known.old.areas.items outer }
    ensures inside { OnOk result (AreInside known.new) }
    ensures scopes { OnOk result (scopes_of known.new
        ≡ scopes_of known.old ++ scope_of known.old.areas.items outer ∷ []) }
    ensures spans { known.new.spans.items ≡ known.old.spans.items }
    ensures totals { known.new.totals ≡ known.old.totals }
{
    known.inside.push(outer)?;
    Ok(())
}

/// Reads the entry with a number, which is not the first one of its unit, that of number `first`.
pub(crate) fn read_entry(
    sections: &RangeSections<'_>,
    unit: &UnitAddresses<'_>,
    code: &[Range],
    first: usize,
    number: usize,
    entry: &EntryAt<'_, '_>,
    known: &mut UnitFunctions,
    buffers: &mut Buffers,
) -> Result<(), Stop<RangeFault>>
    requires code { AreAreas code.now }
    requires number { number < 2 ^ 64 - 1 }
    requires inside { AreInside known.old }
    ensures inside { OnOk result (AreInside known.new) }
    ensures found { OnOk result (Takes sections.now unit.now code.now first (known_of known.old) number entry.now
        (known_of known.new)) }
    ensures fault { IfErr result (IfFault
        (Refuses sections.now unit.now code.now first (known_of known.old) entry.now)) }
    ensures less { known.new.totals.left ≤ known.old.totals.left }
{
    let Buffers { ranges, spans } = buffers;
    let counts = code_of_entry(
        sections,
        unit,
        code,
        entry,
        &mut known.totals.left,
        ranges,
        spans,
    )?;
    let outer = outer_of_entry(known, first, entry.parent());
    let tag = entry.tag();
    let Some(group) = group_of_entry(tag, outer.group, ranges) else {
        push_outer(known, outer)?;
        known.totals = with_entry(known.totals, counts, None);
        return Ok(());
    };
    let home = home_of_entry(known, tag, outer);
    if !contain(&known.areas[home.first..home.end], ranges) {
        return Err(Stop::Fault(RangeFault {
            rule: outside(tag),
            at: entry.offset(),
        }));
    }
    push_inside(known, number + 1, ranges)?;
    push_spans(&mut known.spans, ranges, group, number)?;
    let after = with_entry(known.totals, counts, Some(group));
    known.totals = after;
    Ok(())
}
