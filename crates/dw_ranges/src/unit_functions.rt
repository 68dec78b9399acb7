//! Reads the functions of a unit, and puts their ranges in order.

ghost use Rattle.std.specs.Prelude.{◌≡◌, ◌+◌, ◌-◌, ◌^◌, ◌<◌, ◌≤◌, Ok, Err, IfErr, OnOk};
ghost use Rattle.std.specs.Prelude.{All, AllPairs, IsPermutation, length, slice_range};
ghost use Rattle.dw_entries.specs.Views.{all_entries, units_of};
ghost use Rattle.dw_forms.specs.Stops.{IfFault};
ghost use Rattle.dw_ranges.specs.Areas.{AreAreas};
ghost use Rattle.dw_ranges.specs.Functions.{AreInOrder, AreInside, HasFunctions, IsMeeting, IsViolated, Reads, Starts};
ghost use Rattle.dw_ranges.specs.Functions.{Violates, known_of, meeting};
ghost use Rattle.dw_ranges.specs.Live.{CodeFails};
ghost use Rattle.dw_ranges.specs.Spans.{Agree, AreOrdered, IsSpan};

use crate::addresses::UnitAddresses;
use crate::bounds::RangeSections;
use crate::code::code_of_entry;
use crate::fault::RangeFault;
use crate::functions::{Buffers, UnitFunctions, push_inside, read_entry};
use crate::range::Range;
use crate::rule::RangeRule;
use crate::spans::{Span, order};
use crate::totals::with_entry;
use dw_entries::{Entries, EntryAt, Stop};

/// Reads the entries of a unit after its first one, that of number `first`, up to the one before the number `end`.
fn read_entries(
    sections: &RangeSections<'_>,
    unit: &UnitAddresses<'_>,
    code: &[Range],
    entries: &Entries<'_>,
    first: usize,
    end: usize,
    known: &mut UnitFunctions,
    buffers: &mut Buffers,
) -> Result<(), Stop<RangeFault>>
    requires code { AreAreas code.now }
    requires some { first < end }
    requires within { end ≤ length (all_entries entries.now) }
    requires inside { AreInside known.old }
    ensures inside { OnOk result (AreInside known.new) }
    ensures found { OnOk result (Reads sections.now unit.now code.now first (known_of known.old) (first + 1)
        (slice_range (all_entries entries.now) (first + 1) end) (Ok (known_of known.new))) }
    ensures fault { IfErr result (IfFault (λ fault. Reads sections.now unit.now code.now first
        (known_of known.old) (first + 1) (slice_range (all_entries entries.now) (first + 1) end)
        (Err fault))) }
    ensures less { known.new.totals.left ≤ known.old.totals.left }
{
    for number in first + 1..end {
        let entry = entries.at(entries.id(number));
        match read_entry(sections, unit, code, first, number, &entry, known, buffers) {
            Ok(()) => {}
            Err(stop) => return Err(stop),
        }
    }
    Ok(())
}

/// Reads the first entry of a unit: its areas are those of the unit.
fn read_first(
    sections: &RangeSections<'_>,
    unit: &UnitAddresses<'_>,
    code: &[Range],
    entry: &EntryAt<'_, '_>,
    known: &mut UnitFunctions,
    buffers: &mut Buffers,
) -> Result<(), Stop<RangeFault>>
    requires { AreAreas code.now }
    ensures inside { OnOk result (AreInside known.new) }
    ensures found { OnOk result
        (Starts sections.now unit.now code.now entry.now known.old.totals (known_of known.new)) }
    ensures fault { IfErr result (IfFault (CodeFails sections.now unit.now code.now entry.now known.old.totals.left)) }
    ensures less { known.new.totals.left ≤ known.old.totals.left }
{
    known.inside.clear();
    known.areas.clear();
    known.spans.clear();
    let Buffers { ranges, spans } = buffers;
    let counts = code_of_entry(
        sections,
        unit,
        code,
        entry,
        &mut known.totals.left,
        ranges,
        spans,
    )?;
    push_inside(known, 0, ranges)?;
    known.totals = with_entry(known.totals, counts, None);
    Ok(())
}

/// The rule that two spans of a group violate if they do not agree.
fn meeting_rule(group: usize) -> RangeRule
    ensures { result ≡ meeting group }
{
    if group == 0 {
        RangeRule::FunctionsMeet
    } else {
        RangeRule::InlinedMeet
    }
}

/// Puts the spans of a unit in order, unless two do not agree.
fn order_spans(entries: &Entries<'_>, spans: &mut [Span]) -> Result<(), RangeFault>
    requires each { All IsSpan spans.old }
    requires within { All (λ s. s.function < length (all_entries entries.now)) spans.old }
    ensures permutation { IsPermutation spans.old spans.new }
    ensures ordered { OnOk result (AreOrdered spans.new) }
    ensures agree { OnOk result (AllPairs Agree spans.old) }
    ensures fault { IfErr result (IsMeeting (all_entries entries.now) spans.old spans.new) }
{
    match order(spans) {
        None => Ok(()),
        Some(number) => {
            let span = spans[number];
            Err(RangeFault {
                rule: meeting_rule(span.group),
                at: entries.offset(entries.id(span.function)),
            })
        }
    }
}

/// Reads the functions of a unit, of which the first entry has the number `first`, and the last one is that before the
/// number `end`; `unit` is what its addresses are read by.
fn functions_between(
    sections: &RangeSections<'_>,
    unit: &UnitAddresses<'_>,
    code: &[Range],
    entries: &Entries<'_>,
    first: usize,
    end: usize,
    known: &mut UnitFunctions,
    buffers: &mut Buffers,
) -> Result<(), Stop<RangeFault>>
    requires code { AreAreas code.now }
    requires some { first < end }
    requires within { end ≤ length (all_entries entries.now) }
    ensures found { OnOk result (AreInOrder sections.now unit.now code.now first (all_entries entries.now) end
        known.old.totals (known_of known.new)) }
    ensures fault { IfErr result (IfFault
        (IsViolated sections.now unit.now code.now first (all_entries entries.now) end known.old.totals)) }
    ensures inside { OnOk result (AreInside known.new) }
    ensures few { OnOk result (All (λ s. s.function < 2 ^ 64 - 1) known.new.spans.items) }
    ensures less { known.new.totals.left ≤ known.old.totals.left }
{
    let entry = entries.at(entries.id(first));
    match read_first(sections, unit, code, &entry, known, buffers) {
        Ok(()) => {}
        Err(stop) => return Err(stop),
    }
    match read_entries(sections, unit, code, entries, first, end, known, buffers) {
        Ok(()) => {}
        Err(stop) => return Err(stop),
    }
    match order_spans(entries, known.spans.as_mut_slice()) {
        Ok(()) => Ok(()),
        Err(fault) => Err(Stop::Fault(fault)),
    }
}

/// Reads the functions of the unit with a number, where `code` are the areas of the program's code. A range list takes
/// its bytes from `known.totals.left` each time that an entry names it: apart from sorting and binary searches, the
/// time of all units with one budget is linear in it and in the entries. Afterwards the spans are in order, for
/// `functions_at`. Of the rules that are violated the first one is returned: of X1 to X10 and X13 by the order of the
/// entries, then of X11 and X12 by addresses. Adds to the totals, and overwrites what is known of another unit.
pub fn functions_of_unit(
    sections: &RangeSections<'_>,
    code: &[Range],
    entries: &Entries<'_>,
    number: usize,
    known: &mut UnitFunctions,
    buffers: &mut Buffers,
) -> Result<(), Stop<RangeFault>>
    requires code { AreAreas code.now }
    requires number { number < length (units_of entries.now) }
    ensures found { OnOk result (HasFunctions sections.now code.now entries.now number known.old.totals
        (known_of known.new)) }
    ensures fault { IfErr result (IfFault (Violates sections.now code.now entries.now number known.old.totals)) }
    ensures inside { OnOk result (AreInside known.new) }
    ensures few { OnOk result (All (λ s. s.function < 2 ^ 64 - 1) known.new.spans.items) }
    ensures less { known.new.totals.left ≤ known.old.totals.left }
{
    let unit = UnitAddresses::of_unit(entries, number);
    let (first, end) = entries.range(number);
    functions_between(sections, &unit, code, entries, first, end, known, buffers)
}
