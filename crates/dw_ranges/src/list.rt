//! Reading a range list (DWARF 5, 2.17.3 and 7.25; DWARF 4, 2.17.3).

ghost use Rattle.std.specs.Prelude.{◌≡◌, ◌+◌, ◌-◌, ◌<◌, length, take, drop, IfOk, IfErr, OnOk, OnErr};
ghost use Rattle.dw_forms.specs.Front.{BeginsWith, BeginsWithNone};
ghost use Rattle.dw_forms.specs.Stops.{IfFault, GivesOrMemory};
ghost use Rattle.dw_forms.specs.ValueReading.{Gives};
ghost use Rattle.dw_ranges.specs.RangeLists.{meaning as meaning_of, range as range_between, meant, list_after};
ghost use Rattle.dw_ranges.specs.RangeLists.{SpellsList, ListFails, indexed_in as indexed_of};

use crate::addresses::UnitAddresses;
use crate::fault::ListFault;
use crate::list_entry::{ListEntry, list_entry};
use crate::range::{Range, bounded};
use crate::rule::RangeRule;
use crate::slots::indexed;
use dw_forms::Stop;

/// What an entry of a range list means.
#[derive(Clone, Copy, Debug, PartialEq, Eq)]
pub(crate) enum Meaning {
    /// The list ends.
    End,
    /// The base address of the entries after it.
    Base(u64),
    /// A bounded range.
    Bounded(Range),
}

/// The address in a slot of the unit.
fn indexed_in(unit: &UnitAddresses<'_>, index: u64) -> Result<u64, RangeRule>
    ensures { result ≡ indexed_of unit.now index }
{
    indexed(unit.address_size, unit.slots, index)
}

/// The range between two addresses. The first rule that it violates if it has none.
fn range(unit: &UnitAddresses<'_>, low: u64, high: u64) -> Result<Meaning, RangeRule>
    ensures { result ≡ range_between unit.now low high }
{
    Ok(Meaning::Bounded(bounded(unit.address_size, low, high)?))
}

/// The range between two offsets from an address.
fn range_of(unit: &UnitAddresses<'_>, base: u64, start: u64, end: u64) -> Result<Meaning, RangeRule>
    ensures { result ≡ range_between unit.now (base + start) (base + end) }
{
    match (base.checked_add(start), base.checked_add(end)) {
        (Some(low), Some(high)) => range(unit, low, high),
        _ => Err(RangeRule::BadRange),
    }
}

/// What an entry means after this base address.
#[tactic(auto, unfolding(crate::specs::RangeLists::meaning))]
fn meaning_after(
    unit: &UnitAddresses<'_>,
    base: Option<u64>,
    entry: ListEntry,
) -> Result<Meaning, RangeRule>
    ensures { result ≡ meaning_of unit.now base entry }
{
    match entry {
        ListEntry::EndOfList => Ok(Meaning::End),
        ListEntry::BaseAddressx(index) => Ok(Meaning::Base(indexed_in(unit, index)?)),
        ListEntry::StartxEndx(start, end) => {
            let low = indexed_in(unit, start)?;
            let high = indexed_in(unit, end)?;
            range(unit, low, high)
        }
        ListEntry::StartxLength(start, length) => {
            let low = indexed_in(unit, start)?;
            range_of(unit, low, 0, length)
        }
        ListEntry::OffsetPair(start, end) => {
            let Some(base) = base else {
                return Err(RangeRule::NoBase);
            };
            range_of(unit, base, start, end)
        }
        ListEntry::BaseAddress(address) => Ok(Meaning::Base(address)),
        ListEntry::StartEnd(low, high) => range(unit, low, high),
        ListEntry::StartLength(low, length) => range_of(unit, low, 0, length),
    }
}

/// The next entry as what it means after this base address. Moves past the entry.
#[tactic(auto, unfolding(crate::specs::RangeLists::meant))]
fn next(
    unit: &UnitAddresses<'_>,
    base: Option<u64>,
    bytes: &mut &[u8],
) -> Result<Meaning, RangeRule>
    ensures exact { Gives (λ x. (x, bytes.new.now)) result ((meant unit.now base).read bytes.old.now) }
    ensures shorter { IfOk result (λ _. length bytes.new.now < length bytes.old.now) }
{
    let entry = list_entry(unit.version, unit.address_size, bytes)?;
    meaning_after(unit, base, entry)
}

/// Appends the ranges of the list at an offset, and returns the offset after the list. After a fault some may have been
/// appended.
fn append_ranges(
    unit: &UnitAddresses<'_>,
    section: &[u8],
    offset: usize,
    ranges: &mut Vec<Range>,
) -> Result<usize, Stop<ListFault>>
    requires { offset < length section.now }
    ensures kept { take (length ranges.old.items) ranges.new.items ≡ ranges.old.items }
    ensures exact { GivesOrMemory (λ end. (ranges.new.items, end)) result
        (list_after ranges.old.items unit.now section.now offset) }
{
    let mut base = unit.base;
    let mut bytes = &section[offset..];
    loop {
        let at = section.len() - bytes.len();
        match next(unit, base, &mut bytes) {
            Err(rule) => return Err(Stop::Fault(ListFault { rule, at })),
            Ok(Meaning::End) => return Ok(section.len() - bytes.len()),
            Ok(Meaning::Base(address)) => base = Some(address),
            Ok(Meaning::Bounded(range)) => ranges.push(range)?,
        }
    }
}

/// Reads the range list at an offset of `.debug_rnglists`, or in version 4 of `.debug_ranges`, and appends its ranges
/// in the order of its entries. Returns the offset after the list.
pub fn read_list(
    unit: &UnitAddresses<'_>,
    section: &[u8],
    offset: usize,
    ranges: &mut Vec<Range>,
) -> Result<usize, Stop<ListFault>>
    ensures kept { take (length ranges.old.items) ranges.new.items ≡ ranges.old.items }
    // The bytes from the offset up to the result are the list of the ranges that are appended, and of no others.
    ensures found { IfOk result (λ end. BeginsWith (SpellsList unit.now (length section.now) offset)
        (drop offset section.now) (drop (length ranges.old.items) ranges.new.items) (end - offset)) }
    ensures none { IfErr result (IfFault (λ _.
        BeginsWithNone (SpellsList unit.now (length section.now) offset) (drop offset section.now))) }
    ensures fault { IfErr result (IfFault (ListFails unit.now section.now offset)) }
    ensures unchanged { OnErr result (ranges.new.items ≡ ranges.old.items) }
    // For callers that reason by steps.
    ensures exact { GivesOrMemory (λ end. (ranges.new.items, end)) result
        (list_after ranges.old.items unit.now section.now offset) }
{
    if section.len() <= offset {
        return Err(Stop::Fault(ListFault {
            rule: RangeRule::NoList,
            at: offset,
        }));
    }
    let before = ranges.len();
    match append_ranges(unit, section, offset, ranges) {
        Ok(end) => Ok(end),
        Err(stop) => {
            ranges.truncate(before);
            Err(stop)
        }
    }
}
