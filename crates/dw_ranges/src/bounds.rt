//! The ranges between the addresses that an entry's attributes give (DWARF 5, 2.17).

ghost use Rattle.std.specs.Prelude.{◌≡◌, ◌+◌, ◌≤◌, option_map, OnErr};
ghost use Rattle.dw_forms.specs.Stops.{GivesOrMemory};
ghost use Rattle.dw_forms.specs.Value.{view};
ghost use Rattle.dw_forms.specs.ValueReading.{Gives};
ghost use Rattle.dw_ranges.specs.Bounds.{address_of as address_in, range_to as range_up_to, range_up as range_up_value};
ghost use Rattle.dw_ranges.specs.Bounds.{range_between as range_of_values, list_of as list_named, listed_ranges};
ghost use Rattle.dw_ranges.specs.Bounds.{ranges_of as ranges_in, after};

use crate::addresses::UnitAddresses;
use crate::contribution::indexed_list;
use crate::fault::ListFault;
use crate::list::read_list;
use crate::range::{Range, bounded};
use crate::rule::RangeRule;
use crate::slots::indexed;
use dw_forms::{Stop, Value};

/// The contents of the sections that range lists are read from. One that the file does not have is empty.
#[derive(Clone, Copy, Debug)]
pub struct RangeSections<'a> {
    /// `.debug_rnglists`.
    pub rnglists: &'a [u8],
    /// `.debug_ranges`.
    pub ranges: &'a [u8],
}

/// The address that a value is, by the slots of the unit.
pub(crate) fn address_of(address_size: u8, slots: &[u8], value: Value<'_>) -> Result<u64, RangeRule>
    requires some { 1 ≤ address_size }
    requires few { address_size ≤ 8 }
    ensures { result ≡ address_in address_size slots.now (view value.entry) }
{
    match value {
        Value::Addr(address) => Ok(address),
        Value::AddrIndex(index) => indexed(address_size, slots, index),
        _ => Err(RangeRule::BadBounds),
    }
}

/// The range up to an address.
fn range_to(unit: &UnitAddresses<'_>, low: u64, high: u64) -> Result<Range, RangeRule>
    ensures { result ≡ range_up_to unit.now low high }
{
    match bounded(unit.address_size, low, high) {
        Ok(range) => Ok(range),
        Err(_) => Err(RangeRule::BadHigh),
    }
}

/// The range of so many bytes.
fn range_of_length(unit: &UnitAddresses<'_>, low: u64, length: u64) -> Result<Range, RangeRule>
    ensures { result ≡ range_up_to unit.now low (low + length) }
{
    match low.checked_add(length) {
        Some(high) => range_to(unit, low, high),
        None => Err(RangeRule::BadHigh),
    }
}

/// The range up to the value of DW_AT_high_pc.
fn range_up(unit: &UnitAddresses<'_>, low: u64, high: Value<'_>) -> Result<Range, RangeRule>
    ensures { result ≡ range_up_value unit.now low (view high.entry) }
{
    match high {
        Value::Unsigned(length) => range_of_length(unit, low, length),
        Value::Signed(length) => {
            if length < 0 {
                return Err(RangeRule::BadHigh);
            }
            range_of_length(unit, low, length as u64)
        }
        _ => range_to(unit, low, address_of(unit.address_size, unit.slots, high)?),
    }
}

/// The range of DW_AT_low_pc and DW_AT_high_pc.
fn range_between(
    unit: &UnitAddresses<'_>,
    low: Option<Value<'_>>,
    high: Value<'_>,
) -> Result<Range, RangeRule>
    ensures { result ≡ range_of_values unit.now (option_map view low.entry) (view high.entry) }
{
    let Some(low) = low else {
        return Err(RangeRule::BadBounds);
    };
    let low = address_of(unit.address_size, unit.slots, low)?;
    range_up(unit, low, high)
}

/// The bytes from which the offset of a list counts, and that offset, by the value of DW_AT_ranges.
fn list_of<'a>(
    sections: &RangeSections<'a>,
    unit: &UnitAddresses<'_>,
    value: Value<'_>,
) -> Result<(&'a [u8], usize), RangeRule>
    ensures { Gives (λ x. (x.0.now, x.1)) result (list_named sections.now unit.now (view value.entry)) }
{
    match value {
        Value::SecOffset(offset) => {
            let section = if unit.version == 4 {
                sections.ranges
            } else {
                sections.rnglists
            };
            Ok((section, offset as usize))
        }
        Value::RngIndex(index) => {
            let Some(base) = unit.lists_base else {
                return Err(RangeRule::NoList);
            };
            indexed_list(unit.address_size, sections.rnglists, base as usize, index)
        }
        _ => Err(RangeRule::BadBounds),
    }
}

/// Appends the ranges of the list that a value of DW_AT_ranges names, and returns how many bytes the list has.
fn append_list(
    sections: &RangeSections<'_>,
    unit: &UnitAddresses<'_>,
    value: Value<'_>,
    ranges: &mut Vec<Range>,
) -> Result<usize, Stop<RangeRule>>
    ensures exact { GivesOrMemory (λ bytes. (ranges.new.items, bytes)) result
        (after ranges.old.items (listed_ranges sections.now unit.now (view value.entry))) }
    ensures unchanged { OnErr result (ranges.new.items ≡ ranges.old.items) }
{
    let (bytes, offset) = match list_of(sections, unit, value) {
        Ok(found) => found,
        Err(rule) => return Err(Stop::Fault(rule)),
    };
    match read_list(unit, bytes, offset, ranges) {
        Ok(end) => Ok(end.saturating_sub(offset)),
        Err(Stop::Memory) => Err(Stop::Memory),
        Err(Stop::Fault(ListFault { rule, at: _ })) => Err(Stop::Fault(rule)),
    }
}

/// Appends the ranges of an entry that has these values of DW_AT_low_pc, DW_AT_high_pc and DW_AT_ranges, in the order
/// of their list, and returns how many bytes the list has: 0 if no list is named. An entry may have no ranges.
#[tactic(auto, unfolding(crate::specs::Bounds::ranges_of))]
pub fn ranges_of_values(
    sections: &RangeSections<'_>,
    unit: &UnitAddresses<'_>,
    low: Option<Value<'_>>,
    high: Option<Value<'_>>,
    list: Option<Value<'_>>,
    ranges: &mut Vec<Range>,
) -> Result<usize, Stop<RangeRule>>
    ensures exact { GivesOrMemory (λ bytes. (ranges.new.items, bytes)) result (after ranges.old.items
        (ranges_in sections.now unit.now (option_map view low.entry) (option_map view high.entry)
        (option_map view list.entry))) }
    ensures unchanged { OnErr result (ranges.new.items ≡ ranges.old.items) }
{
    match (high, list) {
        (None, None) => Ok(0),
        (Some(high), None) => {
            let range = match range_between(unit, low, high) {
                Ok(range) => range,
                Err(rule) => return Err(Stop::Fault(rule)),
            };
            ranges.push(range)?;
            Ok(0)
        }
        (None, Some(list)) => append_list(sections, unit, list, ranges),
        (Some(_), Some(_)) => Err(Stop::Fault(RangeRule::BadBounds)),
    }
}
