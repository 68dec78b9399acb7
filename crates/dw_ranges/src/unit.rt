//! What a unit and an entry say of addresses (DWARF 5, 2.17 and 3.1.1).

ghost use Rattle.std.specs.Prelude.{◌≡◌, ◌<◌, ◌≤◌, length, option_map, option_and_then, OnErr};
ghost use Rattle.dw_entries.specs.Views.{units_of};
ghost use Rattle.dw_forms.specs.Stops.{GivesOrMemory};
ghost use Rattle.dw_forms.specs.Value.{view};
ghost use Rattle.dw_ranges.specs.Bounds.{after};
ghost use Rattle.dw_ranges.specs.EntryRanges.{AreAddressesOf, slots_in, base_address, offset_in, entry_ranges};

use crate::addresses::UnitAddresses;
use crate::bounds::{RangeSections, address_of, ranges_of_values};
use crate::contribution::contribution_at;
use crate::fault::RangeFault;
use crate::range::Range;
use dw_entries::constants::{DW_AT_addr_base, DW_AT_high_pc, DW_AT_low_pc, DW_AT_ranges};
use dw_entries::{Attribute, Entries, EntryAt, Stop, Value};

/// DW_AT_rnglists_base
const DW_AT_RNGLISTS_BASE: Attribute = Attribute(0x74);

/// The offset into a section that a value is.
fn offset_of(value: Option<Value<'_>>) -> Option<u32>
    ensures { result ≡ option_and_then offset_in (option_map view value.entry) }
{
    match value {
        Some(Value::SecOffset(offset)) => Some(offset),
        _ => None,
    }
}

/// The slots of the contribution to `.debug_addr` at this base.
fn slots_of(address_size: u8, section: &[u8], base: Option<u32>) -> &[u8]
    ensures { result.now ≡ slots_in address_size section.now base }
{
    let Some(base) = base else {
        return &[];
    };
    match contribution_at(address_size, section, base as usize, 8) {
        Ok(slots) => slots,
        Err(_) => &[],
    }
}

/// The base address of a unit with this DW_AT_low_pc.
fn base_of(address_size: u8, slots: &[u8], low: Option<Value<'_>>) -> Option<u64>
    requires some { 1 ≤ address_size }
    requires few { address_size ≤ 8 }
    ensures { result ≡ base_address address_size slots.now (option_map view low.entry) }
{
    match address_of(address_size, slots, low?) {
        Ok(address) => Some(address),
        Err(_) => None,
    }
}

impl<'a> UnitAddresses<'a> {
    /// What the addresses of the entries of the unit with this number are read by.
    pub fn of_unit(entries: &Entries<'a>, number: usize) -> UnitAddresses<'a>
        requires { number < length (units_of entries.now) }
        ensures { AreAddressesOf entries.now number result }
    {
        let unit = entries.unit(number);
        let first = entries.at(unit.first);
        let address_size = unit.header.address_size;
        let slots = slots_of(
            address_size,
            entries.sections().addr,
            offset_of(first.value(DW_AT_addr_base)),
        );
        UnitAddresses {
            version: unit.header.kind.version(),
            address_size,
            base: base_of(address_size, slots, first.value(DW_AT_low_pc)),
            slots,
            lists_base: offset_of(first.value(DW_AT_RNGLISTS_BASE)),
        }
    }
}

/// Appends the ranges of an entry, in the order of their list, by the attributes DW_AT_low_pc, DW_AT_high_pc and
/// DW_AT_ranges, and returns how many bytes the list has: 0 if no list is named. `unit` is that of its unit. An entry
/// may have no ranges.
#[tactic(auto, unfolding(crate::specs::EntryRanges::entry_ranges))]
pub fn ranges_of_entry(
    sections: &RangeSections<'_>,
    unit: &UnitAddresses<'_>,
    entry: &EntryAt<'_, '_>,
    ranges: &mut Vec<Range>,
) -> Result<usize, Stop<RangeFault>>
    ensures exact { GivesOrMemory (λ bytes. (ranges.new.items, bytes)) result
        (after ranges.old.items (entry_ranges sections.now unit.now entry.now)) }
    ensures unchanged { OnErr result (ranges.new.items ≡ ranges.old.items) }
{
    let low = entry.value(DW_AT_low_pc);
    let high = entry.value(DW_AT_high_pc);
    let list = entry.value(DW_AT_ranges);
    match ranges_of_values(sections, unit, low, high, list, ranges) {
        Ok(bytes) => Ok(bytes),
        Err(Stop::Memory) => Err(Stop::Memory),
        Err(Stop::Fault(rule)) => Err(Stop::Fault(RangeFault {
            rule,
            at: entry.offset(),
        })),
    }
}
