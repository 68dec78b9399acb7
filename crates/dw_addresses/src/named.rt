//! The line programs that the units of a file name (DWARF 5, 3.1.1).

ghost use Rattle.std.specs.Prelude.{◌≡◌, ◌<◌, IfOk, IsPermutation, length, option_and_then, option_map};
ghost use Rattle.std.specs.List.{AllAdjacentBelow};
ghost use Rattle.dw_forms.specs.Value.{view};
ghost use Rattle.dw_entries.specs.Views.{units_of};
ghost use Rattle.dw_ranges.specs.EntryRanges.{offset_in};
ghost use Rattle.dw_addresses.specs.Reading.{AllNamed, IsNamed, IsUpTo};

use dw_entries::{Attribute, Entries, Value};
use std::alloc::{AllocFailed, Global};

/// DW_AT_stmt_list
const DW_AT_STMT_LIST: Attribute = Attribute(0x10);

/// A line program that a unit names.
#[derive(Clone, Copy, Debug, PartialEq, Eq)]
pub(crate) struct Named {
    /// Its offset in `.debug_line`.
    pub(crate) at: u32,
    /// How many bytes an address of the unit has.
    pub(crate) size: u8,
    /// The number of the unit.
    pub(crate) unit: usize,
}

/// The offset into a section that a value is.
fn offset_of(value: Option<Value<'_>>) -> Option<u32>
    ensures { result ≡ option_and_then offset_in (option_map view value.entry) }
{
    match value {
        Some(Value::SecOffset(offset)) => Some(offset),
        _ => None,
    }
}

/// The line program that the unit with a number names.
fn named_by(entries: &Entries<'_>, number: usize) -> Option<Named>
    requires { number < length (units_of entries.now) }
    ensures { IsNamed entries.now number result }
{
    let unit = entries.unit(number);
    let at = offset_of(entries.value(unit.first, DW_AT_STMT_LIST))?;
    Some(Named {
        at,
        size: unit.header.address_size,
        unit: number,
    })
}

/// The line programs that units name, in the order of the units.
fn all_named(alloc: Global, entries: &Entries<'_>) -> Result<Vec<Named>, AllocFailed<Named>>
    ensures { IfOk result (λ named. AllNamed entries.now (length (units_of entries.now)) named.items) }
{
    let mut named = Vec::new(alloc);
    for number in 0..entries.unit_count() {
        if let Some(one) = named_by(entries, number) {
            named.push(one)?;
        }
    }
    Ok(named)
}

/// Puts programs in the order of their offsets. Of those at one offset the ones with smaller addresses come first.
fn order(named: &mut [Named])
    ensures permutation { IsPermutation named.old named.new }
    ensures sorted { AllAdjacentBelow IsUpTo named.new (length named.new) }
{
    named.sort_unstable_by_key(|one| (one.at, one.size));
}

/// The line programs that units name, in rising offset.
pub(crate) fn named_in_order(
    alloc: Global,
    entries: &Entries<'_>,
) -> Result<Vec<Named>, AllocFailed<Named>>
    ensures named { IfOk result (λ named. AllNamed entries.now (length (units_of entries.now)) named.items) }
    ensures sorted { IfOk result (λ named. AllAdjacentBelow IsUpTo named.items (length named.items)) }
{
    let mut named = all_named(alloc, entries)?;
    order(named.as_mut_slice());
    Ok(named)
}
