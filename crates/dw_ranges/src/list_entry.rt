//! The entries of a range list (DWARF 5, 7.25 with Table 7.30; DWARF 4, 2.17.3): which bytes encode which entry. Each
//! reader moves past what it reads.

ghost use Rattle.std.specs.Prelude.{◌≡◌, ◌≤◌, ◌<◌, length, IfOk};
ghost use Rattle.dw_forms.specs.ValueReading.{Gives};
ghost use Rattle.dw_ranges.specs.ListEntries.{entry_after as after_format, entry5 as format5, entry4 as format4};
ghost use Rattle.dw_ranges.specs.ListEntries.{entry_between as between, entry as entry_format};
ghost use Rattle.dw_ranges.specs.ListEntries.{number as number_format, address as address_format};

use crate::range::greatest_address;
use crate::rule::RangeRule;
use dw_forms::{take_byte, take_number, take_uleb};

/// An entry of a range list with its operands.
#[derive(Clone, Copy, Debug, PartialEq, Eq)]
pub(crate) enum ListEntry {
    /// DW_RLE_end_of_list
    EndOfList,
    /// DW_RLE_base_addressx: an index.
    BaseAddressx(u64),
    /// DW_RLE_startx_endx: two indices.
    StartxEndx(u64, u64),
    /// DW_RLE_startx_length: an index, and a count of bytes.
    StartxLength(u64, u64),
    /// DW_RLE_offset_pair: two offsets from the base address.
    OffsetPair(u64, u64),
    /// DW_RLE_base_address
    BaseAddress(u64),
    /// DW_RLE_start_end: two addresses.
    StartEnd(u64, u64),
    /// DW_RLE_start_length: an address, and a count of bytes.
    StartLength(u64, u64),
}

/// An unsigned LEB128 number.
#[inline(always)]
fn number(bytes: &mut &[u8]) -> Result<u64, RangeRule>
    ensures exact { Gives (λ x. (x, bytes.new.now)) result (number_format.read bytes.old.now) }
    ensures shorter { IfOk result (λ _. length bytes.new.now < length bytes.old.now) }
{
    take_uleb(RangeRule::BadList, RangeRule::BadList, bytes)
}

/// An address of so many bytes.
fn address(size: u8, bytes: &mut &[u8]) -> Result<u64, RangeRule>
    requires some { 1 ≤ size }
    requires few { size ≤ 8 }
    ensures exact { Gives (λ x. (x, bytes.new.now)) result ((address_format size).read bytes.old.now) }
    ensures shorter { IfOk result (λ _. length bytes.new.now < length bytes.old.now) }
{
    take_number(RangeRule::BadList, size, bytes)
}

/// The entry of version 5 that has this code and these bytes after it.
#[inline(always)]
#[tactic(auto, unfolding(crate::specs::ListEntries::entry_after))]
fn entry_after(size: u8, code: u8, bytes: &mut &[u8]) -> Result<ListEntry, RangeRule>
    requires some { 1 ≤ size }
    requires few { size ≤ 8 }
    ensures exact { Gives (λ x. (x, bytes.new.now)) result ((after_format size code).read bytes.old.now) }
    ensures within { IfOk result (λ _. length bytes.new.now ≤ length bytes.old.now) }
{
    Ok(match code {
        0 => ListEntry::EndOfList,
        1 => ListEntry::BaseAddressx(number(bytes)?),
        2 => ListEntry::StartxEndx(number(bytes)?, number(bytes)?),
        3 => ListEntry::StartxLength(number(bytes)?, number(bytes)?),
        4 => ListEntry::OffsetPair(number(bytes)?, number(bytes)?),
        5 => ListEntry::BaseAddress(address(size, bytes)?),
        6 => ListEntry::StartEnd(address(size, bytes)?, address(size, bytes)?),
        7 => ListEntry::StartLength(address(size, bytes)?, number(bytes)?),
        _ => return Err(RangeRule::BadList),
    })
}

/// An entry of version 5.
#[inline(always)]
#[tactic(auto, unfolding(crate::specs::ListEntries::entry5))]
fn entry5(size: u8, bytes: &mut &[u8]) -> Result<ListEntry, RangeRule>
    requires some { 1 ≤ size }
    requires few { size ≤ 8 }
    ensures exact { Gives (λ x. (x, bytes.new.now)) result ((format5 size).read bytes.old.now) }
    ensures shorter { IfOk result (λ _. length bytes.new.now < length bytes.old.now) }
{
    let code = take_byte(RangeRule::BadList, bytes)?;
    entry_after(size, code, bytes)
}

/// What two addresses are in version 4.
fn entry_between(size: u8, low: u64, high: u64) -> ListEntry
    ensures { result ≡ between size low high }
{
    if low == 0 && high == 0 {
        return ListEntry::EndOfList;
    }
    if low == greatest_address(size) {
        return ListEntry::BaseAddress(high);
    }
    ListEntry::OffsetPair(low, high)
}

/// An entry of version 4.
#[inline(always)]
#[tactic(auto, unfolding(crate::specs::ListEntries::entry4))]
fn entry4(size: u8, bytes: &mut &[u8]) -> Result<ListEntry, RangeRule>
    requires some { 1 ≤ size }
    requires few { size ≤ 8 }
    ensures exact { Gives (λ x. (x, bytes.new.now)) result ((format4 size).read bytes.old.now) }
    ensures shorter { IfOk result (λ _. length bytes.new.now < length bytes.old.now) }
{
    let low = address(size, bytes)?;
    let high = address(size, bytes)?;
    Ok(entry_between(size, low, high))
}

/// An entry of a list.
pub(crate) fn list_entry(version: u16, size: u8, bytes: &mut &[u8]) -> Result<ListEntry, RangeRule>
    requires some { 1 ≤ size }
    requires few { size ≤ 8 }
    ensures exact { Gives (λ x. (x, bytes.new.now)) result ((entry_format version size).read bytes.old.now) }
    ensures shorter { IfOk result (λ _. length bytes.new.now < length bytes.old.now) }
{
    if version == 4 {
        return entry4(size, bytes);
    }
    entry5(size, bytes)
}
