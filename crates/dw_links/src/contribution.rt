//! The contributions of units to .debug_str_offsets and .debug_addr (DWARF 5, sections 7.26 and 7.27).

ghost use Rattle.std.specs.Prelude.{◌≡◌, ◌+◌, ◌<◌, ◌≤◌, length, Some, IfSome};
ghost use Rattle.dw_elf.specs.Elf.{number_at};
ghost use Rattle.dw_entries.specs.ByNumber.{placed_of};
ghost use Rattle.dw_entries.specs.Views.{all_entries, all_units, units_of};
ghost use Rattle.dw_links.specs.Bases.{base_in};
ghost use Rattle.dw_links.specs.Contributions.{IsCount};

use byteorder::{ByteOrder, LittleEndian};
use dw_entries::Entries;
use dw_forms::{Attribute, Value};

/// The base that a unit's first entry gives to its contribution: the offset of the first slot in its section.
pub fn base_in_unit(entries: &Entries<'_>, number: usize, attribute: Attribute) -> Option<u32>
    requires { number < length (units_of entries.now) }
    ensures { result ≡ base_in (all_entries entries.now) (placed_of (all_units entries.now) number) attribute }
{
    let unit = entries.unit(number);
    if unit.header.kind.version() == 4 {
        return None;
    }
    match entries.value(unit.first, attribute) {
        Some(Value::SecOffset(base)) => Some(base),
        _ => None,
    }
}

/// The number in so many bytes from a place on, lowest first.
#[tactic(auto, unfolding(dw_elf::specs::Elf::number_at))]
pub fn number(section: &[u8], at: usize, size: usize) -> u64
    requires some { 1 ≤ size }
    requires few { size ≤ 8 }
    requires within { at + size ≤ length section.now }
    ensures { result ≡ number_at size section.now at }
{
    let (_, rest) = section.split_at(at);
    LittleEndian::read_uint(rest, size)
}

/// How many slots the contribution at a base has. None if its header is malformed.
pub fn count_slots(section: &[u8], slot: u8, mark: u8, base: u32) -> Option<u64>
    requires { 0 < slot }
    ensures { IsCount section.now slot mark base result }
{
    let base = base as usize;
    if base < 8 || base > section.len() {
        return None;
    }
    let length = number(section, base - 8, 4);
    if length >= 0xffff_fff0 || length < 4 {
        return None;
    }
    let version = number(section, base - 4, 2);
    let marked = number(section, base - 2, 1);
    let zero = number(section, base - 1, 1);
    if version != 5 || marked != mark as u64 || zero != 0 {
        return None;
    }
    let size = length - 4;
    if size % slot as u64 != 0 || size > (section.len() - base) as u64 {
        return None;
    }
    Some(size / slot as u64)
}

/// How many slots the contribution at a unit's base has, if the unit gives one.
pub fn count_named(section: &[u8], slot: u8, mark: u8, base: Option<u32>) -> Option<u64>
    requires { 0 < slot }
    ensures { IfSome base (λ base. IsCount section.now slot mark base result) }
{
    count_slots(section, slot, mark, base?)
}
