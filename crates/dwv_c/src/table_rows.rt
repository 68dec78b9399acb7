//! The rows of units and of entries.

ghost use Rattle.std.specs.Prelude.{◌≡◌, ◌<◌, Some, length, min, IfSome, unwrap_or};
ghost use Rattle.dw_entries.specs.ByNumber.{entry_of, placed_of};
ghost use Rattle.dw_entries.specs.Entries.{placed};
ghost use Rattle.dw_image.specs.Images.{entries_in, unit_count, units_in};
ghost use Rattle.dwv_c.specs.Tables.{HasSize, greatest, IsUnitRow, name_span, number_under, offset_under, row_of};
ghost use Rattle.dwv_c.specs.SectionPlaces.{nowhere};
ghost use Rattle.dwv_c.specs.TableState.{HasLinks, depth_by};

use crate::places::Span;
use dw_entries::constants::*;
use dw_entries::{Attribute, EntryId, Value};
use dw_image::{Image, Tag};

/// Where a unit's range lists are counted from in .debug_rnglists, and its location lists in .debug_loclists (DWARF 5,
/// table 7.5).
const DW_AT_rnglists_base: Attribute = Attribute(0x74);

const DW_AT_loclists_base: Attribute = Attribute(0x8c);

/// No entry.
const NONE: u32 = u32::MAX;

/// A unit of sound sections.
#[repr(C)]
#[derive(Clone, Copy, Debug)]
pub struct UnitRow {
    /// The language, or 0.
    pub language: u64,
    /// Where the unit starts in .debug_info.
    pub offset: u32,
    /// 4 or 5.
    pub version: u32,
    /// The unit type, as in a header of version 5.
    pub unit_type: u32,
    /// 4 or 8.
    pub address_size: u32,
    /// The row of its first entry, and how many it has.
    pub first: u32,
    pub entries: u32,
    /// What indices of range lists and of location lists count from, or 0.
    pub rnglists_base: u32,
    pub loclists_base: u32,
}

/// An entry of sound sections, with its place among the others and its values.
#[repr(C)]
#[derive(Clone, Copy, Debug)]
pub struct EntryRow {
    /// The size in bytes, or 0 if `has_size` is 0.
    pub size: u64,
    /// Where the name starts, or 0 if there is none.
    pub name: u64,
    /// Where the entry starts in .debug_info.
    pub offset: u32,
    /// How many entries are above it.
    pub depth: u32,
    /// The tag.
    pub tag: u32,
    /// 1 for a type that has a size, else 0.
    pub has_size: u32,
    /// How many bytes the name has, without its zero byte, or 0 if there is none.
    pub name_length: u32,
    /// Which section the name is in, or 0 if there is none.
    pub name_section: u32,
    /// The row of its first value, and how many it has.
    pub first_value: u64,
    pub values: u32,
    /// The row of its unit.
    pub unit: u32,
    /// The row of its parent, and of its next sibling, or `NONE`.
    pub parent: u32,
    pub next_sibling: u32,
}

/// How many rows there are.
#[repr(C)]
#[derive(Clone, Copy, Debug)]
pub struct TableCounts {
    pub units: u64,
    pub entries: u64,
    pub values: u64,
}

/// A count in 32 bits, or the greatest number of 32 bits if it does not fit.
pub fn count_in(count: usize) -> u32
    ensures { result ≡ min count greatest }
{
    if count < NONE as usize {
        count as u32
    } else {
        NONE
    }
}

/// The row of an entry, or the word for none.
pub fn row_or_none(id: Option<EntryId>) -> u32
    ensures { result ≡ row_of id }
{
    match id {
        Some(id) => id.number() as u32,
        None => NONE,
    }
}

/// The number under an attribute of an entry, or 0 if there is none that is 0 or more.
fn number_under(image: &Image<'_>, id: EntryId, attribute: Attribute) -> u64
    requires { id < length (entries_in image.now) }
    ensures { result ≡ number_under (entry_of (entries_in image.now) id) attribute }
{
    match image.value(id, attribute) {
        Some(Value::Unsigned(n)) => n,
        Some(Value::Signed(n)) if n > 0 => n as u64,
        _ => 0,
    }
}

/// The offset into a section under an attribute of an entry, or 0 if there is none.
fn offset_under(image: &Image<'_>, id: EntryId, attribute: Attribute) -> u32
    requires { id < length (entries_in image.now) }
    ensures { result ≡ offset_under (entry_of (entries_in image.now) id) attribute }
{
    match image.value(id, attribute) {
        Some(Value::SecOffset(offset)) => offset,
        _ => 0,
    }
}

/// The row of a unit.
#[tactic(auto, unfolding(dw_image::specs::Images::units_in))]
pub fn unit_row(image: &Image<'_>, number: usize) -> UnitRow
    requires { number < unit_count image.now }
    ensures { IsUnitRow image.now (placed_of (placed (units_in image.now)) number) result }
{
    let head = image.scanned().unit(number);
    let (first, end) = image.scanned().range(number);
    UnitRow {
        language: number_under(image, head.first, DW_AT_language),
        offset: head.offset,
        version: u32::from(head.header.kind.version()),
        unit_type: u32::from(head.unit_type.code()),
        address_size: u32::from(head.header.address_size),
        first: head.first.number() as u32,
        entries: count_in(end - first),
        rnglists_base: offset_under(image, head.first, DW_AT_rnglists_base),
        loclists_base: offset_under(image, head.first, DW_AT_loclists_base),
    }
}

/// The depth of an entry, by the row of its parent.
pub fn depth_by_rows(rows: &[EntryRow], parent: Option<EntryId>) -> u32
    requires { IfSome parent (λ p. p < length rows.now) }
    ensures { depth_by rows.now parent ≡ Some result }
{
    match parent {
        Some(parent) => rows[parent.number()].depth.saturating_add(1),
        None => 0,
    }
}

/// An entry's place among the others, and its values.
#[derive(Clone, Copy, Debug)]
pub struct Links {
    pub first_value: usize,
    pub values: usize,
    pub unit: usize,
    pub parent: Option<EntryId>,
    pub next_sibling: Option<EntryId>,
}

/// The row of what is known of an entry.
pub fn row_with(
    offset: u32,
    depth: u32,
    tag: Tag,
    size: Option<u64>,
    name: Option<Span>,
    links: Links,
) -> EntryRow
    requires { links.unit < 4_294_967_296 }
    ensures offset { result.offset ≡ offset }
    ensures depth { result.depth ≡ depth }
    ensures tag { result.tag ≡ tag }
    ensures size { HasSize size result }
    ensures name { name_span result ≡ unwrap_or name nowhere }
    ensures links { HasLinks links result }
{
    let (size, has_size) = match size {
        Some(size) => (size, 1),
        None => (0, 0),
    };
    let (name, name_length, name_section) = match name {
        Some(span) => (span.start, span.length, span.section),
        None => (0, 0, 0),
    };
    EntryRow {
        size,
        name,
        offset,
        depth,
        tag: u32::from(tag.0),
        has_size,
        name_length,
        name_section,
        first_value: links.first_value as u64,
        values: count_in(links.values),
        unit: links.unit as u32,
        parent: row_or_none(links.parent),
        next_sibling: row_or_none(links.next_sibling),
    }
}
