//! The texts and addresses of attributes (DWARF 5, sections 7.26 and 7.27), and where a text is.

ghost use Rattle.std.specs.Prelude.{◌≡◌, ◌+◌, ◌*◌, ◌<◌, ◌≤◌, length, Some, IfSome};
ghost use Rattle.std.specs.Prelude.{option_copied, option_map};
ghost use Rattle.dw_forms.specs.Codes.{DW_AT_str_offsets_base, DW_AT_addr_base};
ghost use Rattle.dw_forms.specs.Value.{str_index, addr_index};
ghost use Rattle.dw_entries.specs.ByNumber.{entry_of};
ghost use Rattle.dw_entries.specs.Views.{sections_of, all_entries, all_units, units_of};
ghost use Rattle.dw_entries.specs.Failures.{HasNone};
ghost use Rattle.dw_links.specs.Bases.{kept_base};
ghost use Rattle.dw_links.specs.Contributions.{string_at, slot_at};
ghost use Rattle.dw_links.specs.LinkLaws.{HasStringAt, HasAddressAt};
ghost use Rattle.dw_links.specs.Slots.{BeginsString, IfShared, IsStringOf, IsTextPlace};
ghost use Rattle.dw_links.specs.ValueTexts.{address_of, text_of_string, text_there};
ghost use Rattle.dw_links.specs.Strings.{StringFailures};
ghost use Rattle.dw_links.specs.Tables.{AreTables, base_at, header_at};
ghost use Rattle.dw_links.specs.AttributeTexts.{text_at, text_place_at, address_at};

use crate::contribution::number;
use crate::tables::LinkTables;
use dw_elf::Sections;
use dw_entries::{Entries, EntryId};
use dw_forms::{Attribute, Value};
use memchr::memchr;

/// Where the text of a value of class string is.
#[derive(Clone, Copy, Debug, PartialEq, Eq)]
pub enum TextPlace {
    /// At this offset of .debug_info, in the value itself.
    Info(usize),
    /// At this offset of .debug_str.
    Str(usize),
    /// At this offset of .debug_line_str.
    LineStr(usize),
}

/// The value of an attribute of class string.
#[derive(Clone, Copy, Debug)]
pub enum StringValue<'a> {
    /// The value has the text itself: these bytes, without the zero byte after them.
    Own(&'a [u8]),
    /// The text is at this place, in a section that entries share.
    Shared(TextPlace),
}

/// The bytes before the first zero byte from an offset on.
pub fn string_from(section: &[u8], offset: usize) -> &[u8]
    requires { offset ≤ length section.now }
    ensures { result.now ≡ string_at section.now offset }
{
    let (_, rest) = section.split_at(offset);
    match memchr(0, rest) {
        Some(len) => &rest[..len],
        None => rest,
    }
}

impl TextPlace {
    /// The text at a place. It is read to its end.
    pub fn text<'a>(self, sections: &Sections<'a>) -> &'a [u8]
        requires { IsTextPlace sections.now self }
        ensures { result.now ≡ text_there sections.now self }
    {
        match self {
            TextPlace::Info(offset) => string_from(sections.info, offset),
            TextPlace::Str(offset) => string_from(sections.str, offset),
            TextPlace::LineStr(offset) => string_from(sections.line_str, offset),
        }
    }
}

/// The number in the slot of an index, where slots of so many bytes begin at a base.
fn slot(section: &[u8], size: u8, base: u32, index: u64) -> u64
    requires some { 1 ≤ size }
    requires few { size ≤ 8 }
    requires within { base + size * index + size ≤ length section.now }
    ensures { result ≡ slot_at section.now size base index }
{
    let size = size as usize;
    number(section, base as usize + size * index as usize, size)
}

/// The base of a unit, among those of all units.
fn base_of(bases: &[Option<u32>], unit: usize) -> Option<u32>
    ensures { result ≡ kept_base bases.now unit }
{
    *bases.get(unit)?
}

impl LinkTables {
    /// The string that an entry's attribute has. None if the attribute is absent or no string. The entry's unit is
    /// looked up only for an index.
    #[inline(always)]
    pub fn string<'a>(
        &self,
        entries: &Entries<'a>,
        id: EntryId,
        attribute: Attribute,
    ) -> Option<StringValue<'a>>
        requires id { id < length (all_entries entries.now) }
        requires tables { AreTables entries.now self.now }
        requires strings { HasNone (StringFailures (sections_of entries.now) (units_of entries.now)) }
        ensures text { option_map (text_of_string (sections_of entries.now)) result ≡ text_at (sections_of entries.now)
            (all_entries entries.now) (all_units entries.now) (entry_of (all_entries entries.now) id) attribute }
        ensures place { IfSome result (IfShared (λ place. text_place_at (sections_of entries.now)
            (all_entries entries.now) (all_units entries.now) (entry_of (all_entries entries.now) id) attribute
            ≡ Some place)) }
        ensures within { IfSome result (IfShared (IsTextPlace (sections_of entries.now))) }
        ensures begins { IfSome result (IfShared (BeginsString (sections_of entries.now))) }
    {
        let value = entries.value(id, attribute)?;
        match value {
            Value::Text(bytes) => Some(StringValue::Own(bytes)),
            Value::Str(offset) => Some(StringValue::Shared(TextPlace::Str(offset as usize))),
            Value::LineStr(offset) => {
                Some(StringValue::Shared(TextPlace::LineStr(offset as usize)))
            }
            Value::StrIndex(index) => {
                let place = self.place_of_index(entries, entries.unit_of(id), index);
                Some(StringValue::Shared(place))
            }
            _ => None,
        }
    }

    /// The text of an entry's attribute. None if the attribute is absent or no string.
    pub fn text<'a>(
        &self,
        entries: &Entries<'a>,
        id: EntryId,
        attribute: Attribute,
    ) -> Option<&'a [u8]>
        requires id { id < length (all_entries entries.now) }
        requires tables { AreTables entries.now self.now }
        requires strings { HasNone (StringFailures (sections_of entries.now) (units_of entries.now)) }
        ensures { option_copied result ≡ text_at (sections_of entries.now) (all_entries entries.now)
            (all_units entries.now) (entry_of (all_entries entries.now) id) attribute }
    {
        match self.string(entries, id, attribute)? {
            StringValue::Own(bytes) => Some(bytes),
            StringValue::Shared(place) => Some(place.text(entries.sections())),
        }
    }

    /// Where the string of an index is, in a unit.
    pub fn place_of_index(&self, entries: &Entries<'_>, unit: usize, index: u64) -> TextPlace
        requires unit { unit < length (units_of entries.now) }
        requires tables { AreTables entries.now self.now }
        requires lies { HasStringAt (sections_of entries.now) (base_at entries.now unit DW_AT_str_offsets_base) index }
        ensures { IsStringOf (sections_of entries.now) (base_at entries.now unit DW_AT_str_offsets_base)
            (str_index index) result }
    {
        match base_of(self.str_bases.as_slice(), unit) {
            Some(base) => {
                let offset = slot(entries.sections().str_offsets, 4, base, index);
                TextPlace::Str(offset as usize)
            }
            None => unreachable!(),
        }
    }

    /// The address of an index, in a unit.
    pub fn address_of_index(&self, entries: &Entries<'_>, unit: usize, index: u64) -> u64
        requires unit { unit < length (units_of entries.now) }
        requires tables { AreTables entries.now self.now }
        requires lies { HasAddressAt (sections_of entries.now) (header_at entries.now unit)
            (base_at entries.now unit DW_AT_addr_base) index }
        ensures { address_of (sections_of entries.now) (header_at entries.now unit)
            (base_at entries.now unit DW_AT_addr_base) (addr_index index) ≡ Some result }
    {
        match base_of(self.addr_bases.as_slice(), unit) {
            Some(base) => {
                let size = entries.unit(unit).header.address_size;
                slot(entries.sections().addr, size, base, index)
            }
            None => unreachable!(),
        }
    }

    /// The address of an entry's attribute. None if the attribute is absent or no address.
    pub fn address(&self, entries: &Entries<'_>, id: EntryId, attribute: Attribute) -> Option<u64>
        requires id { id < length (all_entries entries.now) }
        requires tables { AreTables entries.now self.now }
        requires strings { HasNone (StringFailures (sections_of entries.now) (units_of entries.now)) }
        ensures { result ≡ address_at (sections_of entries.now) (all_entries entries.now)
            (all_units entries.now) (entry_of (all_entries entries.now) id) attribute }
    {
        let value = entries.value(id, attribute)?;
        match value {
            Value::Addr(address) => Some(address),
            Value::AddrIndex(index) => {
                Some(self.address_of_index(entries, entries.unit_of(id), index))
            }
            _ => None,
        }
    }
}
