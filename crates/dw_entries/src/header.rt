//! Unit headers (DWARF 5, section 7.5.1; DWARF 4, section 7.5.1.1).

ghost use Rattle.std.specs.Prelude.{◌≡◌};
ghost use Rattle.dw_forms.specs.ValueReading.{Gives};
ghost use Rattle.dw_entries.specs.Header.{version_of, type_of, code_of_type, fits_tag, unit_header_size};
ghost use Rattle.dw_entries.specs.Header.{address_size as size_format, kind_fields};
ghost use Rattle.dw_entries.specs.Header.{abbrev_offset as offset_format, version4 as format4, version5 as format5};
ghost use Rattle.dw_entries.specs.Header.{header_fields, header_at};

use dw_forms::constants::{DW_TAG_compile_unit, DW_TAG_partial_unit, DW_TAG_type_unit};
use dw_forms::{Rule, Tag, take_bytes, take_number, take_offset};

/// The types of units (DWARF 5, section 7.5.1, Table 7.2).
#[derive(Clone, Copy, Debug, PartialEq, Eq)]
pub enum UnitType {
    CompileUnit,
    TypeUnit,
    PartialUnit,
}

impl UnitType {
    /// The code in a header of version 5.
    pub fn code(self) -> u8
        ensures { result ≡ code_of_type self }
    {
        match self {
            UnitType::CompileUnit => 1,
            UnitType::TypeUnit => 2,
            UnitType::PartialUnit => 3,
        }
    }
}

/// What a header says of its unit: in version 4 nothing, in version 5 its type.
#[derive(Clone, Copy, Debug, PartialEq, Eq)]
pub enum HeaderKind {
    Version4,
    CompileUnit,
    PartialUnit,
    TypeUnit { signature: u64, type_offset: u32 },
}

/// The fields of a unit's header.
#[derive(Clone, Copy, Debug, PartialEq, Eq)]
pub struct UnitHeader {
    /// How many bytes of the unit follow this field.
    pub unit_length: u32,
    pub kind: HeaderKind,
    /// 4 or 8.
    pub address_size: u8,
    /// Where the unit's table begins in .debug_abbrev.
    pub abbrev_offset: u32,
}

impl HeaderKind {
    /// The version in the header.
    pub fn version(self) -> u16
        ensures { result ≡ version_of self }
    {
        match self {
            HeaderKind::Version4 => 4,
            _ => 5,
        }
    }

    /// The type of a unit with this header, whose first entry has this tag. In version 4 the tag says it.
    pub fn unit_type(self, first_tag: Tag) -> UnitType
        ensures { result ≡ type_of self first_tag }
    {
        match self {
            HeaderKind::Version4 => {
                if first_tag == DW_TAG_partial_unit {
                    UnitType::PartialUnit
                } else {
                    UnitType::CompileUnit
                }
            }
            HeaderKind::CompileUnit => UnitType::CompileUnit,
            HeaderKind::TypeUnit { .. } => UnitType::TypeUnit,
            HeaderKind::PartialUnit => UnitType::PartialUnit,
        }
    }

    /// How many bytes the header has.
    pub fn size(self) -> usize
        ensures { result ≡ unit_header_size self }
    {
        match self {
            HeaderKind::Version4 => 11,
            HeaderKind::TypeUnit { .. } => 24,
            _ => 12,
        }
    }

    /// Whether the unit's first entry may have this tag.
    pub fn fits(self, tag: Tag) -> bool
        ensures { result ≡ fits_tag self tag }
    {
        match self {
            HeaderKind::Version4 => tag == DW_TAG_compile_unit || tag == DW_TAG_partial_unit,
            HeaderKind::CompileUnit => tag == DW_TAG_compile_unit,
            HeaderKind::TypeUnit { .. } => tag == DW_TAG_type_unit,
            HeaderKind::PartialUnit => tag == DW_TAG_partial_unit,
        }
    }
}

/// The size of an address.
#[tactic(auto, unfolding(crate::specs::Header::address_size))]
fn address_size(bytes: &mut &[u8]) -> Result<u8, Rule>
    ensures { Gives (λ x. (x, bytes.new.now)) result (size_format.read bytes.old.now) }
{
    let size = take_number(Rule::UnitCut, 1, bytes)?;
    if size != 4 && size != 8 {
        return Err(Rule::BadAddressSize);
    }
    Ok(size as u8)
}

/// The offset of the unit's table, where .debug_abbrev has so many bytes.
#[tactic(auto, unfolding(crate::specs::Header::abbrev_offset))]
fn abbrev_offset(abbrev_size: usize, bytes: &mut &[u8]) -> Result<u32, Rule>
    ensures { Gives (λ x. (x, bytes.new.now)) result ((offset_format abbrev_size).read bytes.old.now) }
{
    let offset = take_offset(Rule::UnitCut, bytes)?;
    if abbrev_size <= offset as usize {
        return Err(Rule::BadAbbrevOffset);
    }
    Ok(offset)
}

/// The fields after a version of 4 (DWARF 4, 7.5.1.1).
#[tactic(auto, unfolding(crate::specs::Header::version4))]
fn version4(abbrev_size: usize, unit_length: u32, bytes: &mut &[u8]) -> Result<UnitHeader, Rule>
    ensures { Gives (λ x. (x, bytes.new.now)) result ((format4 abbrev_size unit_length).read bytes.old.now) }
{
    let abbrev_offset = abbrev_offset(abbrev_size, bytes)?;
    Ok(UnitHeader {
        unit_length,
        kind: HeaderKind::Version4,
        address_size: address_size(bytes)?,
        abbrev_offset,
    })
}

/// The fields that a type unit has after those of all units.
#[tactic(auto, unfolding(crate::specs::Header::kind_fields))]
fn kind(code: u64, bytes: &mut &[u8]) -> Result<HeaderKind, Rule>
    ensures { Gives (λ x. (x, bytes.new.now)) result ((kind_fields code).read bytes.old.now) }
{
    Ok(match code {
        1 => HeaderKind::CompileUnit,
        3 => HeaderKind::PartialUnit,
        _ => HeaderKind::TypeUnit {
            signature: take_number(Rule::UnitCut, 8, bytes)?,
            type_offset: take_offset(Rule::UnitCut, bytes)?,
        },
    })
}

/// The fields after a version of 5 (DWARF 5, 7.5.1).
#[tactic(auto, unfolding(crate::specs::Header::version5))]
fn version5(abbrev_size: usize, unit_length: u32, bytes: &mut &[u8]) -> Result<UnitHeader, Rule>
    ensures { Gives (λ x. (x, bytes.new.now)) result ((format5 abbrev_size unit_length).read bytes.old.now) }
{
    let code = take_number(Rule::UnitCut, 1, bytes)?;
    if code < 1 || 3 < code {
        return Err(Rule::BadUnitType);
    }
    let address_size = address_size(bytes)?;
    let abbrev_offset = abbrev_offset(abbrev_size, bytes)?;
    Ok(UnitHeader {
        unit_length,
        kind: kind(code, bytes)?,
        address_size,
        abbrev_offset,
    })
}

/// The fields after unit_length.
#[tactic(auto, unfolding(crate::specs::Header::header_fields))]
fn fields(abbrev_size: usize, unit_length: u32, bytes: &mut &[u8]) -> Result<UnitHeader, Rule>
    ensures { Gives (λ x. (x, bytes.new.now)) result ((header_fields abbrev_size unit_length).read bytes.old.now) }
{
    match take_number(Rule::UnitCut, 2, bytes)? {
        4 => version4(abbrev_size, unit_length, bytes),
        5 => version5(abbrev_size, unit_length, bytes),
        _ => Err(Rule::BadVersion),
    }
}

/// The header at the front, and the bytes after it to the unit's end.
#[tactic(auto, unfolding(crate::specs::Header::header_at, crate::specs::Header::unit_at))]
pub fn read_header(abbrev_size: usize, bytes: &[u8]) -> Result<(UnitHeader, &[u8]), Rule>
    ensures { Gives (λ x. (x.0, x.1.now)) result (header_at abbrev_size bytes.now) }
{
    let mut rest = bytes;
    let unit_length = take_offset(Rule::UnitCut, &mut rest)?;
    if unit_length >= 0xfffffff0 {
        return Err(Rule::Not32Bit);
    }
    let mut unit = take_bytes(Rule::UnitCut, u64::from(unit_length), &mut rest)?;
    let header = fields(abbrev_size, unit_length, &mut unit)?;
    Ok((header, unit))
}
