//! What is kept of units and of entries, and what the items of a unit are read by.

ghost use Rattle.std.specs.Prelude.{◌<◌, length};
ghost use Rattle.dw_forms.specs.AbbrevTables.{tables_in, AreSearchable};
ghost use Rattle.dw_entries.specs.Choices.{size_unique, version_unique};
ghost use Rattle.dw_entries.specs.Header.{IsSize, IsVersion};

use crate::header::UnitHeader;
use crate::id::OptionalId;
use dw_forms::AbbrevTables;

/// Where a unit is, and what its header says. Units are numbered in rising offset.
#[derive(Clone, Copy, Debug)]
pub struct UnitRecord {
    /// The offset of its header.
    pub at: u32,
    pub header: UnitHeader,
    /// The number of its table.
    pub table: u32,
    /// The number of its first entry.
    pub first: u32,
}

/// Where an entry is, and how it hangs in its unit's tree. Entries are numbered in rising offset.
#[derive(Clone, Copy, Debug)]
pub struct Record {
    /// The offset of its first byte.
    pub at: u32,
    /// The number of its declaration.
    pub decl: u32,
    pub parent: OptionalId,
    /// Its next sibling.
    pub next: OptionalId,
}

/// What is kept of the units that were taken.
#[derive(Debug, Drop)]
pub struct Kept {
    pub tables: AbbrevTables,
    pub units: Vec<UnitRecord>,
    pub records: Vec<Record>,
}

/// What the items of a unit are read by.
#[derive(Clone, Copy)]
pub struct UnitContext<'a> {
    pub tables: &'a AbbrevTables,
    /// The number of the unit's table.
    pub table: u32,
    pub address_size: u8,
    pub version: u16,
    ghost searchable: { AreSearchable tables.now },
    ghost within: { table < length (tables_in tables.now) },
    ghost is_size: { IsSize address_size } by { size_unique address_size },
    ghost is_version: { IsVersion version } by { version_unique version },
}
