//! The scan of .debug_info, unit by unit.

ghost use Rattle.std.specs.Prelude.{IfErr, IfOk, List, OnOk, drop, length, ◌+◌, ◌≡◌, ◌≤◌};
ghost use Rattle.dw_elf.specs.declared.TheConstants.{SECTION_LIMIT};
ghost use Rattle.dw_forms.specs.AbbrevReading.{table_at};
ghost use Rattle.dw_forms.specs.AbbrevTables.{AreSearchable, AreTablesOf, tables_in};
ghost use Rattle.dw_forms.specs.Stops.{IfFault};
ghost use Rattle.dw_forms.specs.TableStarts.{IsTableIn};
ghost use Rattle.dw_entries.specs.Faults.{Fails, FailsHere};
ghost use Rattle.dw_entries.specs.Scanned.{Scanned};
ghost use Rattle.dw_entries.specs.Stopped.{BreaksBy, IfPlainFault, MoreTables, UnitTaken};
ghost use Rattle.dw_entries.specs.Units.{DebugUnit, Spells, SpellsInfo};
ghost use Rattle.dw_entries.specs.Views.{sections_of, units_of};

use crate::entries::Entries;
use crate::fault::{Fault, PlainFault, Section};
use crate::header::read_header;
use crate::records::{Kept, UnitContext, UnitRecord};
use crate::starts::read_starts;
use crate::tree::walk_unit;
use dw_elf::Sections;
use dw_forms::{AbbrevTables, Rule, Stop};
use std::alloc::Global;

/// The number of the table that begins at an offset of .debug_abbrev.
pub fn unit_table(
    alloc: Global,
    tables: &mut AbbrevTables,
    section: &[u8],
    offset: u32,
) -> Result<u32, Stop<PlainFault>>
    requires offset { offset ≤ length section.now }
    requires fits { length section.now ≤ SECTION_LIMIT }
    requires tables { AreTablesOf section.now tables.old }
    ensures found { IfOk result (IsTableIn section.now (tables_in tables.new) offset) }
    ensures tables { OnOk result (MoreTables section.now tables.old tables.new) }
    ensures fault { IfErr result (λ e. BreaksBy e (table_at section.now offset)) }
{
    match tables.read(alloc, section, offset as usize) {
        Ok(table) => Ok(table),
        Err(Stop::Memory) => Err(Stop::Memory),
        Err(Stop::Fault(broken)) => Err(Stop::Fault(PlainFault {
            rule: broken.rule,
            section: Section::Abbrev,
            at: broken.at as u32,
            attribute: broken.attribute,
        })),
    }
}

/// Takes the unit at the front of the rest of .debug_info, which is at `at`, and says how long it is.
pub fn take_unit(
    alloc: Global,
    section: &[u8],
    rest: &[u8],
    at: usize,
    kept: &mut Kept,
) -> Result<usize, Stop<PlainFault>>
    requires fits { at + length rest.now ≤ SECTION_LIMIT }
    requires table_fits { length section.now ≤ SECTION_LIMIT }
    requires tables { AreTablesOf section.now kept.old.tables }
    requires few_entries { length kept.old.records.items ≤ at }
    ensures unit { IfOk result (λ len. UnitTaken section.now rest.now at kept.old kept.new len) }
    ensures fault { IfErr result (IfFault (FailsHere section.now at rest.now)) }
{
    let at = at as u32;
    let (header, body) = match read_header(section.len(), rest) {
        Ok(found) => found,
        Err(rule) => {
            return Err(Stop::Fault(PlainFault {
                rule,
                section: Section::Info,
                at,
                attribute: 0,
            }));
        }
    };
    let table = unit_table(alloc, &mut kept.tables, section, header.abbrev_offset)?;
    let record = UnitRecord {
        at,
        header,
        table,
        first: kept.records.len() as u32,
    };
    let context = UnitContext {
        tables: &kept.tables,
        table,
        address_size: header.address_size,
        version: header.kind.version(),
    };
    walk_unit(alloc, context, record, body, &mut kept.records)?;
    kept.units.push(record)?;
    Ok(4 + header.unit_length as usize)
}

/// What is kept of the units that .debug_info is from an offset on.
fn scan_units(
    alloc: Global,
    section: &[u8],
    info: &[u8],
    base: usize,
) -> Result<Kept, Stop<PlainFault>>
    requires abbrev_fits { length section.now ≤ SECTION_LIMIT }
    requires info_fits { length info.now ≤ SECTION_LIMIT }
    requires base { base ≤ length info.now }
    ensures all { IfOk result (λ kept. Scanned base section.now info.now (tables_in kept.tables) kept.units.items
        kept.records.items) }
    ensures searchable { IfOk result (λ kept. AreSearchable kept.tables) }
    ensures fault { IfErr result (IfFault (Fails section.now base (drop base info.now))) }
{
    let mut kept = Kept {
        tables: AbbrevTables::new(alloc),
        units: Vec::new(alloc),
        records: Vec::new(alloc),
    };
    let mut rest = &info[base..];
    while !rest.is_empty() {
        let taken = take_unit(alloc, section, rest, info.len() - rest.len(), &mut kept)?;
        rest = &rest[taken..];
    }
    Ok(kept)
}

/// The entries of the units that .debug_info is from the base on.
pub fn scan<'a>(alloc: Global, sections: &Sections<'a>) -> Result<Entries<'a>, Stop<Fault>>
    ensures same { IfOk result (λ e. sections_of e ≡ sections.now) }
    ensures only { IfOk result
        (λ e. (units : List DebugUnit) → SpellsInfo sections.now units → units ≡ units_of e) }
    ensures fault { IfErr result (IfPlainFault
        (Fails sections.now.«abbrev».now sections.now.base (drop sections.now.base sections.now.info.now))) }
    ensures none { IfErr result (IfPlainFault
        (λ _. (units : List DebugUnit)
        → Spells sections.now.«abbrev».now units (drop sections.now.base sections.now.info.now) → ⊥)) }
{
    let base = sections.base as usize;
    let kept = match scan_units(alloc, sections.abbrev, sections.info, base) {
        Ok(kept) => kept,
        Err(Stop::Memory) => return Err(Stop::Memory),
        Err(Stop::Fault(broken)) => return Err(Stop::Fault(broken.into_fault(alloc))),
    };
    let blocks = read_starts(alloc, base, sections.info.len(), &kept.records)?;
    Ok(Entries {
        sections: *sections,
        decls: kept.tables.into_decls(),
        units: kept.units,
        records: kept.records,
        blocks,
    })
}
