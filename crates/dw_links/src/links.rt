//! Entries whose references all have a target, and what the attributes of entries refer to.

ghost use Rattle.std.specs.Prelude.{◌≡◌, ◌<◌, length, IfSome, IfOk, option_copied, OnOk, IfErr};
ghost use Rattle.dw_entries.specs.ByNumber.{entry_of};
ghost use Rattle.dw_entries.specs.Views.{sections_of, all_entries, all_units, units_of};
ghost use Rattle.dw_entries.specs.Stopped.{IfPlainFault};
ghost use Rattle.dw_entries.specs.Failures.{HasNone};
ghost use Rattle.dw_links.specs.Targets.{target_of};
ghost use Rattle.dw_links.specs.Tables.{AreTables};
ghost use Rattle.dw_links.specs.Classes.{ClassFailures};
ghost use Rattle.dw_links.specs.LinkFaults.{IsFirstOfLinks};
ghost use Rattle.dw_links.specs.Strings.{StringFailures};
ghost use Rattle.dw_links.specs.References.{ReferenceFailures};
ghost use Rattle.dw_links.specs.AttributeTexts.{text_at, address_at};

use crate::class::check_classes;
use crate::linking::{link_entries, strings_first};
use crate::references::read_signatures;
use crate::tables::LinkTables;
use dw_entries::{Entries, EntryId, Fault, Stop};
use dw_forms::Attribute;
use std::alloc::Global;

/// Entries at whose values no rule fails. Only `link` makes one.
#[derive(Drop)]
pub struct Links<'r, 'a> {
    pub entries: &'r Entries<'a>,
    pub(crate) tables: LinkTables,
    pub ghost tables_are: { AreTables entries.now tables },
    pub ghost classes: { HasNone (ClassFailures (units_of entries.now)) },
    pub ghost strings: { HasNone (StringFailures (sections_of entries.now) (units_of entries.now)) },
    pub ghost references: { HasNone (ReferenceFailures (units_of entries.now)) },
}

/// Links entries, or finds the first value whose class is wrong; else the first string or address that is not there;
/// else the first header of a type unit whose signature or type offset is wrong, or if there is none, the first
/// reference (DWARF 5, sections 2.3, 7.5.5, 7.26 and 7.27). Runs out of memory if a table cannot grow.
pub fn link<'r, 'a>(alloc: Global, entries: &'r Entries<'a>) -> Result<Links<'r, 'a>, Stop<Fault>>
    ensures ok { OnOk result (HasNone (ReferenceFailures (units_of entries.now))) }
    ensures entries { IfOk result (λ links. links.entries ≡ entries.entry) }
    ensures fault { IfErr result (IfPlainFault (IsFirstOfLinks (sections_of entries.now) (units_of entries.now))) }
{
    check_classes(alloc, entries)?;
    let signatures = match read_signatures(alloc, entries) {
        Ok(signatures) => signatures,
        Err(Stop::Memory) => return Err(Stop::Memory),
        Err(Stop::Fault(fault)) => return Err(Stop::Fault(strings_first(alloc, entries, fault))),
    };
    let tables = link_entries(alloc, entries, signatures)?;
    Ok(Links { entries, tables })
}

impl<'a> Links<'_, 'a> {
    /// The target of an entry's attribute. None if the attribute is absent or no reference.
    pub fn target(&self, id: EntryId, attribute: Attribute) -> Option<EntryId>
        requires { id < length (all_entries self.now.entries.now) }
        ensures exact { result ≡ target_of (all_entries self.now.entries.now) (all_units self.now.entries.now)
            (entry_of (all_entries self.now.entries.now) id) attribute }
        ensures within { IfSome result (λ t. t < length (all_entries self.now.entries.now)) }
    {
        self.tables.target(self.entries, id, attribute)
    }

    /// The text of an entry's attribute. None if the attribute is absent or no string.
    pub fn text(&self, id: EntryId, attribute: Attribute) -> Option<&'a [u8]>
        requires { id < length (all_entries self.now.entries.now) }
        ensures { option_copied result ≡ text_at (sections_of self.now.entries.now)
            (all_entries self.now.entries.now) (all_units self.now.entries.now)
            (entry_of (all_entries self.now.entries.now) id) attribute }
    {
        self.tables.text(self.entries, id, attribute)
    }

    /// The address of an entry's attribute. None if the attribute is absent or no address.
    pub fn address(&self, id: EntryId, attribute: Attribute) -> Option<u64>
        requires { id < length (all_entries self.now.entries.now) }
        ensures { result ≡ address_at (sections_of self.now.entries.now)
            (all_entries self.now.entries.now) (all_units self.now.entries.now)
            (entry_of (all_entries self.now.entries.now) id) attribute }
    {
        self.tables.address(self.entries, id, attribute)
    }

    /// The tables, which are those of the entries.
    pub fn tables(&self) -> &LinkTables
        ensures { AreTables self.now.entries.now result.now }
    {
        &self.tables
    }

    /// The tables alone, for a caller who keeps them beside the entries.
    pub fn into_tables(self) -> LinkTables
        ensures { AreTables self.entry.entries.now result }
    {
        self.tables
    }
}
