//! The names of functions, and the directory of a unit's compilation (DWARF 5, 2.15, 2.22, 3.1.1 and 3.3.8).

ghost use Rattle.std.specs.Prelude.{◌≡◌, ◌<◌, IfSome, length, option_copied};
ghost use Rattle.dw_entries.specs.Failures.{HasNone};
ghost use Rattle.dw_entries.specs.Views.{all_entries, sections_of, units_of};
ghost use Rattle.dw_links.specs.Strings.{StringFailures};
ghost use Rattle.dw_links.specs.Tables.{AreTables};
ghost use Rattle.dw_addresses.specs.Names.{compilation_directory, function_name as name_of_function, most_origins};
ghost use Rattle.dw_addresses.specs.Names.{name_above as name_among, origin_of};

use dw_entries::constants::{DW_AT_abstract_origin, DW_AT_name, DW_AT_specification};
use dw_entries::{Attribute, Entries, EntryId};
use dw_links::LinkTables;

/// DW_AT_comp_dir
const DW_AT_COMP_DIR: Attribute = Attribute(0x1b);
/// DW_AT_linkage_name
const DW_AT_LINKAGE_NAME: Attribute = Attribute(0x6e);

/// The entry that an entry stands for: its abstract origin, or its specification.
fn origin(entries: &Entries<'_>, tables: &LinkTables, id: EntryId) -> Option<EntryId>
    requires id { id < length (all_entries entries.now) }
    requires tables { AreTables entries.now tables.now }
    ensures exact { result ≡ origin_of entries.now id }
    ensures within { IfSome result (λ to. to < length (all_entries entries.now)) }
{
    match tables.target(entries, id, DW_AT_abstract_origin) {
        Some(target) => Some(target),
        None => tables.target(entries, id, DW_AT_specification),
    }
}

/// The first text of an attribute of an entry and of those that it stands for, one after another. At most 64 are looked
/// at, because each may stand for the other.
fn name_above<'a>(
    entries: &Entries<'a>,
    tables: &LinkTables,
    id: EntryId,
    attribute: Attribute,
) -> Option<&'a [u8]>
    requires id { id < length (all_entries entries.now) }
    requires tables { AreTables entries.now tables.now }
    requires strings { HasNone (StringFailures (sections_of entries.now) (units_of entries.now)) }
    ensures { option_copied result ≡ name_among entries.now attribute most_origins id }
{
    let mut at = id;
    for _step in 0..64u32 {
        if let Some(text) = tables.text(entries, at, attribute) {
            return Some(text);
        }
        at = origin(entries, tables, at)?;
    }
    None
}

/// The name of a function: its linkage name, or its own.
pub fn function_name<'a>(
    entries: &Entries<'a>,
    tables: &LinkTables,
    id: EntryId,
) -> Option<&'a [u8]>
    requires id { id < length (all_entries entries.now) }
    requires tables { AreTables entries.now tables.now }
    requires strings { HasNone (StringFailures (sections_of entries.now) (units_of entries.now)) }
    ensures { option_copied result ≡ name_of_function entries.now id }
{
    match name_above(entries, tables, id, DW_AT_LINKAGE_NAME) {
        Some(name) => Some(name),
        None => name_above(entries, tables, id, DW_AT_name),
    }
}

/// The directory of the compilation that the unit with a number names.
pub fn directory_of_unit<'a>(
    entries: &Entries<'a>,
    tables: &LinkTables,
    unit: usize,
) -> Option<&'a [u8]>
    requires unit { unit < length (units_of entries.now) }
    requires tables { AreTables entries.now tables.now }
    requires strings { HasNone (StringFailures (sections_of entries.now) (units_of entries.now)) }
    ensures { option_copied result ≡ compilation_directory entries.now unit }
{
    tables.text(entries, entries.unit(unit).first, DW_AT_COMP_DIR)
}
