//! What is read once of all units, and the targets found with it.

ghost use Rattle.std.specs.Prelude.{◌≡◌, ◌<◌, length, IfSome};
ghost use Rattle.dw_entries.specs.ByNumber.{entry_of};
ghost use Rattle.dw_entries.specs.declared.entries.Entries.{Entries};
ghost use Rattle.dw_entries.specs.Views.{all_entries, all_units, units_of};
ghost use Rattle.dw_links.specs.Constants.{language_at};
ghost use Rattle.dw_links.specs.Targets.{target_of, reach_of};
ghost use Rattle.dw_links.specs.Tables.{target_of_type, AreTables};
ghost use Rattle.dw_forms.specs.Value.{view};

use crate::constant::Constant;
use crate::targets::{find_target, reach};
use dw_entries::constants::*;
use dw_entries::{Entries, EntryId, OptionalId};
use dw_forms::{Attribute, Value};
use std::collections::BTreeMap;

/// What is read once, so that values can be followed: the type of each signature, the bases and the language of each
/// unit, and the target of each entry's type.
#[derive(Drop)]
pub struct LinkTables {
    pub(crate) signatures: BTreeMap<u64, EntryId>,
    pub(crate) str_bases: Vec<Option<u32>>,
    pub(crate) addr_bases: Vec<Option<u32>>,
    pub(crate) languages: Vec<Constant>,
    pub(crate) types: Vec<OptionalId>,
}

impl LinkTables {
    /// DW_AT_language of the unit with a number. Absent if there is no such unit.
    pub fn language(&self, number: usize) -> Constant
        ensures { (entries : Entries) → AreTables entries self.now
            → result ≡ language_at (all_units entries) number }
    {
        match self.languages.get(number) {
            Some(language) => *language,
            None => Constant::Absent,
        }
    }

    /// The target of an entry's type.
    fn type_of(&self, entries: &Entries<'_>, id: EntryId) -> Option<EntryId>
        requires id { id < length (all_entries entries.now) }
        requires tables { AreTables entries.now self.now }
        ensures exact { result ≡ target_of_type (all_entries entries.now) (all_units entries.now)
            (entry_of (all_entries entries.now) id) }
        ensures within { IfSome result (λ t. t < length (all_entries entries.now)) }
    {
        let number = self.types[id.number()].get()?;
        Some(entries.id(number as usize))
    }

    /// The target of an entry's attribute. None if the attribute is absent or no reference.
    pub fn target(
        &self,
        entries: &Entries<'_>,
        id: EntryId,
        attribute: Attribute,
    ) -> Option<EntryId>
        requires id { id < length (all_entries entries.now) }
        requires tables { AreTables entries.now self.now }
        ensures exact { result ≡ target_of (all_entries entries.now) (all_units entries.now)
            (entry_of (all_entries entries.now) id) attribute }
        ensures within { IfSome result (λ t. t < length (all_entries entries.now)) }
    {
        if attribute == DW_AT_type {
            return self.type_of(entries, id);
        }
        find_target(entries, &self.signatures, id, attribute)
    }

    /// The target of a value in a unit. None if the value is no reference.
    pub fn reach(&self, entries: &Entries<'_>, unit: usize, value: &Value<'_>) -> Option<EntryId>
        requires unit { unit < length (units_of entries.now) }
        requires tables { AreTables entries.now self.now }
        ensures { result ≡ reach_of (all_entries entries.now) (all_units entries.now) unit (view value.now) }
    {
        reach(entries, &self.signatures, unit, value)
    }
}
