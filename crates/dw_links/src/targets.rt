//! The targets of references (DWARF 5, sections 2.3 and 7.5.5): the entry that a value refers to, and which entries an
//! attribute may refer to.

ghost use Rattle.std.specs.Prelude.{◌≡◌, ◌<◌, length, IfSome, Some};
ghost use Rattle.dw_forms.specs.Value.{view};
ghost use Rattle.dw_entries.specs.Views.{all_entries, all_units, units_of};
ghost use Rattle.dw_entries.specs.ByNumber.{entry_of};
ghost use Rattle.dw_links.specs.References.{is_declared, is_signed, is_signature, is_reference_value, permits};
ghost use Rattle.dw_links.specs.References.{permits_form};
ghost use Rattle.dw_links.specs.DeclaredEntries.{KeepsDeclared};
ghost use Rattle.dw_links.specs.SignedTypes.{HasSignedTypes};
ghost use Rattle.dw_links.specs.Targets.{signed_type, reach_of, target_of};

use dw_entries::constants::*;
use dw_entries::{Entries, EntryHead, EntryId};
use dw_forms::{Attribute, Value};
use std::collections::BTreeMap;

/// The type of a signature.
fn type_by_signature(
    entries: &Entries<'_>,
    signatures: &BTreeMap<u64, EntryId>,
    signature: u64,
) -> Option<EntryId>
    requires { HasSignedTypes entries.now signatures.now }
    ensures { result ≡ signed_type (all_entries entries.now) (all_units entries.now) signature }
{
    let id = signatures.get(&signature)?;
    Some(*id)
}

/// The target of a value in a unit.
#[inline(always)]
pub fn reach(
    entries: &Entries<'_>,
    signatures: &BTreeMap<u64, EntryId>,
    unit: usize,
    value: &Value<'_>,
) -> Option<EntryId>
    requires unit { unit < length (units_of entries.now) }
    requires signatures { HasSignedTypes entries.now signatures.now }
    ensures { result ≡ reach_of (all_entries entries.now) (all_units entries.now) unit (view value.now) }
{
    match *value {
        Value::RefInfo(offset) => entries.find(offset),
        Value::RefUnit(offset) => entries.find_in_unit(unit, offset),
        Value::RefSig(signature) => type_by_signature(entries, signatures, signature),
        _ => None,
    }
}

/// Finds the target of an entry's attribute.
pub(crate) fn find_target(
    entries: &Entries<'_>,
    signatures: &BTreeMap<u64, EntryId>,
    id: EntryId,
    attribute: Attribute,
) -> Option<EntryId>
    requires id { id < length (all_entries entries.now) }
    requires signatures { HasSignedTypes entries.now signatures.now }
    ensures exact { result ≡ target_of (all_entries entries.now) (all_units entries.now)
        (entry_of (all_entries entries.now) id) attribute }
    ensures within { IfSome result (λ t. t < length (all_entries entries.now)) }
{
    let value = entries.value(id, attribute)?;
    reach(entries, signatures, entries.unit_of(id), &value)
}

/// Whether DW_AT_declaration of an entry is true.
fn read_declared(entries: &Entries<'_>, id: EntryId) -> bool
    requires { id < length (all_entries entries.now) }
    ensures { result ≡ is_declared (entry_of (all_entries entries.now) id) }
{
    matches!(
        entries.value(id, DW_AT_declaration),
        Some(Value::Flag(true))
    )
}

/// Whether a value is a reference.
pub fn is_reference(value: &Value<'_>) -> bool
    ensures { result ≡ is_reference_value (view value.now) }
{
    matches!(
        value,
        Value::RefInfo(_) | Value::RefUnit(_) | Value::RefSig(_)
    )
}

/// Whether a value is a signature.
pub fn is_sig8(value: &Value<'_>) -> bool
    ensures { result ≡ is_signature (view value.now) }
{
    matches!(value, Value::RefSig(_))
}

/// Whether an attribute is the signature of a structure, union or enumeration.
fn is_signed_by(head: &EntryHead, attribute: Attribute) -> bool
    ensures { result ≡ is_signed head.now attribute }
{
    attribute == DW_AT_signature
        && matches!(
            head.tag,
            DW_TAG_structure_type | DW_TAG_union_type | DW_TAG_enumeration_type
        )
}

/// Whether an attribute of an entry may have a value of this form.
pub fn is_permitted_form(head: &EntryHead, attribute: Attribute, value: &Value<'_>) -> bool
    ensures { result ≡ permits_form head.now attribute (view value.now) }
{
    !is_signed_by(head, attribute) || matches!(value, Value::RefSig(_))
}

/// Which entries are declarations, as far as this was read: an entry is read when this is first needed.
#[derive(Drop)]
pub struct Declared<'e, 'd> {
    pub entries: &'e Entries<'d>,
    /// Whether DW_AT_declaration of an entry is true, or None if it was not read.
    pub known: Vec<Option<bool>>,
    ghost kept: { KeepsDeclared entries.now known.items },
}

impl Declared<'_, '_> {
    /// Whether an entry is declared and not defined.
    fn is_declaration(&mut self, id: EntryId) -> bool
        requires { id < length (all_entries self.old.entries.now) }
        ensures exact { result ≡ is_declared (entry_of (all_entries self.old.entries.now) id) }
        ensures same { self.new.entries.now ≡ self.old.entries.now }
    {
        match self.known[id.number()] {
            Some(declared) => declared,
            None => {
                let read = read_declared(self.entries, id);
                self.known[id.number()] = Some(read);
                read
            }
        }
    }

    /// Whether an attribute of an entry may have a target. This project's choice: the type, the specification, the
    /// signature and the import of a unit have targets of their kinds, and other attributes may refer to any entry. The
    /// target's unit is not looked up.
    pub fn is_permitted(&mut self, head: &EntryHead, attribute: Attribute, id: EntryId) -> bool
        requires { id < length (all_entries self.old.entries.now) }
        ensures exact { result ≡ permits head.now attribute (entry_of (all_entries self.old.entries.now) id) }
        ensures same { self.new.entries.now ≡ self.old.entries.now }
    {
        let entries = self.entries;
        let target = entries.decl(id);
        if attribute == DW_AT_type {
            return target.is_type();
        }
        if attribute == DW_AT_specification {
            return entries.offset(id) != head.offset && self.is_declaration(id);
        }
        if is_signed_by(head, attribute) {
            return target.tag() == head.tag;
        }
        if attribute == DW_AT_import && head.tag == DW_TAG_imported_unit {
            return matches!(target.tag(), DW_TAG_compile_unit | DW_TAG_partial_unit);
        }
        true
    }
}
