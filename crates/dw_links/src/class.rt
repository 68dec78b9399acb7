//! The rule on classes (DWARF 5, 7.5.4 and 7.5.5): by declarations, and where one of these leaves a class open,
//! by values.

ghost use Rattle.std.specs.Prelude.{◌≡◌, ◌<◌, length, OnOk, IfErr};
ghost use Rattle.std.specs.Bool.{OnFalse};
ghost use Rattle.dw_forms.specs.Value.{view};
ghost use Rattle.dw_entries.specs.declared.fault.Section.TheVariants.{Info};
ghost use Rattle.dw_entries.specs.ByNumber.{entry_of};
ghost use Rattle.dw_entries.specs.Views.{all_entries, all_units, units_of};
ghost use Rattle.dw_entries.specs.Failures.{HasNone, IsFirst, IsLeast, IsPlainFault};
ghost use Rattle.dw_links.specs.Classes.{ClassFails, ClassFailures};
ghost use Rattle.dw_links.specs.RulesOfAttributes.{AtHead};

use dw_entries::{Entries, EntryHead, EntryId, Fault, PlainFault, Rule, Section};
use dw_forms::{Attribute, Value, class_of_value, is_allowed_in, is_open};
use std::alloc::Global;

/// A rule that fails at an attribute of an entry.
pub fn plain_fault_at(head: &EntryHead, attribute: Attribute, rule: Rule) -> PlainFault
    ensures { result ≡ record { rule = rule; section = Info; at = head.now.offset; attribute = attribute } }
{
    PlainFault {
        rule,
        section: Section::Info,
        at: head.offset,
        attribute: attribute.0,
    }
}

/// Whether a value of any entry may have none of its classes, by the declarations alone.
fn leave_open(entries: &Entries<'_>) -> bool
    ensures { OnFalse result (HasNone (ClassFailures (units_of entries.now))) }
{
    let decls = entries.decls();
    for number in 0..decls.spec_count() {
        if is_open(&decls.spec(number)) {
            return true;
        }
    }
    false
}

/// The rule on classes, if it fails at an attribute.
fn ask_class(
    entries: &Entries<'_>,
    head: &EntryHead,
    attribute: Attribute,
    value: &Value<'_>,
) -> Option<Rule>
    requires { head.now.unit < length (units_of entries.now) }
    ensures { IsLeast (ClassFails (all_units entries.now) head.now attribute (view value.now)) result }
{
    let version = entries.unit(head.unit).header.kind.version();
    if is_allowed_in(version, attribute, class_of_value(value)) {
        None
    } else {
        Some(Rule::WrongClass)
    }
}

/// The first attribute of an entry whose value has none of its classes. Only open attributes are looked at.
fn check_entry(entries: &Entries<'_>, id: EntryId) -> Result<(), PlainFault>
    requires { id < length (all_entries entries.now) }
    ensures ok { OnOk result (HasNone
        (AtHead (ClassFails (all_units entries.now)) (entry_of (all_entries entries.now) id))) }
    ensures err { IfErr result (IsFirst
        (AtHead (ClassFails (all_units entries.now)) (entry_of (all_entries entries.now) id))) }
{
    let entry = entries.at(id);
    let head = entry.head();
    let mut values = entry.values();
    while let Some(item) = values.next_open() {
        if let Some(rule) = ask_class(entries, &head, item.0, &item.1) {
            return Err(plain_fault_at(&head, item.0, rule));
        }
    }
    Ok(())
}

/// Finds the first attribute whose value has none of its classes: the fault `WrongClass` at the entry's offset.
/// Nothing grows, so memory can't run out.
pub fn check_classes(alloc: Global, entries: &Entries<'_>) -> Result<(), Fault>
    ensures ok { OnOk result (HasNone (ClassFailures (units_of entries.now))) }
    ensures fault { IfErr result (IsPlainFault (IsFirst (ClassFailures (units_of entries.now)))) }
{
    if !leave_open(entries) {
        return Ok(());
    }
    for number in 0..entries.count() {
        if let Err(broken) = check_entry(entries, entries.id(number)) {
            return Err(broken.into_fault(alloc));
        }
    }
    Ok(())
}
