//! The rules on strings, addresses and references, checked in one pass over the values of all entries, and what is kept
//! of it: the bases and languages of units, and the targets of types.

ghost use Rattle.std.specs.Prelude.{◌≡◌, ◌<◌, length, Some, IfSome, IfOk, IfErr};
ghost use Rattle.dw_entries.specs.Views.{sections_of, all_entries, all_units, units_of};
ghost use Rattle.dw_entries.specs.Failures.{HasNone, IsFirst, IsPlainFault};
ghost use Rattle.dw_entries.specs.Stopped.{IfPlainFault};
ghost use Rattle.dw_links.specs.EntryLinks.{kept_after, IsEntryLinked, IsFirstAtEntry, IsFirstOfGroup};
ghost use Rattle.dw_links.specs.EntryLinks.{AreLinked};
ghost use Rattle.dw_links.specs.UnitAtHand.{entries_followed, entry_with, MayLink};
ghost use Rattle.dw_links.specs.LinkFaults.{IsFirstOfTargets};
ghost use Rattle.dw_links.specs.References.{HeaderFailures, ReferenceFailures};
ghost use Rattle.dw_links.specs.SignedTypes.{HasSignedTypes};

use crate::constant::language_in_unit;
use crate::references::UnitLinks;
use crate::strings::check_strings;
use crate::tables::LinkTables;
use crate::targets::Declared;
use dw_elf::end_of_texts;
use dw_entries::constants::*;
use dw_entries::{Entries, EntryId, Fault, OptionalId, PlainFault, Stop, UnitHeader};
use dw_forms::Attribute;
use std::alloc::Global;
use std::collections::BTreeMap;

/// The number of an entry, or none.
pub(crate) fn number_of(entries: &Entries<'_>, id: &Option<EntryId>) -> OptionalId
    requires { IfSome id.now (λ t. t < length (all_entries entries.now)) }
    ensures { result ≡ id.now }
{
    match id {
        Some(id) => OptionalId::some(id.number() as u32),
        None => OptionalId::none(),
    }
}

/// What is kept of an entry's type after one attribute more: the target of the first type.
#[inline(always)]
pub(crate) fn keep(
    kept: Option<OptionalId>,
    attribute: Attribute,
    reached: OptionalId,
) -> Option<OptionalId>
    ensures { result ≡ kept_after kept attribute reached }
{
    if kept.is_none() && attribute == DW_AT_type {
        Some(reached)
    } else {
        kept
    }
}

impl UnitLinks<'_, '_, '_> {
    /// The target of an entry's type, or the first failure at the entry. Each value is decoded once.
    #[inline(always)]
    fn link_entry(
        &self,
        declared: &mut Declared<'_, '_>,
        id: EntryId,
        header: UnitHeader,
    ) -> Result<OptionalId, PlainFault>
        requires may { MayLink self.now id }
        requires header { header ≡ self.now.texts.head.header }
        requires of { declared.old.entries.now ≡ entries_followed self.now }
        ensures of { declared.new.entries.now ≡ entries_followed self.now }
        ensures ok { IfOk result (IsEntryLinked (entries_followed self.now) (entry_with self.now id)) }
        ensures err { IfErr result (IsFirstAtEntry (entries_followed self.now) (entry_with self.now id)) }
    {
        let entry = self.entry(id, header);
        let mut leading = entry.leading();
        let mut kept = None;
        while let Some(led) = leading.take() {
            let after = self.link_led(declared, id, &led, kept)?;
            kept = after;
        }
        Ok(kept.unwrap_or(OptionalId::none()))
    }
}

/// The fault of a reference, or of a string or an address, if there is one in any entry. These come first.
#[inline(never)]
pub(crate) fn strings_first(alloc: Global, entries: &Entries<'_>, reference: Fault) -> Fault
    requires { IsPlainFault (IsFirst (ReferenceFailures (units_of entries.now))) reference }
    ensures { IsPlainFault (IsFirstOfTargets (sections_of entries.now) (units_of entries.now)) result }
{
    match check_strings(alloc, entries) {
        Ok(()) => reference,
        Err(fault) => fault,
    }
}

/// The first fault, by a failure that is the first of its group.
fn first_fault(alloc: Global, entries: &Entries<'_>, broken: PlainFault) -> Fault
    requires { IsFirstOfGroup (sections_of entries.now) (units_of entries.now) broken }
    ensures { IsPlainFault (IsFirstOfTargets (sections_of entries.now) (units_of entries.now)) result }
{
    let fault = broken.into_fault(alloc);
    if broken.rule.group() == 3 {
        return fault;
    }
    strings_first(alloc, entries, fault)
}

/// The tables of entries, or the first failure at a string or an address, or if there is none, at a reference. What is
/// known of a unit is read once, and each value once.
#[inline(never)]
pub(crate) fn link_entries(
    alloc: Global,
    entries: &Entries<'_>,
    signatures: BTreeMap<u64, EntryId>,
) -> Result<LinkTables, Stop<Fault>>
    requires types { HasSignedTypes entries.now signatures }
    requires headers { HasNone (HeaderFailures (all_entries entries.now) (all_units entries.now)) }
    ensures ok { IfOk result (AreLinked entries.now) }
    ensures fault { IfErr result (IfPlainFault (IsFirstOfTargets (sections_of entries.now) (units_of entries.now))) }
{
    let sections = entries.sections();
    let ends = (end_of_texts(sections.str), end_of_texts(sections.line_str));
    let mut str_bases = Vec::with_capacity(alloc, entries.unit_count())?;
    let mut addr_bases = Vec::with_capacity(alloc, entries.unit_count())?;
    let mut languages = Vec::with_capacity(alloc, entries.unit_count())?;
    let mut types = vec![in alloc; OptionalId::none(); entries.count()]?;
    let known = vec![in alloc; None; entries.count()]?;
    let mut declared = Declared { entries, known };
    for unit in 0..entries.unit_count() {
        let references = UnitLinks::of_unit(entries, ends, unit, &signatures);
        str_bases.push(references.texts.str_base)?;
        addr_bases.push(references.texts.addr_base)?;
        languages.push(language_in_unit(entries, unit))?;
        let header = references.texts.head.header;
        let range = references.range;
        for number in range.0..range.1 {
            let id = entries.id(number);
            match references.link_entry(&mut declared, id, header) {
                Ok(target) => types[number] = target,
                Err(broken) => return Err(Stop::Fault(first_fault(alloc, entries, broken))),
            }
        }
    }
    Ok(LinkTables {
        signatures,
        str_bases,
        addr_bases,
        languages,
        types,
    })
}
