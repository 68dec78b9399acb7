//! The rules at the headers of type units, and the rules on references (DWARF 5, section 7.5.5).

ghost use Rattle.std.specs.Prelude.{true, ◌≡◌, None, Some, IfSome, ◌+◌, ◌<◌, ◌≤◌, length, IfNone, IfOk};
ghost use Rattle.std.specs.Prelude.{OnOk, IfErr};
ghost use Rattle.dw_elf.specs.Elf.{IsAfterLastZero};
ghost use Rattle.dw_forms.specs.Value.{view};
ghost use Rattle.dw_entries.specs.Failures.{IsLeast, HasNone, IsFirst};
ghost use Rattle.dw_links.specs.UnitAtHand.{entries_followed, entry_with, entry_after, FailsByTarget, target_by};
ghost use Rattle.dw_links.specs.UnitAtHand.{IsLinkable};
ghost use Rattle.dw_links.specs.UnitAtHand.{MayAsk, MayLink};
ghost use Rattle.dw_links.specs.References.{is_reference_value, HasType, TypeUnitFails, AtHeader, HeaderFailures};
ghost use Rattle.dw_entries.specs.ByNumber.{end_in, placed_of};
ghost use Rattle.dw_entries.specs.Views.{sections_of, all_entries, all_units, units_of};
ghost use Rattle.dw_entries.specs.EntriesAt.{ReachesInUnit};
ghost use Rattle.dw_entries.specs.Stopped.{IfPlainFault};
ghost use Rattle.dw_links.specs.Signatures.{HasSignature};
ghost use Rattle.dw_links.specs.SignedTypes.{AreSignedBelow, HasSignedTypes};

use crate::strings::{UnitContributions, read_texts};
use crate::targets::{Declared, is_permitted_form, is_reference, is_sig8, reach};
use dw_entries::constants::*;
use dw_entries::{
    Entries, EntryAt, EntryHead, EntryId, Fault, HeaderKind, PlainFault, Rule, Section, Stop,
    UnitHeader,
};
use dw_forms::{Attribute, Value};
use std::alloc::Global;
use std::collections::BTreeMap;

/// The type that begins so far after the first byte of a unit's header.
fn find_type(entries: &Entries<'_>, number: usize, type_offset: u32) -> Option<EntryId>
    requires { number < length (units_of entries.now) }
    ensures found { IfSome result (ReachesInUnit (all_entries entries.now) (all_units entries.now) number type_offset) }
    ensures some { IfSome result (λ _. HasType (all_entries entries.now) number
        ((placed_of (all_units entries.now) number).at + type_offset)) }
    ensures none { IfNone result (HasType (all_entries entries.now) number
        ((placed_of (all_units entries.now) number).at + type_offset) → ⊥) }
{
    let Some(id) = entries.find_in_unit(number, type_offset as u64) else {
        return None;
    };
    if entries.tag(id).is_type() {
        return Some(id);
    }
    None
}

/// The type of a type unit, or the rule that fails at its header.
fn check_type(
    entries: &Entries<'_>,
    signatures: &BTreeMap<u64, EntryId>,
    number: usize,
    signature: u64,
    type_offset: u32,
) -> Result<EntryId, Rule>
    requires within { number < length (units_of entries.now) }
    requires has { HasSignature (all_units entries.now) signature number }
    requires before { AreSignedBelow (all_entries entries.now) (all_units entries.now) number signatures.now }
    ensures found { IfOk result (ReachesInUnit (all_entries entries.now) (all_units entries.now) number type_offset) }
    ensures ok { OnOk result (IsLeast (TypeUnitFails (all_entries entries.now) (all_units entries.now) number
        (placed_of (all_units entries.now) number).at signature type_offset) None) }
    ensures err { IfErr result (λ rule. IsLeast (TypeUnitFails (all_entries entries.now) (all_units entries.now)
        number (placed_of (all_units entries.now) number).at signature type_offset) (Some rule)) }
{
    if signatures.contains_key(&signature) {
        return Err(Rule::SignatureTwice);
    }
    match find_type(entries, number, type_offset) {
        Some(id) => Ok(id),
        None => Err(Rule::BadTypeOffset),
    }
}

/// Adds the type of a unit, if it is a type unit of which no rule fails at the header.
fn add_type(
    alloc: Global,
    entries: &Entries<'_>,
    signatures: &mut BTreeMap<u64, EntryId>,
    number: usize,
) -> Result<(), Stop<Fault>>
    requires within { number < length (units_of entries.now) }
    requires before { AreSignedBelow (all_entries entries.now) (all_units entries.now) number signatures.old }
    ensures added { OnOk result (AreSignedBelow (all_entries entries.now) (all_units entries.now)
        (number + 1) signatures.new) }
    ensures ok { OnOk result (HasNone (AtHeader (all_entries entries.now) (all_units entries.now) number
        (placed_of (all_units entries.now) number))) }
    ensures fault { IfErr result (IfPlainFault (IsFirst (AtHeader (all_entries entries.now)
        (all_units entries.now) number (placed_of (all_units entries.now) number)))) }
{
    let unit = entries.unit(number);
    let HeaderKind::TypeUnit {
        signature,
        type_offset,
    } = unit.header.kind
    else {
        return Ok(());
    };
    match check_type(entries, signatures, number, signature, type_offset) {
        Ok(id) => {
            signatures.insert(signature, id)?;
            Ok(())
        }
        Err(rule) => {
            let broken = PlainFault {
                rule,
                section: Section::Info,
                at: unit.offset,
                attribute: 0,
            };
            Err(Stop::Fault(broken.into_fault(alloc)))
        }
    }
}

/// Reads the type of each signature, or finds the first failure at the header of a type unit.
pub fn read_signatures(
    alloc: Global,
    entries: &Entries<'_>,
) -> Result<BTreeMap<u64, EntryId>, Stop<Fault>>
    ensures types { IfOk result (HasSignedTypes entries.now) }
    ensures ok { OnOk result (HasNone (HeaderFailures (all_entries entries.now) (all_units entries.now))) }
    ensures fault { IfErr result
        (IfPlainFault (IsFirst (HeaderFailures (all_entries entries.now) (all_units entries.now)))) }
{
    let mut signatures: BTreeMap<u64, EntryId> = BTreeMap::new(alloc);
    for number in 0..entries.unit_count() {
        add_type(alloc, entries, &mut signatures, number)?;
    }
    Ok(signatures)
}

/// What the values of one unit after another are followed and checked with.
#[derive(Drop)]
pub struct UnitLinks<'e, 'd, 't> {
    pub entries: &'e Entries<'d>,
    /// What is read once of the unit at hand.
    pub texts: UnitContributions<'d>,
    /// How many bytes after the base its header starts.
    pub past: u32,
    /// The number of the first entry of the unit at hand, and the number after that of its last entry.
    pub range: (usize, usize),
    /// The type of each signature.
    pub signatures: &'t BTreeMap<u64, EntryId>,
}

impl<'e, 'd, 't> UnitLinks<'e, 'd, 't> {
    /// What the values of a unit are followed and checked with, if the strings of .debug_str and .debug_line_str end at
    /// these offsets.
    pub(crate) fn of_unit(
        entries: &'e Entries<'d>,
        ends: (usize, usize),
        unit: usize,
        signatures: &'t BTreeMap<u64, EntryId>,
    ) -> UnitLinks<'e, 'd, 't>
        requires str_end { IsAfterLastZero (sections_of entries.now).str.now ends.0 }
        requires line_str_end { IsAfterLastZero (sections_of entries.now).line_str.now ends.1 }
        requires unit { unit < length (units_of entries.now) }
        requires types { HasSignedTypes entries.now signatures.now }
        requires headers { HasNone (HeaderFailures (all_entries entries.now) (all_units entries.now)) }
        ensures linkable { IsLinkable result }
        ensures entries { entries_followed result ≡ entries.now }
        ensures unit { result.texts.unit ≡ unit }
        ensures range { (result.range.0 ≡ (placed_of (all_units entries.now) unit).first)
            × (result.range.1 ≡ end_in (all_units entries.now) unit) }
        ensures within { result.range.1 ≤ length (all_entries entries.now) }
    {
        UnitLinks {
            entries,
            texts: read_texts(entries, ends.0, ends.1, unit),
            past: entries.past_base(unit),
            range: entries.range(unit),
            signatures,
        }
    }

    /// An entry of the unit at hand, whose header this is.
    #[inline(always)]
    pub(crate) fn entry(&self, id: EntryId, header: UnitHeader) -> EntryAt<'_, 'd>
        requires may { MayLink self.now id }
        requires header { header ≡ self.now.texts.head.header }
        ensures { result ≡ entry_with self.now id }
    {
        self.entries.at_with(id, self.texts.unit, header)
    }

    /// The entry of the unit at hand that starts so many bytes after the unit's header.
    #[inline(always)]
    pub(crate) fn find_in_unit(&self, offset: u64) -> Option<EntryId>
        requires { IsLinkable self.now }
        ensures { result ≡ entry_after self.now offset }
    {
        self.entries
            .find_in_range(self.texts.unit, self.past, self.range, offset)
    }

    /// The target of a value of an entry.
    pub fn reach(&self, head: &EntryHead, value: &Value<'_>) -> Option<EntryId>
        requires { MayAsk self.now head.now }
        ensures { result ≡ target_by (entries_followed self.now) head.now (view value.now) }
    {
        match *value {
            Value::RefUnit(offset) => self.find_in_unit(offset),
            _ => reach(self.entries, self.signatures, head.unit, value),
        }
    }
}

impl Declared<'_, '_> {
    /// The rule at a reference that has no target.
    #[tactic(auto, using(crate::proofs::RuleGroups::no_signature))]
    fn ask_unreached(
        &self,
        head: &EntryHead,
        attribute: Attribute,
        value: &Value<'_>,
    ) -> Option<Rule>
        requires headers { HasNone
            (HeaderFailures (all_entries self.now.entries.now) (all_units self.now.entries.now)) }
        requires reference { is_reference_value (view value.now) ≡ true }
        requires none { target_by self.now.entries.now head.now (view value.now) ≡ None }
        ensures { IsLeast (FailsByTarget self.now.entries.now head.now attribute (view value.now)) result }
    {
        if !is_sig8(value) {
            return Some(Rule::NoEntry);
        }
        if attribute == DW_AT_sibling && head.next_sibling.is_none() {
            return Some(Rule::NotNextSibling);
        }
        Some(Rule::NoSignature)
    }

    /// The rule at an attribute, if this is the target of its value.
    pub fn ask(
        &mut self,
        head: &EntryHead,
        attribute: Attribute,
        value: &Value<'_>,
        reached: Option<EntryId>,
    ) -> Option<Rule>
        requires headers { HasNone
            (HeaderFailures (all_entries self.old.entries.now) (all_units self.old.entries.now)) }
        requires reached { reached ≡ target_by self.old.entries.now head.now (view value.now) }
        ensures same { self.new.entries.now ≡ self.old.entries.now }
        ensures rule { IsLeast (FailsByTarget self.old.entries.now head.now attribute (view value.now)) result }
    {
        if !is_reference(value) {
            return None;
        }
        let Some(id) = reached else {
            return self.ask_unreached(head, attribute, value);
        };
        if !is_permitted_form(head, attribute, value) {
            return Some(Rule::WrongKind);
        }
        if !self.is_permitted(head, attribute, id) {
            return Some(Rule::WrongKind);
        }
        if attribute != DW_AT_sibling {
            return None;
        }
        if head.next_sibling == Some(id) {
            return None;
        }
        Some(Rule::NotNextSibling)
    }
}
