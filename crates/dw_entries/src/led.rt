//! What a value of an entry leads to.

ghost use Rattle.std.specs.Prelude.{false, true, ◌≡◌};
ghost use Rattle.dw_forms.specs.LeadingWalks.{lead_of};
ghost use Rattle.dw_forms.specs.Value.{view};
ghost use Rattle.dw_forms.specs.declared.abbrev.AttributeSpec.{AttributeSpec as SpecData};
ghost use Rattle.dw_entries.specs.Led.{HasLead, IsRead, is_index_lead, is_offset_lead, item_of, leads_on, offset_by};

use dw_forms::constants::*;
use dw_forms::{Attribute, Lead, Value};

/// A value that may lead elsewhere: what it leads to, as its attribute and its form say. References are in bytes after
/// the header of the entry's unit, and have four bytes each.
#[derive(Clone, Copy)]
pub enum Led<'a> {
    /// The type of the entry.
    Type(u64),
    /// The next sibling of the entry.
    Sibling(u64),
    /// The declaration that the entry completes.
    Specification(u64),
    /// Another entry. References of DW_AT_import and DW_AT_signature are `Other`.
    Entry(Attribute, u64),
    /// A string at this offset in .debug_str.
    Text(Attribute, u32),
    /// A string by its index, which has one byte or two.
    Index(Attribute, u64),
    /// An address by its index.
    Address(Attribute, u64),
    /// Any other value.
    Other(Attribute, Value<'a>),
}

impl<'a> Led<'a> {
    /// The attribute and its value.
    pub fn item(&self) -> (Attribute, Value<'a>)
        ensures { (result.0, view result.1) ≡ item_of self.now }
    {
        match *self {
            Led::Type(offset) => (DW_AT_type, Value::RefUnit(offset)),
            Led::Sibling(offset) => (DW_AT_sibling, Value::RefUnit(offset)),
            Led::Specification(offset) => (DW_AT_specification, Value::RefUnit(offset)),
            Led::Entry(attribute, offset) => (attribute, Value::RefUnit(offset)),
            Led::Text(attribute, offset) => (attribute, Value::Str(offset)),
            Led::Index(attribute, index) => (attribute, Value::StrIndex(index)),
            Led::Address(attribute, index) => (attribute, Value::AddrIndex(index)),
            Led::Other(attribute, value) => (attribute, value),
        }
    }
}

/// Whether the lead is that of the index of a string.
#[inline(always)]
fn is_index(lead: Lead) -> bool
    ensures { result ≡ is_index_lead lead }
{
    lead == Lead::Index1 || lead == Lead::Index2
}

/// What the offset of an attribute that has this lead leads to.
#[inline(always)]
pub(crate) fn led_to<'a>(lead: Lead, attribute: Attribute, offset: u32) -> Led<'a>
    requires offset { is_offset_lead lead ≡ true }
    requires read { (spec : SpecData) × (lead_of spec ≡ lead) × (spec.attribute ≡ attribute) }
    ensures item { item_of result ≡ (attribute, offset_by lead offset) }
    ensures lead { HasLead result lead }
{
    match lead {
        Lead::TypeEntry => Led::Type(u64::from(offset)),
        Lead::Sibling => Led::Sibling(u64::from(offset)),
        Lead::Specification => Led::Specification(u64::from(offset)),
        Lead::Text => Led::Text(attribute, offset),
        _ => Led::Entry(attribute, u64::from(offset)),
    }
}

/// What a value that has this lead, and is no offset of four bytes, leads to.
#[inline(always)]
pub(crate) fn led_by<'a>(lead: Lead, attribute: Attribute, value: Value<'a>) -> Led<'a>
    requires on { leads_on lead ≡ true }
    requires other { is_offset_lead lead ≡ false }
    requires read { (spec : SpecData) × (lead_of spec ≡ lead) × IsRead spec (attribute, view value) }
    ensures item { item_of result ≡ (attribute, view value.entry) }
    ensures lead { HasLead result lead }
{
    match value {
        Value::StrIndex(index) if is_index(lead) => Led::Index(attribute, index),
        Value::AddrIndex(index) if lead == Lead::Address => Led::Address(attribute, index),
        _ => Led::Other(attribute, value),
    }
}
