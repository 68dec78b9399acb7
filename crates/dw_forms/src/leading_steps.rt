//! The steps of a walk over the values of a declaration that may lead elsewhere.

ghost use Rattle.std.specs.Prelude.{◌≡◌, ◌≤◌, ◌<◌, ◌+◌, ◌*◌, ◌∷◌, List, []};
ghost use Rattle.dw_forms.specs.KnownValues.{known_size, does_vary};
ghost use Rattle.dw_forms.specs.LeadingWalks.{may_lead, does_lead, stops_at, reference_lead, value_lead, lead_of};
ghost use Rattle.dw_forms.specs.LeadingWalks.{IsFirstStep};
ghost use Rattle.dw_forms.specs.declared.abbrev.AttributeSpec.{AttributeSpec as SpecData};
ghost use Rattle.dw_forms.specs.Chains.{Numbered};

use crate::abbrev::AttributeSpec;
use crate::constants::*;
use crate::form::Form;

/// The size of each value of the form, 0 where they have no one size.
pub(crate) fn known_size(form: Form, address_size: u8) -> u32
    ensures same { result ≡ known_size address_size form }
    ensures small { result ≤ 0xff }
{
    match form.fixed_size(address_size) {
        Some(size) => size as u32,
        None => 0,
    }
}

/// How many addresses a value of the form is, by which its size is known: 0 or 1.
pub(crate) fn addresses_in(form: Form) -> u16
    ensures same { known_size 8 form ≡ known_size 4 form + 4 * result }
    ensures few { result ≤ 1 }
{
    match form {
        Form::Addr => 1,
        _ => 0,
    }
}

/// Whether the values of the form have no one size.
pub(crate) fn does_vary(form: Form) -> bool
    ensures { result ≡ does_vary form }
{
    form.fixed_size(8).is_none()
}

/// Whether values of the form may lead elsewhere: to a string, an address or an entry, or by another form.
fn may_lead(form: Form) -> bool
    ensures { result ≡ may_lead form }
{
    form.may_lead_out() || form.may_refer()
}

/// Whether the value of the attribute may lead elsewhere. That of a type may by its code, and so may the bases of
/// contributions.
fn does_lead(spec: &AttributeSpec) -> bool
    ensures { result ≡ does_lead spec.now }
{
    may_lead(spec.form)
        || spec.attribute == DW_AT_type
        || spec.attribute == DW_AT_str_offsets_base
        || spec.attribute == DW_AT_addr_base
}

/// What an attribute and its form say about the value that a step goes to (DWARF 5, sections 2.3, 2.13.2, 5.1 and
/// 7.5.5). Each usual kind of value has a lead of its own, so that a walk checks only the rules of that kind.
#[derive(Clone, Copy, Debug, PartialEq, Eq)]
pub enum Lead {
    /// No step is made.
    Nothing,
    /// A string by its offset into .debug_str.
    Text,
    /// A reference of four bytes to the type of the entry.
    TypeEntry,
    /// A reference of four bytes to the next sibling of the entry.
    Sibling,
    /// A reference of four bytes to the declaration that the entry completes.
    Specification,
    /// A reference of four bytes to another entry. Those of DW_AT_import and DW_AT_signature are `Other`.
    Entry,
    /// A string by its index, which has one byte.
    Index1,
    /// A string by its index, which has two bytes.
    Index2,
    /// An address by its index.
    Address,
    /// A value that leads nowhere. It is passed on its own because its form has no one size.
    Passed,
    /// Any other value.
    Other,
}

/// The lead of a reference of four bytes.
fn reference_lead(attribute: Attribute) -> Lead
    ensures { result ≡ reference_lead attribute }
{
    match attribute {
        DW_AT_type => Lead::TypeEntry,
        DW_AT_sibling => Lead::Sibling,
        DW_AT_specification => Lead::Specification,
        DW_AT_import | DW_AT_signature => Lead::Other,
        _ => Lead::Entry,
    }
}

/// The lead of a string or an address whose form has this lead. A type is neither.
fn value_lead(lead: Lead, attribute: Attribute) -> Lead
    ensures { result ≡ value_lead lead attribute }
{
    if attribute == DW_AT_type {
        Lead::Other
    } else {
        lead
    }
}

/// The lead of an attribute that a step goes to.
fn lead_of(spec: &AttributeSpec) -> Lead
    ensures { result ≡ lead_of spec.now }
{
    match spec.form {
        Form::Ref4 => reference_lead(spec.attribute),
        Form::Strp => value_lead(Lead::Text, spec.attribute),
        Form::Strx1 => value_lead(Lead::Index1, spec.attribute),
        Form::Strx2 => value_lead(Lead::Index2, spec.attribute),
        Form::Addrx => value_lead(Lead::Address, spec.attribute),
        _ => {
            if does_lead(spec) {
                Lead::Other
            } else {
                Lead::Passed
            }
        }
    }
}

/// A step to an attribute whose value is read, past values that have one size each.
#[derive(Clone, Copy, Debug)]
pub struct Step {
    /// The lead of the value that it goes to.
    pub lead: Lead,
    /// How many of the values that are passed are addresses.
    pub addresses: u16,
    /// The list that begins with the attribute, or 0 where no step is made.
    pub to: u32,
    /// The sum of the sizes of the values that are passed where addresses have 8 bytes.
    pub skip_with_8: u32,
}

/// The step in no attributes.
pub(crate) fn no_step() -> Step
    ensures { IsFirstStep [] result }
{
    Step {
        lead: Lead::Nothing,
        addresses: 0,
        to: 0,
        skip_with_8: 0,
    }
}

/// Whether a step is made to the attribute, where the next one is made to this list: its value may lead elsewhere, or
/// has no one size and comes before one that may.
fn stops_at(next: u32, spec: &AttributeSpec) -> bool
    ensures { result ≡ stops_at next spec.now }
{
    does_lead(spec) || (does_vary(spec.form) && next != 0)
}

/// The first step in a list, by that in the list after its first attribute, which has this number.
pub(crate) fn step_before(number: u32, spec: &AttributeSpec, after: Step) -> Step
    requires few { after.addresses < 0xffff }
    requires small { after.skip_with_8 ≤ 0xffffff }
    ensures { (list : List (Numbered SpecData)) → IsFirstStep list after
        → IsFirstStep (record { number = number; item = spec.now } ∷ list) result }
{
    if stops_at(after.to, spec) {
        return Step {
            lead: lead_of(spec),
            addresses: 0,
            to: number,
            skip_with_8: 0,
        };
    }
    Step {
        lead: after.lead,
        addresses: after.addresses + addresses_in(spec.form),
        to: after.to,
        skip_with_8: after.skip_with_8 + known_size(spec.form, 8),
    }
}
