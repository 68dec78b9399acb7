//! The attributes of a declaration, and where their values begin.

ghost use Rattle.std.specs.Prelude.{◌≡◌, ◌≢◌, ◌≤◌, ◌-◌, ◌*◌, ◌⊎◌, ◌↔◌, List, [], length, All, IfSome, IfNone, IsTrue};
ghost use Rattle.dw_forms.specs.declared.abbrev.AttributeSpec.{AttributeSpec as SpecData};
ghost use Rattle.dw_forms.specs.Chains.{Numbered, items_of};
ghost use Rattle.dw_forms.specs.AttributeLists.{known_with, has_this, IsKnown};
ghost use Rattle.dw_forms.specs.FirstPlaces.{AnswersFirst};
ghost use Rattle.dw_forms.specs.KnownValues.{rest_beyond, flag_in, known_flag, known_sum, values_end, whole_in};
ghost use Rattle.dw_forms.specs.Classes.{is_open};
ghost use Rattle.dw_forms.specs.Sizes.{are_allowed, rest_at};
ghost use Rattle.dw_forms.specs.ValueReading.{Gives};
ghost use Rattle.dw_forms.specs.LeadingWalks.{IsFirstStep, skip_in};

use crate::abbrev::AttributeSpec;
use crate::attribute_lists::{AttributeLists, Node};
use crate::constants::Attribute;
use crate::form::Form;
use crate::leading_steps::Step;
use crate::value::{Value, ValueFault};
use crate::value_reader::{read_any, skip_long};

/// Attributes of a declaration in the order of their values in an entry: all of them, or those from one on.
#[derive(Clone, Copy, Debug)]
pub struct Attributes<'a> {
    pub(crate) lists: &'a AttributeLists,
    /// The number of the list.
    pub(crate) first: u32,
    ghost within: { first ≤ length lists.now.nodes.items },
}

/// The sum of the known sizes from a node on.
#[inline(always)]
pub(crate) fn known(node: &Node, address_size: u8) -> usize
    requires size { (address_size ≡ 4) ⊎ (address_size ≡ 8) }
    requires within { 4 * node.now.addresses ≤ node.now.known_with_8 }
    ensures { result ≡ known_with address_size node.now }
{
    let with_8 = node.known_with_8 as usize;
    if address_size == 8 {
        with_8
    } else {
        with_8 - 4 * usize::from(node.addresses)
    }
}

/// Whether a flag of this form is true. None if that depends on its value.
fn known_flag(form: Form) -> Option<bool>
    ensures { result ≡ known_flag form }
{
    match form {
        Form::FlagPresent => Some(true),
        _ => None,
    }
}

/// The bytes after so many.
#[inline(always)]
pub(crate) fn cut_at(bytes: &[u8], len: usize) -> Result<&[u8], ValueFault>
    ensures { Gives (λ rest. rest.now) result (rest_beyond len bytes.now) }
{
    if bytes.len() < len {
        return Err(ValueFault::Cut);
    }
    Ok(&bytes[len..])
}

/// The bytes after one value whose form has no one size.
#[inline(always)]
fn skip_one(version: u16, form: Form, address_size: u8, bytes: &[u8]) -> Result<&[u8], ValueFault>
    requires { (address_size ≡ 4) ⊎ (address_size ≡ 8) }
    ensures { Gives (λ rest. rest.now) result (rest_at version form address_size bytes.now) }
{
    match skip_long(version, form, address_size, bytes) {
        Ok(len) => Ok(&bytes[len..]),
        Err(fault) => Err(fault),
    }
}

impl<'a> Attributes<'a> {
    ghost use Rattle.dw_forms.specs.Suffixes.{specs_in, nodes_of, numbered, Ends, IsFrom, IsSplitFirst, IsSplitStep};

    /// The list of a number.
    pub(crate) fn new(lists: &'a AttributeLists, first: u32) -> Attributes<'a>
        requires { first ≤ length lists.now.nodes.items }
        ensures lists { nodes_of result ≡ lists.now.nodes.items }
        ensures first { result.first ≡ first }
    {
        Attributes { lists, first }
    }

    /// What is known of these, if there are any.
    #[inline(always)]
    pub(crate) fn node(&self) -> Option<&'a Node>
        ensures known { IfSome result (λ node. IsKnown (nodes_of self.now) self.now.first node.now) }
        ensures first { IfNone result (self.now.first ≡ 0) }
        ensures none { IfNone result (numbered self.now ≡ []) }
    {
        if self.first == 0 {
            return None;
        }
        Some(&self.lists.nodes[(self.first - 1) as usize])
    }

    /// The first attribute, and those after it.
    #[inline(always)]
    pub fn split_first(&self) -> Option<(AttributeSpec, Attributes<'a>)>
        ensures { IsSplitFirst self.now result }
    {
        match self.node() {
            Some(node) => Some((node.spec(), Attributes::new(self.lists, node.next))),
            None => None,
        }
    }

    /// How many there are.
    pub fn count(&self) -> u32
        ensures { result ≡ length (specs_in self.now) }
    {
        match self.node() {
            Some(node) => u32::from(node.count),
            None => 0,
        }
    }

    /// Whether each form is one of version 4.
    pub fn in_version_4(&self) -> bool
        ensures { result ≡ are_allowed 4 (specs_in self.now) }
    {
        match self.node() {
            Some(node) => node.in_version_4,
            None => true,
        }
    }

    /// Whether none of these has the attribute. That takes one test for the attributes that rules and declarations look
    /// for, and a search at most for others.
    #[inline(always)]
    pub fn lacks(&self, attribute: Attribute) -> bool
        ensures { IsTrue result ↔ All (λ spec. spec.attribute ≢ attribute) (specs_in self.now) }
    {
        match self.node() {
            Some(node) => !self.lists.has(self.first, node, attribute),
            None => true,
        }
    }

    /// The attributes from the one with this code on, or none.
    #[inline(always)]
    pub fn find(&self, attribute: Attribute) -> Attributes<'a>
        ensures { IsFrom (has_this attribute) self.now result }
    {
        Attributes::new(self.lists, self.lists.find(self.first, attribute))
    }

    /// Whether the flag with this code is true in each entry. None if that depends on the entry's value.
    pub(crate) fn flag(&self, attribute: Attribute) -> Option<bool>
        ensures { result ≡ flag_in attribute (specs_in self.now) }
    {
        match self.find(attribute).split_first() {
            Some((spec, _)) => known_flag(spec.form),
            None => Some(false),
        }
    }

    /// The size of all values together, in bytes, where addresses have 8. None if one of them has no one size.
    pub(crate) fn whole(&self) -> Option<u32>
        ensures { result ≡ whole_in 8 (specs_in self.now) }
    {
        let Some(node) = self.node() else {
            return Some(0);
        };
        if node.next_varying == 0 {
            Some(node.known_with_8)
        } else {
            None
        }
    }

    /// The attributes from the first open one on, or none.
    pub fn next_open(&self) -> Attributes<'a>
        ensures { IsFrom is_open self.now result }
    {
        match self.node() {
            Some(node) => Attributes::new(self.lists, node.next_open),
            None => *self,
        }
    }

    /// The attributes from the one on that a step from these goes to, or none.
    pub fn stepped(&self, step: &Step) -> Attributes<'a>
        requires { IsFirstStep (numbered self.now) step.now }
        ensures nodes { nodes_of result ≡ nodes_of self.now }
        ensures first { result.first ≡ step.now.to }
    {
        Attributes::new(self.lists, step.to)
    }

    /// The sum of the sizes of the values that a step from these passes.
    #[inline(always)]
    pub fn skipped(&self, step: &Step, address_size: u8) -> usize
        requires step { IsFirstStep (numbered self.now) step.now }
        requires size { (address_size ≡ 4) ⊎ (address_size ≡ 8) }
        ensures { result ≡ skip_in address_size (numbered self.now) }
    {
        let with_8 = step.skip_with_8 as usize;
        if address_size == 8 {
            with_8
        } else {
            with_8 - 4 * usize::from(step.addresses)
        }
    }

    /// The first attribute, those after it, and the step from these.
    #[inline(always)]
    pub fn split_step(&self) -> Option<(AttributeSpec, Attributes<'a>, &'a Step)>
        ensures { IsSplitStep self.now result }
    {
        match self.node() {
            Some(node) => {
                let rest = Attributes::new(self.lists, node.next);
                Some((node.spec(), rest, &node.after))
            }
            None => None,
        }
    }

    /// The sum of the sizes of the values, as far as they are known.
    #[inline(always)]
    pub(crate) fn known(&self, address_size: u8) -> usize
        requires { (address_size ≡ 4) ⊎ (address_size ≡ 8) }
        ensures { result ≡ known_sum address_size (specs_in self.now) }
    {
        match self.node() {
            Some(node) => known(node, address_size),
            None => 0,
        }
    }

    /// The bytes after the values up to those of other attributes, which come last among these, as they are read one by
    /// one. Each turn passes a value that has no one size, so it takes a byte of the entry at least.
    #[inline(always)]
    pub fn pass<'b>(
        &self,
        version: u16,
        address_size: u8,
        to: Attributes<'a>,
        bytes: &'b [u8],
    ) -> Result<&'b [u8], ValueFault>
        requires ends { (before : List (Numbered SpecData)) × Ends self.now to before }
        requires size { (address_size ≡ 4) ⊎ (address_size ≡ 8) }
        ensures { (before : List (Numbered SpecData)) → Ends self.now to.entry before
            → Gives (λ rest. rest.now) result (values_end version address_size (items_of before) bytes.now) }
    {
        let nodes = &self.lists.nodes;
        let mut rest = bytes;
        let mut at = self.first;
        while at != to.first {
            let here = &nodes[(at - 1) as usize];
            if here.next_varying <= to.first {
                return cut_at(rest, known(here, address_size) - to.known(address_size));
            }
            let varying = &nodes[(here.next_varying - 1) as usize];
            rest = cut_at(
                rest,
                known(here, address_size) - known(varying, address_size),
            )?;
            rest = skip_one(version, varying.form, address_size, rest)?;
            at = varying.next;
        }
        Ok(rest)
    }

    /// The bytes after all values.
    #[inline(always)]
    pub fn pass_all<'b>(
        &self,
        version: u16,
        address_size: u8,
        bytes: &'b [u8],
    ) -> Result<&'b [u8], ValueFault>
        requires { (address_size ≡ 4) ⊎ (address_size ≡ 8) }
        ensures { Gives (λ rest. rest.now) result (values_end version address_size (specs_in self.now) bytes.now) }
    {
        self.pass(version, address_size, Attributes::new(self.lists, 0), bytes)
    }

    /// The value of the attribute with this code, if one is declared. The work is bounded by the bytes before it.
    pub fn value<'b>(
        &self,
        version: u16,
        address_size: u8,
        attribute: Attribute,
        bytes: &'b [u8],
    ) -> Result<Option<Value<'b>>, ValueFault>
        requires { (address_size ≡ 4) ⊎ (address_size ≡ 8) }
        ensures { AnswersFirst version address_size (specs_in self.now) attribute bytes.now result }
    {
        let found = self.find(attribute);
        self.value_of(version, address_size, attribute, found, bytes)
    }

    /// The value of the first of these attributes that were found by this code, if there are any.
    #[inline(never)]
    pub(crate) fn value_of<'b>(
        &self,
        version: u16,
        address_size: u8,
        attribute: Attribute,
        found: Attributes<'a>,
        bytes: &'b [u8],
    ) -> Result<Option<Value<'b>>, ValueFault>
        requires size { (address_size ≡ 4) ⊎ (address_size ≡ 8) }
        requires found { IsFrom (has_this attribute) self.now found }
        ensures { AnswersFirst version address_size (specs_in self.now) attribute bytes.now result }
    {
        let Some((spec, _)) = found.split_first() else {
            return Ok(None);
        };
        let rest = match self.pass(version, address_size, found, bytes) {
            Ok(rest) => rest,
            Err(fault) => return Err(fault),
        };
        match read_any(version, spec.form, address_size, rest) {
            Ok((value, _)) => Ok(Some(value)),
            Err(fault) => Err(fault),
        }
    }
}
