//! The lists of attributes of a section, with each attribute kept once.

ghost use Rattle.std.specs.Prelude.{◌≡◌, ◌≤◌, ◌<◌, ◌+◌, ◌-◌, ◌∷◌, ◌++◌, List, [], length, false};
ghost use Rattle.std.specs.Prelude.{IfOk, get_or};
ghost use Rattle.dw_forms.specs.LeadingWalks.{IsFirstStep};
ghost use Rattle.dw_forms.specs.declared.abbrev.AttributeSpec.{AttributeSpec as SpecData};
ghost use Rattle.dw_forms.specs.Chains.{Numbered, number_where};
ghost use Rattle.dw_forms.specs.Abbrev.{IsCode16};
ghost use Rattle.dw_forms.specs.AbbrevReading.{has_attribute};
ghost use Rattle.dw_forms.specs.declared.attribute_lists.Node.{Node as NodeData};
ghost use Rattle.dw_forms.specs.AttributeLists.{Knows, AreKnown, AddedSpec, numbered_in, list_in, spec_of, has_this};
ghost use Rattle.dw_forms.specs.AttributeLists.{HasShortRest, IsLongNode, AreSearched};

use crate::abbrev::AttributeSpec;
use crate::attribute_bits::{OWN_BITS, bit_of, mask_of};
use crate::attribute_class::is_open;
use crate::chains::{Link, Links, number_or, push_branches, search};
use crate::constants::Attribute;
use crate::form::Form;
use crate::leading_steps::{Step, addresses_in, does_vary, known_size, no_step, step_before};
use std::alloc::{AllocError, Global};

/// How many attributes a short list has at most. They are searched one after another, and those of longer lists by
/// branches up to where a short list begins.
pub(crate) const SHORT: u16 = 32;

/// An attribute and the list after it, with what is known of the values of both before any entry is read.
#[derive(Clone, Copy, Debug)]
pub struct Node {
    /// The first step in the list after it.
    pub after: Step,
    /// The list after it.
    pub next: u32,
    pub form: Form,
    /// Where the branches to attributes of the list after it begin among those of all attributes, if the list is not
    /// short. Before them is the number of the short list that it ends with.
    pub branches: usize,
    /// The first list from here on whose first value has no one size, or 0.
    pub next_varying: u32,
    /// The first list from here on whose first attribute is open, or 0.
    pub next_open: u32,
    /// The sum of the sizes of the values that have one size each, where addresses have 8 bytes.
    pub known_with_8: u32,
    /// The bits of the attributes.
    pub bits: u32,
    pub attribute: Attribute,
    /// How many of the values that have one size each are addresses.
    pub addresses: u16,
    /// How many attributes there are.
    pub count: u16,
    /// Whether each form is one of version 4.
    pub in_version_4: bool,
    /// For how many bits of the attribute's code there are branches.
    pub places: u8,
}

impl Links for Vec<Node> {
    ghost use Rattle.dw_forms.specs.AttributeLists.{links_of};

    ghost links = { λ nodes. links_of nodes.items };

    #[inline(always)]
    fn link(&self, number: u32) -> Link {
        let node = &self[(number - 1) as usize];
        Link {
            code: u64::from(node.attribute.0),
            branches: node.branches,
            rest: number_or(node.next, SHORT + 1 < node.count, 0),
            run: 0,
            places: node.places,
        }
    }
}

impl Node {
    /// The attribute and its form.
    pub fn spec(&self) -> AttributeSpec
        ensures { result ≡ spec_of self.now }
    {
        AttributeSpec {
            attribute: self.attribute,
            form: self.form,
        }
    }
}

/// Lists of attributes. Attributes are numbered from 1. A list has the number of its first attribute; the list 0 has
/// none.
#[derive(Debug, Drop)]
pub struct AttributeLists {
    pub(crate) nodes: Vec<Node>,
    /// The branches by which attributes are found.
    branches: Vec<u32>,
    ghost known: { AreKnown nodes.items },
    ghost found: { AreSearched branches.items nodes.items },
}

/// The node of an attribute before a list of which this is known, with the first step in it, and with its branches.
fn node_before(
    number: u32,
    spec: AttributeSpec,
    rest: u32,
    next: Node,
    after: Step,
    branches: usize,
    places: u8,
) -> Node
    requires small { next.known_with_8 ≤ 0xffffff }
    requires few { next.count < 0xffff }
    requires addresses { next.addresses ≤ next.count }
    ensures spec { spec_of result ≡ spec }
    ensures next { result.next ≡ rest }
    ensures after { result.after ≡ after }
    ensures branches { result.branches ≡ branches }
    ensures places { result.places ≡ places }
    ensures count { result.count ≡ next.count + 1 }
    ensures knows { (list : List (Numbered SpecData)) → Knows list next
        → Knows (record { number = number; item = spec } ∷ list) result }
{
    Node {
        after,
        next: rest,
        form: spec.form,
        branches,
        next_varying: number_or(number, does_vary(spec.form), next.next_varying),
        next_open: number_or(number, is_open(&spec), next.next_open),
        known_with_8: next.known_with_8 + known_size(spec.form, 8),
        bits: next.bits | mask_of(spec.attribute),
        attribute: spec.attribute,
        addresses: next.addresses + addresses_in(spec.form),
        count: next.count + 1,
        in_version_4: next.in_version_4 && spec.form.allowed(4),
        places,
    }
}

/// What is known of no attributes.
fn no_node() -> Node
    ensures { Knows [] result }
{
    Node {
        after: no_step(),
        next: 0,
        form: Form::Flag,
        branches: 0,
        next_varying: 0,
        next_open: 0,
        known_with_8: 0,
        bits: 0,
        attribute: Attribute(0),
        addresses: 0,
        count: 0,
        in_version_4: true,
        places: 0,
    }
}

/// The number of the short list that a list of which this is known ends with.
fn short_end(branches: &[u32], list: u32, node: &Node) -> u32
    requires { 32 < node.now.count → (0 < node.now.branches) × (node.now.branches ≤ length branches.now) }
    ensures long { 32 < node.now.count → result ≡ get_or branches.now (node.now.branches - 1) 0 }
    ensures short { node.now.count ≤ 32 → result ≡ list }
{
    if SHORT < node.count {
        branches[node.branches - 1]
    } else {
        list
    }
}

/// Appends the branches of an attribute before a list of which this is known, if the two together are not short, and
/// before them the number of the short list at the end. Returns where the branches begin, and for how many bits they
/// are.
fn push_long(
    nodes: &Vec<Node>,
    branches: &mut Vec<u32>,
    rest: u32,
    next: &Node,
    attribute: Attribute,
) -> Result<(usize, u8), AllocError>
    requires rest { rest ≤ length nodes.now.items }
    requires found { AreSearched branches.old.items nodes.now.items }
    requires next { Knows (numbered_in nodes.now.items rest) next.now }
    requires short { HasShortRest branches.old.items nodes.now.items rest next.now }
    requires new { has_attribute attribute (list_in nodes.now.items rest) ≡ false }
    ensures kept { AreSearched branches.new.items nodes.now.items }
    ensures more { IfOk result (λ made. (n : NodeData) → IsLongNode rest next.now attribute made n
        → AreSearched branches.new.items (nodes.now.items ++ n ∷ [])) }
{
    if next.count < SHORT {
        return Ok((0, 0));
    }
    let short = short_end(branches, rest, next);
    branches.push(short)?;
    let start = branches.len();
    let chain = number_or(rest, SHORT < next.count, 0);
    match push_branches(nodes, branches, chain, u64::from(attribute.0))? {
        Some(places) => Ok((start, places as u8)),
        None => unreachable!(),
    }
}

impl AttributeLists {
    /// No lists.
    pub(crate) fn new(alloc: Global) -> AttributeLists
        ensures { result.nodes.items ≡ [] }
    {
        AttributeLists {
            nodes: Vec::new(alloc),
            branches: Vec::new(alloc),
        }
    }

    /// What is known of the list of a number.
    fn node(&self, number: u32) -> Node
        requires { number ≤ length self.now.nodes.items }
        ensures knows { Knows (numbered_in self.now.nodes.items number) result }
        ensures small { result.known_with_8 ≤ 0xffffff }
        ensures short { HasShortRest self.now.branches.items self.now.nodes.items number result }
    {
        if number == 0 {
            return no_node();
        }
        self.nodes[(number - 1) as usize]
    }

    /// The first step in the list of a number.
    pub(crate) fn step(&self, number: u32) -> Step
        requires { number ≤ length self.now.nodes.items }
        ensures step { IsFirstStep (numbered_in self.now.nodes.items number) result }
    {
        if number == 0 {
            return no_step();
        }
        let node = &self.nodes[(number - 1) as usize];
        step_before(number, &node.spec(), node.after)
    }

    /// Whether a list of which this is known has the attribute.
    #[inline(always)]
    pub(crate) fn has(&self, list: u32, known: &Node, attribute: Attribute) -> bool
        requires list { list ≤ length self.now.nodes.items }
        requires known { Knows (numbered_in self.now.nodes.items list) known.now }
        ensures { result ≡ has_attribute attribute (list_in self.now.nodes.items list) }
    {
        if known.bits & mask_of(attribute) == 0 {
            return false;
        }
        if bit_of(attribute) < OWN_BITS {
            return true;
        }
        self.find(list, attribute) != 0
    }

    /// The number of the first attribute of a short list with this code, or 0.
    fn find_short(&self, list: u32, attribute: Attribute) -> u32
        requires list { list ≤ length self.now.nodes.items }
        requires short { length (numbered_in self.now.nodes.items list) ≤ 32 }
        ensures { result ≡ number_where (has_this attribute) (numbered_in self.now.nodes.items list) }
    {
        let mut number = list;
        for _turn in 0..SHORT {
            if number == 0 {
                return 0;
            }
            let node = &self.nodes[(number - 1) as usize];
            if node.attribute == attribute {
                return number;
            }
            number = node.next;
        }
        0
    }

    /// The number of the first attribute of a list with this code, or 0.
    pub(crate) fn find(&self, list: u32, attribute: Attribute) -> u32
        requires { list ≤ length self.now.nodes.items }
        ensures { result ≡ number_where (has_this attribute) (numbered_in self.now.nodes.items list) }
    {
        if list == 0 {
            return 0;
        }
        let node = &self.nodes[(list - 1) as usize];
        if node.count <= SHORT {
            return self.find_short(list, attribute);
        }
        let code = u64::from(attribute.0);
        let found = search(&self.nodes, &self.branches, list, code);
        if found != 0 {
            return found;
        }
        self.find_short(short_end(&self.branches, list, node), attribute)
    }

    /// Adds an attribute before a list, and returns the list that begins with it. None if the list has it already.
    pub(crate) fn push(&mut self, spec: AttributeSpec, rest: u32) -> Result<Option<u32>, AllocError>
        requires rest { rest ≤ length self.old.nodes.items }
        requires few { length self.old.nodes.items < 0xffffffff }
        requires code { IsCode16 spec.attribute }
        ensures added { IfOk result (AddedSpec spec rest self.old.nodes.items self.new.nodes.items) }
    {
        let next = self.node(rest);
        if self.has(rest, &next, spec.attribute) {
            return Ok(None);
        }
        let after = self.step(rest);
        let number = self.nodes.len() as u32 + 1;
        self.nodes.reserve(1)?;
        let (branches, places) = push_long(
            &self.nodes,
            &mut self.branches,
            rest,
            &next,
            spec.attribute,
        )?;
        let node = node_before(number, spec, rest, next, after, branches, places);
        self.nodes.push_reserved(node);
        Ok(Some(number))
    }
}
