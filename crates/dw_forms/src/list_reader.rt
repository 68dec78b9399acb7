//! Reading the lists of attributes of a section that were not read before (DWARF 5, 7.5.3).

ghost use Rattle.std.specs.Prelude.{◌≡◌, ◌<◌, ◌≤◌, ℕ, List, [], length, IfOk, IfErr, OnOk};
ghost use Rattle.dw_forms.specs.AbbrevReading.{pair_at};
ghost use Rattle.dw_forms.specs.ListOffsets.{IsListAt, ArePlaced, AreListsOf, MoreLists, NoListAt, LeadsToList};
ghost use Rattle.dw_forms.specs.Offsets.{AreKnownFrom, IsOffset};
ghost use Rattle.dw_forms.specs.Stops.{IfFault};
ghost use Rattle.dw_forms.specs.ValueReading.{Gives};

use crate::abbrev::AttributeSpec;
use crate::abbrev_reader::{fault, form_with_number, pair_of};
use crate::attribute_lists::AttributeLists;
use crate::constants::Attribute;
use crate::fault::{DeclFault, Stop};
use crate::offsets::{Offsets, Placed};
use crate::rule::Rule;
use crate::shared_ends::{SharedEnd, ends_up_to, push_end};
use std::alloc::Global;

/// The lists of attributes that are kept, and where they are in the section.
#[derive(Debug, Drop)]
pub struct KeptLists {
    pub(crate) lists: AttributeLists,
    /// The offsets at which they begin.
    pub(crate) starts: Offsets,
    /// The offsets after them.
    pub(crate) ends: Vec<SharedEnd>,
    /// The attributes of the list that is read.
    pairs: Vec<Placed<AttributeSpec>>,
}

/// The next attribute, or none at the pair 0, 0. An attribute may be there twice.
#[tactic(auto, unfolding(crate::specs::Elements::next_at))]
fn next_pair(bytes: &mut &[u8]) -> Result<Option<AttributeSpec>, DeclFault>
    ensures exact { Gives (λ x. (x, bytes.new.now)) result (pair_at [] bytes.old.now) }
    ensures shorter { IfOk result (λ _. length bytes.new.now < length bytes.old.now) }
{
    let Some((attribute, form)) = pair_of(bytes)? else {
        return Ok(None);
    };
    Ok(Some(AttributeSpec {
        attribute: Attribute(attribute),
        form: form_with_number(form, bytes)?,
    }))
}

/// The fault of a list that has an attribute twice.
fn twice(spec: &AttributeSpec) -> DeclFault
    ensures { result ≡ record { rule = Rule.AttributeTwice; attribute = spec.now.attribute } }
{
    fault(Rule::AttributeTwice, spec.attribute.0)
}

/// Reads the attributes from an offset on, and returns the list after them and its end: none at the pair 0, 0, or one
/// that is kept. The lists are what the clauses are about.
fn read_pairs(
    pairs: &mut Vec<Placed<AttributeSpec>>,
    lists: &AttributeLists,
    starts: &Offsets,
    ends: &[SharedEnd],
    section: &[u8],
    offset: usize,
) -> Result<(u32, usize), Stop<DeclFault>>
    requires none { pairs.old.items ≡ [] }
    requires offset { offset ≤ length section.now }
    requires placed { ArePlaced section.now lists.now.nodes.items starts.now.starts.items ends.now }
    requires known { AreKnownFrom offset starts.now.starts.items starts.now.numbers.items }
    ensures leads { IfOk result (λ x.
        LeadsToList section.now lists.now.nodes.items starts.now.starts.items pairs.new.items offset x.0 x.1) }
    ensures fault { IfErr result (IfFault (λ _. NoListAt section.now offset)) }
{
    let mut bytes = &section[offset..];
    loop {
        let at = section.len() - bytes.len();
        let first = starts.find(at);
        if first != 0 {
            let end = ends[ends_up_to(ends, first - 1) - 1].end as usize;
            return Ok((first, end));
        }
        let Some(item) = next_pair(&mut bytes)? else {
            return Ok((0, section.len() - bytes.len()));
        };
        pairs.push(Placed { at, item })?;
    }
}

impl KeptLists {
    /// No lists.
    pub(crate) fn new(alloc: Global) -> KeptLists
        ensures none { result.lists.nodes.items ≡ [] }
        ensures lists { (section : List ℕ) → AreListsOf section result }
    {
        KeptLists {
            lists: AttributeLists::new(alloc),
            starts: Offsets::new(alloc),
            ends: Vec::new(alloc),
            pairs: Vec::new(alloc),
        }
    }

    /// The lists without the offsets.
    pub(crate) fn into_lists(self) -> AttributeLists
        ensures { result.nodes.items ≡ self.lists.nodes.items }
    {
        self.lists
    }

    /// Keeps the attributes that were read before a list, the last one first, and returns the list that begins with the
    /// first. The section and the offset are what the clauses are about. Each list begins at an offset of its own, so
    /// that four bytes can say how many there are.
    fn keep_pairs(
        &mut self,
        section: &[u8],
        offset: usize,
        rest: u32,
        end: usize,
    ) -> Result<u32, Stop<DeclFault>>
        requires fits { length section.now < 0xffffffff }
        requires lists { AreListsOf section.now self.old }
        requires leads { LeadsToList section.now self.old.lists.nodes.items self.old.starts.starts.items
            self.old.pairs.items offset rest end }
        ensures list { IfOk result (λ first. IsListAt section.now self.new.lists.nodes.items offset first end) }
        ensures more { OnOk result (MoreLists section.now self.old self.new) }
        ensures fault { IfErr result (IfFault (λ _. NoListAt section.now offset)) }
    {
        let mut first = rest;
        while let Some(Placed { at, item: spec }) = self.pairs.pop() {
            let Some(longer) = self.lists.push(spec, first)? else {
                return Err(Stop::Fault(twice(&spec)));
            };
            self.starts.push(at as u32)?;
            push_end(&mut self.ends, longer - 1, end as u32)?;
            first = longer;
        }
        Ok(first)
    }

    /// Reads the list of attributes that begins at an offset, and returns it and the offset after it. Attributes that
    /// are kept are not read again.
    pub(crate) fn read(
        &mut self,
        section: &[u8],
        offset: usize,
    ) -> Result<(u32, usize), Stop<DeclFault>>
        requires offset { IsOffset section.now offset }
        requires lists { AreListsOf section.now self.old }
        ensures list { IfOk result (λ x. IsListAt section.now self.new.lists.nodes.items offset x.0 x.1) }
        ensures more { OnOk result (MoreLists section.now self.old self.new) }
        ensures fault { IfErr result (IfFault (λ _. NoListAt section.now offset)) }
    {
        self.starts.enter_from(offset)?;
        self.pairs.clear();
        let (rest, end) = read_pairs(
            &mut self.pairs,
            &self.lists,
            &self.starts,
            &self.ends,
            section,
            offset,
        )?;
        let first = self.keep_pairs(section, offset, rest, end)?;
        Ok((first, end))
    }
}
