//! The graph of steps by value: what an entry holds, and so may not hold itself (DWARF 5, chapter 5).

ghost use Rattle.std.specs.Prelude.{◌≡◌, ◌++◌, ℕ, ◌<◌, ◌↔◌, true, length, IfOk, IfErr, OnOk};
ghost use Rattle.std.specs.List.{flat_map};
ghost use Rattle.std.specs.Option.{option_to_list};
ghost use Rattle.dw_entries.specs.Failures.{HasNone, IsFirst};
ghost use Rattle.dw_entries.specs.Stopped.{IfPlainFault};
ghost use Rattle.dw_entries.specs.Views.{all_entries, units_of};
ghost use Rattle.dw_types.specs.Children.{children_of};
ghost use Rattle.dw_types.specs.Entries.{entry_in, signature_target, type_target};
ghost use Rattle.dw_types.specs.Graphs.{IsStep};
ghost use Rattle.dw_types.specs.Held.{entries_held, units_held};
ghost use Rattle.dw_types.specs.Kinds.{has_members, is_declared_type, passes_type_on, count_of_types};
ghost use Rattle.dw_types.specs.Packing.{cut};
ghost use Rattle.dw_types.specs.Shapes.{ShapeFailures};
ghost use Rattle.dw_types.specs.StepFlags.{TellSizeFlags, TellSteps};
ghost use Rattle.dw_types.specs.Steps.{by_value, member_step, steps_by_value, targets_if, IsStepByValue};

use crate::flags::{Flags, SizeFlags};
use crate::graph::{Packed, StepGraph};
use crate::kind::{is_container, is_declarable, passes_type_on};
use crate::linked::LinkedEntries;
use crate::numbers::Numbers;
use crate::shape_rules::{broken_shape, is_defined_member};
use dw_entries::constants::*;
use dw_entries::{Entries, EntryId, Fault, Stop};
use dw_links::Links;
use std::alloc::{AllocError, Global};

/// The step of an entry with this tag to its type.
#[inline(always)]
fn type_step(entries: &LinkedEntries<'_, '_>, id: EntryId, tag: Tag) -> Option<EntryId>
    requires id { id < length (entries_held entries.now) }
    requires tag { tag ≡ (entry_in (units_held entries.now) id).head.decl.tag }
    ensures { option_to_list result ≡ targets_if (passes_type_on (entry_in (units_held entries.now) id))
        (type_target (units_held entries.now) id) }
{
    if passes_type_on(tag) {
        entries.type_target(id)
    } else {
        None
    }
}

/// The step of an entry with this tag by its signature.
#[inline(always)]
fn signature_step(entries: &mut LinkedEntries<'_, '_>, id: EntryId, tag: Tag) -> Option<EntryId>
    requires id { id < length (entries_held entries.old) }
    requires tag { tag ≡ (entry_in (units_held entries.old) id).head.decl.tag }
    ensures same { units_held entries.new ≡ units_held entries.old }
    ensures step { option_to_list result ≡ targets_if (is_declared_type (entry_in (units_held entries.old) id))
        (signature_target (units_held entries.old) id) }
{
    if is_declarable(tag) && entries.is_declared(id) {
        entries.signature_target(id)
    } else {
        None
    }
}

/// Adds the step to an entry, if one is named.
#[inline(always)]
fn push_to(steps: &mut Numbers, to: Option<EntryId>) -> Result<(), AllocError>
    ensures { OnOk result (steps.new ≡ steps.old ++ option_to_list to) }
{
    if let Some(to) = to {
        steps.push(to.number())?;
    }
    Ok(())
}

/// Adds the steps of a structure or union that is not declared.
#[inline(always)]
fn push_members(
    entries: &mut LinkedEntries<'_, '_>,
    steps: &mut Numbers,
    id: EntryId,
) -> Result<(), AllocError>
    requires id { id < length (entries_held entries.old) }
    requires members { has_members (entry_in (units_held entries.old) id) ≡ true }
    ensures same { OnOk result (units_held entries.new ≡ units_held entries.old) }
    ensures steps { OnOk result (steps.new
        ≡ steps.old ++ flat_map (member_step (units_held entries.old)) (children_of (entries_held entries.old) id)) }
{
    for child in entries.children(id) {
        if is_defined_member(entries, child) {
            push_to(steps, entries.type_target(child))?;
        }
    }
    Ok(())
}

/// Adds the steps of an entry with this tag.
#[inline(always)]
fn push_row(
    entries: &mut LinkedEntries<'_, '_>,
    steps: &mut Numbers,
    id: EntryId,
    tag: Tag,
) -> Result<(), AllocError>
    requires id { id < length (entries_held entries.old) }
    requires tag { tag ≡ (entry_in (units_held entries.old) id).head.decl.tag }
    ensures same { OnOk result (units_held entries.new ≡ units_held entries.old) }
    ensures steps { OnOk result (steps.new ≡ steps.old ++ steps_by_value (units_held entries.old) id) }
{
    if is_container(tag) && !entries.is_declared(id) {
        return push_members(entries, steps, id);
    }
    push_to(steps, type_step(entries, id, tag))?;
    push_to(steps, signature_step(entries, id, tag))
}

impl SizeFlags {
    /// The flags of entries.
    pub(crate) fn read(
        alloc: Global,
        entries: &mut LinkedEntries<'_, '_>,
    ) -> Result<Self, AllocError>
        ensures same { OnOk result (units_held entries.new ≡ units_held entries.old) }
        ensures told { IfOk result (TellSizeFlags (units_held entries.old)) }
    {
        let count = entries.count();
        let mut leaves = Flags::none(alloc, count)?;
        let mut members = Flags::none(alloc, count)?;
        for node in 0..count {
            let id = entries.id(node);
            let decl = entries.decl(id);
            let mut row = Numbers::with_room(alloc, 0)?;
            if decl.is_type() {
                push_row(entries, &mut row, id, decl.tag())?;
            }
            leaves.set_if(node, decl.is_type() && row.len() == 0);
            members.set_if(node, decl.tag() == DW_TAG_member);
        }
        Ok(SizeFlags { leaves, members })
    }
}

/// The steps by value of each entry, how many entries are types, and the flags by which sizes are computed.
#[derive(Drop)]
pub struct ByValue {
    packed: Packed,
    /// Which entries have steps.
    with_steps: Flags,
    types: usize,
    size_flags: SizeFlags,
    ghost told: { TellSteps (cut packed.steps 0 packed.ends) with_steps },
}

impl ByValue {
    /// The graph of the steps by value of entries, by their links, or the first fault of their shapes. The nodes are
    /// the numbers of the entries.
    #[inline(never)]
    pub fn new(
        alloc: Global,
        entries: &Entries<'_>,
        links: &Links<'_, '_>,
    ) -> Result<Self, Stop<Fault>>
        requires entries { links.now.entries.now ≡ entries.now }
        ensures graph { IfOk result (λ it. ⟦<ByValue as StepGraph>⟧.graph it
            ≡ by_value (units_of links.now.entries.now)) }
        ensures steps { IfOk result (λ it. (from to : ℕ) → IsStep (⟦<ByValue as StepGraph>⟧.graph it) from to
            ↔ IsStepByValue (units_of links.now.entries.now) from to) }
        ensures types { IfOk result (λ it. it.types ≡ count_of_types (all_entries links.now.entries.now)) }
        ensures flags { IfOk result (λ it. TellSizeFlags (units_of links.now.entries.now) it.size_flags) }
        ensures sound { OnOk result (HasNone (ShapeFailures (units_of links.now.entries.now))) }
        ensures fault { IfErr result (IfPlainFault (IsFirst (ShapeFailures (units_of links.now.entries.now)))) }
    {
        let mut linked = LinkedEntries::new(entries, links.tables());
        let count = linked.count();
        let mut steps = Numbers::with_room(alloc, count / 2)?;
        let mut ends = Numbers::with_room(alloc, count)?;
        let mut end = 0;
        let mut types = 0;
        let mut with_steps = Flags::none(alloc, count)?;
        let mut leaves = Flags::none(alloc, count)?;
        let mut members = Flags::none(alloc, count)?;
        for node in 0..count {
            let id = linked.id(node);
            let decl = linked.decl(id);
            let is_type = decl.is_type();
            let is_member = decl.tag() == DW_TAG_member;
            if is_type || is_member {
                if let Some(rule) = broken_shape(alloc, &mut linked, id, decl)? {
                    return Err(linked.fault(alloc, id, rule));
                }
                members.set_if(node, is_member);
            }
            if is_type {
                types += 1;
                push_row(&mut linked, &mut steps, id, decl.tag())?;
                if steps.len() == end {
                    leaves.set_if(node, true);
                } else {
                    with_steps.set_if(node, true);
                    ends.fill(end, node)?;
                    end = steps.len();
                    ends.push(end)?;
                }
            }
        }
        ends.fill(end, count)?;
        let packed = Packed::from_rows(steps, ends);
        Ok(ByValue {
            packed,
            with_steps,
            types,
            size_flags: SizeFlags { leaves, members },
        })
    }

    /// How many entries are types.
    pub fn types(&self) -> usize
        ensures { result ≡ self.now.types }
    {
        self.types
    }

    /// The flags of the entries by which their sizes are computed.
    pub fn size_flags(&self) -> &SizeFlags
        ensures { result.now ≡ self.now.size_flags }
    {
        &self.size_flags
    }
}

impl StepGraph for ByValue {
    ghost use Rattle.dw_types.specs.PackingLaws.{cut-leads};

    ghost graph = { λ it. cut it.packed.steps 0 it.packed.ends };

    ghost leads_to_nodes = { λ it. cut-leads it.packed.steps it.packed.ends it.packed.in_order it.packed.leads };

    fn nodes(&self) -> usize {
        self.packed.nodes()
    }

    fn steps(&self, node: usize) -> usize {
        self.packed.steps(node)
    }

    fn with_steps(&self, alloc: Global) -> Result<Flags, AllocError> {
        self.with_steps.copy(alloc)
    }

    fn step(&self, node: usize, k: usize) -> usize {
        self.packed.step(node, k)
    }
}
