//! The verdict on six sections: the groups of rules in their order, the last of them on types: shapes, containment and
//! sizes.

ghost use Rattle.std.specs.Prelude.{◌≡◌, ◌<◌, ◌≤◌, length, map, IfOk, IfErr, IfSome, IfNone, OnOk};
ghost use Rattle.dw_forms.specs.Rules.{group_of};
ghost use Rattle.dw_forms.specs.Stops.{IfFault};
ghost use Rattle.dw_entries.specs.Views.{sections_of, all_entries, units_of};
ghost use Rattle.dw_types.specs.Graphs.{IsCycle};
ghost use Rattle.dw_types.specs.Steps.{by_value};
ghost use Rattle.dw_image.specs.FirstFault.{offset_at, NamesCycle};
ghost use Rattle.dw_image.specs.GroupsBefore.{PassBefore, IsVerdictBefore};
ghost use Rattle.dw_image.specs.Headline.{IsImageOf, IsFaultOf, IsVerdictOf};
ghost use Rattle.dw_image.specs.StepsAndSizes.{AreOrdered, AreSteps};

use crate::image::Image;
use dw_elf::Sections;
use dw_entries::{Entries, Fault, Rule, Section, Stop, scan};
use dw_links::{Links, check_classes, link};
use dw_types::{ByValue, NoMemory, Order, OrderFault, order, sizes_with};
use std::alloc::{AllocError, Global};

/// What sections are found to be.
#[derive(Drop)]
pub enum Verdict<'a> {
    /// They are valid.
    Sound(Image<'a>),
    /// They are not: the first rule that fails, and its place.
    Fault(Fault),
}

/// The offset of the entry with a number.
fn offset_of(entries: &Entries<'_>, number: usize) -> u32
    requires { number < length (all_entries entries.now) }
    ensures { result ≡ offset_at (units_of entries.now) number }
{
    entries.offset(entries.id(number))
}

/// The offsets of entries, in their order.
#[tactic(auto, using(crate::proofs::MeasureLemmas::entry_below))]
fn offsets_of(
    alloc: Global,
    entries: &Entries<'_>,
    numbers: &[usize],
) -> Result<Vec<u32>, AllocError>
    requires { IsCycle (by_value (units_of entries.now)) numbers.now }
    ensures { IfOk result (λ offsets. offsets.items ≡ map (offset_at (units_of entries.now)) numbers.now) }
{
    let mut offsets = Vec::with_capacity(alloc, numbers.len())?;
    for k in 0..numbers.len() {
        offsets.push(offset_of(entries, numbers[k]))?;
    }
    Ok(offsets)
}

/// The fault that names a cycle of steps by value.
#[tactic(auto, using(crate::proofs::MeasureLemmas::entry_below))]
fn cycle_fault(alloc: Global, entries: &Entries<'_>, numbers: &[usize]) -> Result<Fault, AllocError>
    requires { IsCycle (by_value (units_of entries.now)) numbers.now }
    ensures { IfOk result (NamesCycle (units_of entries.now)) }
{
    let at = offset_of(entries, numbers[0]);
    let cycle = offsets_of(alloc, entries, numbers)?;
    Ok(Fault {
        rule: Rule::ContainsItself,
        section: Section::Info,
        at,
        attribute: 0,
        cycle,
    })
}

/// The steps by value of entries and their order, or the first fault of shapes and containment.
fn order_types(alloc: Global, links: &Links<'_, '_>) -> Result<(ByValue, Order), Stop<Fault>>
    ensures steps { IfOk result (λ found. AreSteps (units_of links.now.entries.now) found.0) }
    ensures order { IfOk result (λ found. AreOrdered (units_of links.now.entries.now) found.1) }
    ensures fault { IfErr result (IfFault (IsFaultOf (sections_of links.now.entries.now))) }
{
    let steps = ByValue::new(alloc, links.entries, links)?;
    match order(alloc, &steps) {
        Ok(order) => Ok((steps, order)),
        Err(OrderFault::Cycle(nodes)) => {
            Err(Stop::Fault(cycle_fault(alloc, links.entries, nodes.as_slice())?))
        }
        Err(OrderFault::Memory) => Err(Stop::Memory),
    }
}

/// A number after those of all groups of rules.
const ALL: u8 = 8;

/// Checks the groups of rules on entries before a group, in their order. There is an image if these are all.
fn image_of<'a>(
    alloc: Global,
    entries: Entries<'a>,
    group: u8,
) -> Result<Option<Image<'a>>, Stop<Fault>>
    ensures sound { IfOk result (λ found. IfSome found (IsImageOf (sections_of entries.entry))) }
    ensures passed { OnOk result (PassBefore (sections_of entries.entry) (units_of entries.entry) group) }
    ensures whole { IfOk result (λ found. IfNone found (group < 8)) }
    ensures fault { IfErr result (IfFault (IsFaultOf (sections_of entries.entry))) }
{
    if group <= 2 {
        return Ok(None);
    }
    if group == 3 {
        check_classes(alloc, &entries)?;
        return Ok(None);
    }
    let links = link(alloc, &entries)?;
    if group <= 5 {
        return Ok(None);
    }
    let (steps, order) = order_types(alloc, &links)?;
    if group <= 7 {
        return Ok(None);
    }
    let sizes = sizes_with(alloc, &links, &order, steps.size_flags())?;
    let tables = links.into_tables();
    Ok(Some(Image {
        entries,
        tables,
        steps,
        order,
        sizes,
    }))
}

/// Whether sections whose entries were scanned are valid: their image, or the first fault.
pub fn verify_scanned<'a>(alloc: Global, entries: Entries<'a>) -> Result<Verdict<'a>, NoMemory>
    ensures { IfOk result (IsVerdictOf (sections_of entries.entry)) }
{
    match image_of(alloc, entries, ALL) {
        Ok(Some(image)) => Ok(Verdict::Sound(image)),
        Ok(None) => unreachable!(),
        Err(Stop::Fault(fault)) => Ok(Verdict::Fault(fault)),
        Err(Stop::Memory) => Err(NoMemory),
    }
}

/// The first fault of scanned entries, if it is of a group of rules before the rule's own. None if no rule of these
/// groups fails. Of the other groups at most the rule's own is checked.
pub fn verify_before(
    alloc: Global,
    entries: Entries<'_>,
    rule: Rule,
) -> Result<Option<Fault>, NoMemory>
    ensures { IfOk result (IsVerdictBefore (sections_of entries.entry) (units_of entries.entry) (group_of rule)) }
{
    match image_of(alloc, entries, rule.group()) {
        Ok(_) => Ok(None),
        Err(Stop::Fault(fault)) => {
            if fault.rule.group() < rule.group() {
                return Ok(Some(fault));
            }
            Ok(None)
        }
        Err(Stop::Memory) => Err(NoMemory),
    }
}

/// Whether the sections are valid: their image, or the first fault.
pub fn verify<'a>(alloc: Global, sections: Sections<'a>) -> Result<Verdict<'a>, NoMemory>
    ensures { IfOk result (IsVerdictOf sections.entry) }
{
    match scan(alloc, &sections) {
        Ok(entries) => verify_scanned(alloc, entries),
        Err(Stop::Fault(first)) => Ok(Verdict::Fault(first)),
        Err(Stop::Memory) => Err(NoMemory),
    }
}
