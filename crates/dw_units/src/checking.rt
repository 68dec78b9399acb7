//! The counts of sound sections or their first fault, batch after batch of units if they refer to nothing outside their
//! batch.

ghost use Rattle.std.specs.Prelude.{◌+◌, ◌≤◌, length, take, drop, IfErr, IfOk, IfSome};
ghost use Rattle.dw_entries.specs.Faults.{Fails};
ghost use Rattle.dw_entries.specs.Stopped.{IfPlainFault};
ghost use Rattle.dw_entries.specs.Views.{all_entries, sections_of, units_of};
ghost use Rattle.dw_units.specs.IndependentBatches.{JoinsUnits};
ghost use Rattle.dw_units.specs.ByUnit.{FirstOfUnits, TreesOfUnits};
ghost use Rattle.dw_units.specs.Counts.{IsFoundIn};
ghost use Rattle.dw_units.specs.BatchSections.{IsFirmlyFound, IsFoundAfter, IsFoundUpTo};
ghost use Rattle.dw_units.specs.BatchSections.{IsWhollyFound, Refer};

use crate::batches::{Elsewhere, elsewhere_of, have_no_type_unit, separate_batches};
use crate::counts::Counts;
use dw_elf::Sections;
use dw_entries::{Entries, Fault, Rule, Stop, scan};
use dw_image::{NoMemory, Verdict, verify, verify_before, verify_scanned};
use std::alloc::Global;

/// How many bytes of memory `keep_memory` asks for.
const KEPT: usize = 4 << 20;

/// Asks for memory and gives it back, so that what one batch gives back is used again for the next one. The C library
/// keeps up to twice as much from then on (mallopt(3), `M_TRIM_THRESHOLD`), and the system does not clear its pages
/// once more. It does no harm if there is no such memory.
fn keep_memory(alloc: Global) {
    let mut room: Vec<u8> = Vec::new(alloc);
    let _ = room.reserve(KEPT);
}

/// What sections are found to be.
#[derive(Drop)]
pub enum Found {
    /// They are sound, and these are their counts.
    Sound(Counts),
    /// They are not: the first fault.
    Fault(Fault),
}

/// The fault of a rule of trees in a batch is what is found. None if a unit is cut, which may go on after the batch.
fn wholly_found(fault: Fault) -> Option<Found>
    ensures { IfSome result (IsWhollyFound fault) }
{
    match fault.rule {
        Rule::UnitCut => None,
        _ => Some(Found::Fault(fault)),
    }
}

/// The fault of a batch is what is found. None if it depends on the other units: where no entry of the batch is at an
/// offset of .debug_info, one of another batch may be.
fn firmly_found(fault: Fault, elsewhere: Elsewhere) -> Option<Found>
    ensures { IfSome result (IsFirmlyFound elsewhere fault) }
{
    if let (Elsewhere::ByOffset | Elsewhere::BySignature, Rule::NoEntry) = (elsewhere, fault.rule) {
        return None;
    }
    Some(Found::Fault(fault))
}

/// Verifies the entries of one batch more. If there is a least fault so far, only by the groups before its rule's.
fn verify_entries(
    alloc: Global,
    so_far: Found,
    entries: Entries<'_>,
    elsewhere: Elsewhere,
) -> Result<Option<Found>, NoMemory>
    requires { Refer (all_entries entries) elsewhere }
    ensures { IfOk result (λ found. IfSome found
        (IsFoundAfter (sections_of entries.entry) (units_of entries.entry) so_far)) }
{
    match so_far {
        Found::Sound(counts) => match verify_scanned(alloc, entries)? {
            Verdict::Sound(image) => match counts.plus(Counts::of(&image)) {
                Some(sums) => Ok(Some(Found::Sound(sums))),
                None => Ok(None),
            },
            Verdict::Fault(fault) => Ok(firmly_found(fault, elsewhere)),
        },
        Found::Fault(least) => match verify_before(alloc, entries, least.rule)? {
            Some(fault) => Ok(firmly_found(fault, elsewhere)),
            None => Ok(Some(Found::Fault(least))),
        },
    }
}

/// Verifies one batch more, so many bytes from an offset of .debug_info, as sections of its own: what is found up to
/// its end. An error is the fault of a rule of trees. None if what is found depends on the other units.
fn verify_next(
    alloc: Global,
    sections: &Sections<'_>,
    so_far: Found,
    at: usize,
    size: usize,
) -> Result<Option<Found>, Stop<Fault>>
    requires { at + size ≤ length sections.now.info.now }
    ensures found { IfOk result (λ found. IfSome found
        (λ more. IsFoundUpTo sections.now at so_far → IsFoundUpTo sections.now (at + size) more)) }
    ensures fault { IfErr result (IfPlainFault
        (Fails sections.now.«abbrev».now at (take size (drop at sections.now.info.now)))) }
{
    let own = sections.part(at, at + size);
    let entries = scan(alloc, &own)?;
    if !have_no_type_unit(&entries) {
        return Ok(None);
    }
    let elsewhere = elsewhere_of(&entries);
    if let Elsewhere::BySignature = elsewhere {
        return Ok(None);
    }
    match verify_entries(alloc, so_far, entries, elsewhere) {
        Ok(found) => Ok(found),
        Err(NoMemory) => Err(Stop::Memory),
    }
}

/// What is found batch after batch of units, if no batch refers to another one. None if one may, or if all at once cost
/// less: for one batch, and for units whose abbreviation tables are large. None says nothing.
fn check_batches(alloc: Global, sections: &Sections<'_>) -> Result<Option<Found>, NoMemory>
    ensures { IfOk result (λ found. IfSome found (IsFoundIn sections.now)) }
{
    let sizes = match separate_batches(alloc, sections)? {
        Some(sizes) => sizes,
        None => return Ok(None),
    };
    keep_memory(alloc);
    let mut at = sections.base as usize;
    let mut so_far = Found::Sound(Counts {
        units: 0,
        entries: 0,
        types: 0,
    });
    for k in 0..sizes.len() {
        let size = sizes[k];
        so_far = match verify_next(alloc, sections, so_far, at, size) {
            Ok(Some(more)) => more,
            Ok(None) => return Ok(None),
            Err(Stop::Fault(fault)) => return Ok(wholly_found(fault)),
            Err(Stop::Memory) => return Err(NoMemory),
        };
        at += size;
    }
    Ok(Some(so_far))
}

/// The counts of sound sections, or their first fault: batch after batch of units, with the memory of one batch, if
/// that is known to suffice, else all at once.
pub fn check(alloc: Global, sections: Sections<'_>) -> Result<Found, NoMemory>
    ensures { IfOk result (IsFoundIn sections.entry) }
{
    if let Some(found) = check_batches(alloc, &sections)? {
        return Ok(found);
    }
    match verify(alloc, sections)? {
        Verdict::Sound(image) => Ok(Found::Sound(Counts::of(&image))),
        Verdict::Fault(fault) => Ok(Found::Fault(fault)),
    }
}

/// Batches that are each valid alone, at its place, and have no type unit and no value that refers to a unit by its
/// signature, are valid together.
#[tactic(auto, using(crate::proofs::GroupLemmas::join))]
pub fn units_join()
    ensures { JoinsUnits }
{}

/// Whole units, and then bytes at which a rule of trees fails: it fails there in the sections.
#[tactic(auto, using(crate::proofs::TreeLemmas::trees_first))]
pub fn trees_of_units()
    ensures { TreesOfUnits }
{}

/// The first fault of such batches is the least, by group and then by batch, of the batches' own. A missing entry (R1)
/// is one of them only if its batch has no value that is an offset of .debug_info.
pub fn first_of_units()
    ensures { FirstOfUnits }
{}
