//! Reads what look-ups by address are made from, and what is known of it, or finds the first rule that is violated.

ghost use Rattle.std.specs.Prelude.{◌≡◌, ℕ, List, IfErr, IfOk};
ghost use Rattle.dw_forms.specs.Stops.{IfFault};
ghost use Rattle.dw_ranges.specs.Files.{IsIndex};
ghost use Rattle.dw_lookup.specs.Files.{FileFails, HasImage, HasSources, IsSound};
ghost use Rattle.dw_lookup.specs.Reading.{first_of_lines, first_of_ranges};

use crate::first_fault::FirstFault;
use crate::known::Known;
use crate::parts::{code_areas, list_budget, pairs_of, parts_of};
use crate::sources::Sources;
use dw_addresses::{LinesFault, lines_of_file};
use dw_elf::find;
use dw_forms::Stop;
use dw_image::{Image, NoMemory, Verdict, verify};
use dw_ranges::{RangeFault, functions_of_file};
use std::alloc::Global;

/// The image of a file, or the first rule that the file or its entries violate.
fn image_of<'a>(alloc: Global, bytes: &'a [u8]) -> Result<Image<'a>, Stop<FirstFault>>
    ensures image { IfOk result (HasImage bytes.now) }
    ensures fault { IfErr result (IfFault (FileFails bytes.now)) }
{
    let sections = match find(bytes) {
        Ok(sections) => sections,
        Err(fault) => return Err(Stop::Fault(FirstFault::File(fault))),
    };
    let verdict = verify(alloc, sections);
    match verdict {
        Ok(Verdict::Sound(image)) => Ok(image),
        Ok(Verdict::Fault(fault)) => Err(Stop::Fault(FirstFault::Entries(fault))),
        Err(NoMemory) => Err(Stop::Memory),
    }
}

/// What look-ups by address in a file are made from, or the first rule that the file or its entries violate.
pub fn sources_of<'a>(alloc: Global, bytes: &'a [u8]) -> Result<Sources<'a>, Stop<FirstFault>>
    ensures sources { IfOk result (HasSources bytes.now) }
    ensures fault { IfErr result (IfFault (FileFails bytes.now)) }
{
    let image = match image_of(alloc, bytes) {
        Ok(image) => image,
        Err(stop) => return Err(stop),
    };
    let parts = match parts_of(bytes, image.sections()) {
        Ok(parts) => parts,
        Err(fault) => return Err(Stop::Fault(FirstFault::File(fault))),
    };
    let areas = code_areas(alloc, bytes)?;
    let code = pairs_of(alloc, areas.as_slice())?;
    Ok(Sources {
        image,
        parts,
        areas,
        code,
    })
}

/// The fault of the lines of a file as one of the file, unless memory ran out.
fn stop_of_lines(stop: Stop<LinesFault>) -> Stop<FirstFault>
    ensures { result ≡ first_of_lines stop }
{
    match stop {
        Stop::Fault(fault) => Stop::Fault(FirstFault::Lines(fault)),
        Stop::Memory => Stop::Memory,
    }
}

/// The fault of the ranges of a file as one of the file, unless memory ran out.
fn stop_of_ranges(stop: Stop<RangeFault>) -> Stop<FirstFault>
    ensures { result ≡ first_of_ranges stop }
{
    match stop {
        Stop::Fault(fault) => Stop::Fault(FirstFault::Ranges(fault)),
        Stop::Memory => Stop::Memory,
    }
}

/// What is known of a sound file, or the first rule that its lines or its ranges violate.
pub fn look_up<'s, 'a>(
    alloc: Global,
    sources: &'s Sources<'a>,
) -> Result<Known<'s, 'a>, Stop<FirstFault>>
    ensures known { (bytes : List ℕ) → HasSources bytes sources.now → IfOk result (IsSound bytes) }
    ensures index { IfOk result (λ known. IsIndex known.functions) }
    ensures fault { (bytes : List ℕ) → HasSources bytes sources.now → IfErr result (IfFault (FileFails bytes)) }
{
    let image = &sources.image;
    let parts = &sources.parts;
    let code = sources.code.as_slice();
    let read = lines_of_file(alloc, &parts.lines, code, image.scanned());
    let lines = match read {
        Ok(lines) => lines,
        Err(stop) => return Err(stop_of_lines(stop)),
    };
    let budget = list_budget(image.sections(), &parts.lists);
    let areas = sources.areas.as_slice();
    let found = functions_of_file(alloc, &parts.lists, areas, image.scanned(), budget);
    match found {
        Ok(functions) => Ok(Known {
            image,
            lines,
            functions,
        }),
        Err(stop) => Err(stop_of_ranges(stop)),
    }
}
