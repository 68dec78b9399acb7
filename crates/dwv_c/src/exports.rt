//! The calls from C, and what they check.

ghost use Rattle.std.specs.Prelude.{◌≡◌, ◌≤◌, ℕ, List, length};
ghost use Rattle.dw_ranges.specs.Files.{IsIndex};
ghost use Rattle.dw_lookup.specs.Files.{IsSound as IsSoundFile};
ghost use Rattle.dw_report.specs.Reports.{file_limit, status_code};
ghost use Rattle.dwv_c.specs.Verdicts.{Given, of_file, of_six, AreCountsOf, Checks, IsSound};
ghost use Rattle.dwv_c.specs.Frames.{PutsFrames, frame_arrays};
ghost use Rattle.dwv_c.specs.Tables.{PutsTable, arrays};
ghost use Rattle.dwv_c.specs.Texts.{PutsReport, request_of};
ghost use Rattle.dwv_c.specs.Checked.{AreFound, IsFound, status_of, verdict_after};

use crate::frame_rows::{FrameCounts, FrameRow, Located};
use crate::frames::{gather, put_frame_counts, put_gathered};
use crate::meaning::ValueRow;
use crate::places::{held_alone, held_in_file};
use crate::table::put_table;
use crate::table_rows::{EntryRow, TableCounts, UnitRow};
use crate::verdict::{
    FAULT, NO_MEMORY, NO_REQUEST, SOUND, TOO_SHORT, Verdict, put_over, put_stop, verdict_of_counts,
    verdict_of_fault, verdict_of_file_fault, verdict_of_large,
};
use dw_elf::{Sections, TooLarge, find};
use dw_forms::Stop;
use dw_image::{Image, NoMemory, Verdict as Verified, verify};
use dw_lookup::{Known, look_up, sources_of};
use dw_report::{Request, Status, longest_file, report};
use dw_units::{Counts, Found, check};
use std::alloc::Global;

/// The sections of a file.
fn sections_of_file(file: &[u8]) -> Result<Sections<'_>, Stop<Verdict>>
    ensures { AreFound (of_file file.now) result }
{
    if file.len() > longest_file() {
        return Err(Stop::Fault(verdict_of_large()));
    }
    match find(file) {
        Ok(sections) => Ok(sections),
        Err(fault) => Err(Stop::Fault(verdict_of_file_fault(fault))),
    }
}

/// Six sections as they are given.
fn sections_of_six<'a>(
    info: &'a [u8],
    abbrev: &'a [u8],
    str: &'a [u8],
    line_str: &'a [u8],
    str_offsets: &'a [u8],
    addr: &'a [u8],
) -> Result<Sections<'a>, Stop<Verdict>>
    ensures { AreFound (of_six info.now «abbrev».now str.now line_str.now str_offsets.now addr.now) result }
{
    match Sections::new(abbrev, info, str, line_str, str_offsets, addr) {
        Ok(sections) => Ok(sections),
        Err(TooLarge) => Err(Stop::Fault(verdict_of_large())),
    }
}

/// The image of the sections that are given, if there are some and they are sound.
fn verify_found<'a>(
    alloc: Global,
    found: Result<Sections<'a>, Stop<Verdict>>,
) -> Result<Image<'a>, Stop<Verdict>>
    ensures { (g : Given) → AreFound g found.entry → IsFound g (IsSound g) result }
{
    let sections = found?;
    match verify(alloc, sections) {
        Ok(Verified::Sound(image)) => Ok(image),
        Ok(Verified::Fault(fault)) => Err(Stop::Fault(verdict_of_fault(&fault))),
        Err(NoMemory) => Err(Stop::Memory),
    }
}

/// Their counts.
fn count_found(
    alloc: Global,
    found: Result<Sections<'_>, Stop<Verdict>>,
) -> Result<Counts, Stop<Verdict>>
    ensures { (g : Given) → AreFound g found.entry → IsFound g (AreCountsOf g) result }
{
    let sections = found?;
    match check(alloc, sections) {
        Ok(Found::Sound(counts)) => Ok(counts),
        Ok(Found::Fault(fault)) => Err(Stop::Fault(verdict_of_fault(&fault))),
        Err(NoMemory) => Err(Stop::Memory),
    }
}

/// Writes the counts or the fault into the struct of the caller.
fn put_verdict(counts: Result<Counts, Stop<Verdict>>, verdict: &mut Verdict) -> u32
    ensures status { result ≡ status_of counts }
    ensures verdict { verdict.new ≡ verdict_after counts verdict.old }
{
    match counts {
        Ok(counts) => {
            *verdict = verdict_of_counts(counts);
            SOUND
        }
        Err(Stop::Fault(fault)) => {
            *verdict = fault;
            FAULT
        }
        Err(Stop::Memory) => NO_MEMORY,
    }
}

/// Checks a file: SOUND and its counts, FAULT and its fault, or NO_MEMORY.
#[unsafe(no_mangle)]
pub extern "C" fn dwv_check(alloc: Global, file: &[u8], verdict: &mut Verdict) -> u32
    ensures { Checks (of_file file.now) verdict.old result verdict.new }
{
    put_verdict(count_found(alloc, sections_of_file(file)), verdict)
}

/// Checks six sections of a file of any format. A section that the file does not have is empty.
#[unsafe(no_mangle)]
pub extern "C" fn dwv_check_sections(
    alloc: Global,
    info: &[u8],
    abbrev: &[u8],
    str: &[u8],
    line_str: &[u8],
    str_offsets: &[u8],
    addr: &[u8],
    verdict: &mut Verdict,
) -> u32
    ensures { Checks (of_six info.now «abbrev».now str.now line_str.now str_offsets.now addr.now)
        verdict.old result verdict.new }
{
    let sections = sections_of_six(info, abbrev, str, line_str, str_offsets, addr);
    put_verdict(count_found(alloc, sections), verdict)
}

/// The request with a number.
fn request_numbered(number: u32, offset: u32) -> Option<Request>
    ensures { result ≡ request_of number offset }
{
    match number {
        0 => Some(Request::Check { json: false }),
        1 => Some(Request::Check { json: true }),
        2 => Some(Request::Show),
        3 => Some(Request::Types),
        4 => Some(Request::Size(offset)),
        _ => None,
    }
}

/// The exit status as a number that is returned.
fn number_of(status: Status) -> u32
    ensures { result ≡ status_code status }
{
    u32::from(status.code())
}

/// Writes the report of a request to a buffer: all of it and its exit status, or nothing and TOO_SHORT, NO_MEMORY or
/// NO_REQUEST. `needed` is the length of the report.
#[unsafe(no_mangle)]
pub extern "C" fn dwv_report(
    alloc: Global,
    file: &[u8],
    request: u32,
    offset: u32,
    buffer: &mut [u8],
    needed: &mut usize,
) -> u32
    ensures { PutsReport file.now (request_of request offset) buffer.old needed.old result buffer.new needed.new }
{
    let Some(request) = request_numbered(request, offset) else {
        return NO_REQUEST;
    };
    match report(alloc, longest_file(), request, file) {
        Ok(answer) => {
            let text = answer.text.as_slice();
            *needed = text.len();
            if text.len() > buffer.len() {
                return TOO_SHORT;
            }
            put_over(buffer, text);
            number_of(answer.status)
        }
        Err(NoMemory) => NO_MEMORY,
    }
}

/// Checks a file, and writes a row for each unit, each entry and each value of a sound one: all rows and SOUND, or none
/// and TOO_SHORT, FAULT or NO_MEMORY. `counts` says how many rows there are. Places are counted from the file's start.
#[unsafe(no_mangle)]
pub extern "C" fn dwv_table(
    alloc: Global,
    file: &[u8],
    units: &mut [UnitRow],
    entries: &mut [EntryRow],
    values: &mut [ValueRow],
    counts: &mut TableCounts,
    verdict: &mut Verdict,
) -> u32
    ensures { PutsTable (of_file file.now) (arrays units.old entries.old values.old) counts.old verdict.old
        result (arrays units.new entries.new values.new) counts.new verdict.new }
{
    match verify_found(alloc, sections_of_file(file)) {
        Ok(image) => {
            let holders = held_in_file(file);
            put_table(
                alloc, holders, &image, units, entries, values, counts, verdict,
            )
        }
        Err(error) => put_verdict(Err(error), verdict),
    }
}

/// The same of six sections of a file of any format. Places are counted from the start of their section.
#[unsafe(no_mangle)]
pub extern "C" fn dwv_table_sections(
    alloc: Global,
    info: &[u8],
    abbrev: &[u8],
    str: &[u8],
    line_str: &[u8],
    str_offsets: &[u8],
    addr: &[u8],
    units: &mut [UnitRow],
    entries: &mut [EntryRow],
    values: &mut [ValueRow],
    counts: &mut TableCounts,
    verdict: &mut Verdict,
) -> u32
    ensures { PutsTable (of_six info.now «abbrev».now str.now line_str.now str_offsets.now addr.now)
        (arrays units.old entries.old values.old) counts.old verdict.old result
        (arrays units.new entries.new values.new) counts.new verdict.new }
{
    let found = sections_of_six(info, abbrev, str, line_str, str_offsets, addr);
    match verify_found(alloc, found) {
        Ok(image) => {
            let holders = held_alone(&image);
            put_table(
                alloc, holders, &image, units, entries, values, counts, verdict,
            )
        }
        Err(error) => put_verdict(Err(error), verdict),
    }
}

/// Writes what is known of a sound file at addresses.
fn put_known(
    alloc: Global,
    known: &Known<'_, '_>,
    addresses: &[u64],
    located: &mut [Located],
    frames: &mut [FrameRow],
    text: &mut [u8],
    counts: &mut FrameCounts,
    verdict: &mut Verdict,
) -> u32
    requires { IsIndex known.now.functions }
    ensures { (bytes : List ℕ) → length bytes ≤ file_limit → IsSoundFile bytes known.now
        → PutsFrames bytes addresses.now (frame_arrays located.old frames.old text.old) counts.old verdict.old result
        (frame_arrays located.new frames.new text.new) counts.new verdict.new }
{
    match gather(alloc, known, addresses) {
        Ok(gathered) => {
            put_frame_counts(&gathered, known.image, counts, verdict);
            put_gathered(&gathered, located, frames, text)
        }
        Err(_) => NO_MEMORY,
    }
}

/// Checks a file, and writes a row for each frame at each address of a sound one, with the names of functions and the
/// paths of files: all of it and SOUND, or none of it and TOO_SHORT, FAULT or NO_MEMORY. `counts` says how many rows
/// and bytes there are.
#[unsafe(no_mangle)]
pub extern "C" fn dwv_frames(
    alloc: Global,
    file: &[u8],
    addresses: &[u64],
    located: &mut [Located],
    frames: &mut [FrameRow],
    text: &mut [u8],
    counts: &mut FrameCounts,
    verdict: &mut Verdict,
) -> u32
    ensures { PutsFrames file.now addresses.now (frame_arrays located.old frames.old text.old) counts.old verdict.old
        result (frame_arrays located.new frames.new text.new) counts.new verdict.new }
{
    if file.len() > longest_file() {
        *verdict = verdict_of_large();
        return FAULT;
    }
    let sources = match sources_of(alloc, file) {
        Ok(sources) => sources,
        Err(stop) => return put_stop(stop, verdict),
    };
    match look_up(alloc, &sources) {
        Ok(known) => put_known(
            alloc, &known, addresses, located, frames, text, counts, verdict,
        ),
        Err(stop) => put_stop(stop, verdict),
    }
}
