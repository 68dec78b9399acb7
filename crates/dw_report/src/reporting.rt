//! The text for a request over the bytes of a file, and how the request ends.

ghost use Rattle.std.specs.Prelude.{◌≡◌, IfOk};
ghost use Rattle.dw_elf.specs.declared.sections.Sections.{Sections};
ghost use Rattle.dw_image.specs.Headline.{IsFaultOf};
ghost use Rattle.dw_image.specs.Images.{sections_in};
ghost use Rattle.dw_report.specs.Reports.{file_limit, fault_text, elf_fault_text, counts_text, AreTypeLines};
ghost use Rattle.dw_report.specs.Reports.{SoundReport, SectionsReport, Report};
ghost use Rattle.dw_report.specs.declared.request.Request.TheVariants.{Check};
ghost use Rattle.dw_report.specs.Shown.{show_lines, size_text, size_status, type_at_offset};

use crate::json::{put_elf_fault_object, put_fault_object, put_sound_object};
use crate::lines::{put_elf_fault_line, put_fault_lines, put_sound_line};
use crate::request::{Request, Status};
use crate::shown::{put_show_lines, put_size_at};
use dw_cprint::declare_all;
use dw_elf::{ElfFault, ElfRule, Sections, find};
use dw_image::{Fault, Image, NoMemory, Verdict, verify};
use dw_units::{Counts, Found, check};
use std::alloc::{AllocError, Global};

/// How many bytes the longest file has that is read as one.
pub fn longest_file() -> usize
    ensures { result ≡ file_limit }
{
    4_294_967_296
}

/// The status of a request, and the text that is written for it.
#[derive(Drop)]
pub struct Answer {
    pub status: Status,
    pub text: Vec<u8>,
}

/// What is written for a fault of the file.
fn text_of_elf_fault(
    alloc: Global,
    request: Request,
    fault: ElfFault,
) -> Result<Vec<u8>, AllocError>
    ensures { IfOk result (λ text. text.items ≡ elf_fault_text request fault) }
{
    let mut text = Vec::new(alloc);
    match request {
        Request::Check { json: true } => put_elf_fault_object(&mut text, alloc, fault)?,
        Request::Check { json: false } => put_elf_fault_line(&mut text, fault)?,
        Request::Show => put_elf_fault_line(&mut text, fault)?,
        Request::Types => put_elf_fault_line(&mut text, fault)?,
        Request::Size(_) => put_elf_fault_line(&mut text, fault)?,
    }
    Ok(text)
}

/// What is written for a fault of the sections.
fn text_of_fault(alloc: Global, request: Request, fault: &Fault) -> Result<Vec<u8>, AllocError>
    ensures { IfOk result (λ text. text.items ≡ fault_text request fault.now) }
{
    let mut text = Vec::new(alloc);
    match request {
        Request::Check { json: true } => put_fault_object(&mut text, alloc, fault)?,
        Request::Check { json: false } => put_fault_lines(&mut text, fault)?,
        Request::Show => put_fault_lines(&mut text, fault)?,
        Request::Types => put_fault_lines(&mut text, fault)?,
        Request::Size(_) => put_fault_lines(&mut text, fault)?,
    }
    Ok(text)
}

/// What is written of sound sections with these counts.
fn text_of_counts(alloc: Global, json: bool, counts: Counts) -> Result<Vec<u8>, AllocError>
    ensures { IfOk result (λ text. text.items ≡ counts_text json counts) }
{
    let mut text = Vec::new(alloc);
    if json {
        put_sound_object(&mut text, alloc, counts)?;
    } else {
        put_sound_line(&mut text, counts)?;
    }
    Ok(text)
}

/// The line of each entry.
fn text_of_entries(alloc: Global, image: &Image<'_>) -> Result<Vec<u8>, AllocError>
    ensures { IfOk result (λ text. text.items ≡ show_lines image.now) }
{
    let mut text = Vec::new(alloc);
    put_show_lines(&mut text, image)?;
    Ok(text)
}

/// The lines of all named types.
fn text_of_types(alloc: Global, image: &Image<'_>) -> Result<Vec<u8>, NoMemory>
    ensures { IfOk result (λ text. AreTypeLines image.now text.items) }
{
    let listing = declare_all(alloc, image)?;
    Ok(listing.text)
}

/// The size of the type whose entry starts at an offset.
fn answer_of_size(alloc: Global, image: &Image<'_>, offset: u32) -> Result<Answer, AllocError>
    ensures text { IfOk result (λ answer. answer.text.items ≡ size_text image.now (type_at_offset image.now offset)) }
    ensures status { IfOk result (λ answer. answer.status ≡ size_status (type_at_offset image.now offset)) }
{
    let mut text = Vec::new(alloc);
    let status = put_size_at(&mut text, image, offset)?;
    Ok(Answer { status, text })
}

/// The result if the sections are sound.
#[tactic(auto, using(crate::proofs::ReportLemmas::types_report))]
fn answer_of_sound(alloc: Global, request: Request, image: &Image<'_>) -> Result<Answer, NoMemory>
    ensures { IfOk result (λ answer. SoundReport (sections_in image.now) request answer.status answer.text.items) }
{
    match request {
        Request::Check { json } => {
            let text = text_of_counts(alloc, json, Counts::of(image))?;
            let status = Status::Sound;
            Ok(Answer { status, text })
        }
        Request::Show => {
            let text = text_of_entries(alloc, image)?;
            let status = Status::Sound;
            Ok(Answer { status, text })
        }
        Request::Types => {
            let text = text_of_types(alloc, image)?;
            let status = Status::Sound;
            Ok(Answer { status, text })
        }
        Request::Size(offset) => {
            let answer = answer_of_size(alloc, image, offset)?;
            Ok(answer)
        }
    }
}

/// The result for the first fault of sections.
fn answer_of_fault(alloc: Global, request: Request, fault: &Fault) -> Result<Answer, AllocError>
    ensures { IfOk result (λ answer. (s : Sections) → IsFaultOf s fault.now
        → SectionsReport s request answer.status answer.text.items) }
{
    let text = text_of_fault(alloc, request, fault)?;
    let status = Status::Fault;
    Ok(Answer { status, text })
}

/// The result of `check` for the sections of a file.
fn answer_of_check(alloc: Global, json: bool, sections: Sections<'_>) -> Result<Answer, NoMemory>
    ensures { IfOk result (λ answer. SectionsReport sections.entry (Check json) answer.status answer.text.items) }
{
    match check(alloc, sections)? {
        Found::Fault(fault) => {
            let answer = answer_of_fault(alloc, Request::Check { json }, &fault)?;
            Ok(answer)
        }
        Found::Sound(counts) => {
            let text = text_of_counts(alloc, json, counts)?;
            let status = Status::Sound;
            Ok(Answer { status, text })
        }
    }
}

/// The result for the sections of a file.
fn answer_of_sections(
    alloc: Global,
    request: Request,
    sections: Sections<'_>,
) -> Result<Answer, NoMemory>
    ensures { IfOk result (λ answer. SectionsReport sections.entry request answer.status answer.text.items) }
{
    if let Request::Check { json } = request {
        return answer_of_check(alloc, json, sections);
    }
    match verify(alloc, sections)? {
        Verdict::Fault(fault) => {
            let answer = answer_of_fault(alloc, request, &fault)?;
            Ok(answer)
        }
        Verdict::Sound(image) => {
            let answer = answer_of_sound(alloc, request, &image)?;
            Ok(answer)
        }
    }
}

/// The result of a request over the bytes of a file.
pub fn report(
    alloc: Global,
    limit: usize,
    request: Request,
    bytes: &[u8],
) -> Result<Answer, NoMemory>
    ensures { IfOk result (λ answer. Report limit request bytes.now answer.status answer.text.items) }
{
    if bytes.len() > limit {
        let fault = ElfFault {
            rule: ElfRule::TooLarge,
            section: 0,
        };
        let text = text_of_elf_fault(alloc, request, fault)?;
        let status = Status::Fault;
        return Ok(Answer { status, text });
    }
    let sections = match find(bytes) {
        Ok(sections) => sections,
        Err(fault) => {
            let text = text_of_elf_fault(alloc, request, fault)?;
            let status = Status::Fault;
            return Ok(Answer { status, text });
        }
    };
    let answer = answer_of_sections(alloc, request, sections)?;
    Ok(answer)
}
