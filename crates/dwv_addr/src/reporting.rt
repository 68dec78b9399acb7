//! The text for a request over the bytes of a file and addresses, and how the request ends.

ghost use Rattle.std.specs.Prelude.{◌≡◌, IfErr, IfOk, List};
ghost use Rattle.std.specs.List.{list_all};
ghost use Rattle.std.specs.Option.{is_some};
ghost use Rattle.dw_forms.specs.Stops.{IfFault};
ghost use Rattle.dw_ranges.specs.Files.{IsIndex, IsIndexOf};
ghost use Rattle.dw_ranges.specs.Functions.{Known as KnownUnit};
ghost use Rattle.dw_lookup.specs.Files.{FileFails};
ghost use Rattle.dw_lookup.specs.declared.first_fault.FirstFault.TheVariants.{File};
ghost use Rattle.dw_report.specs.Reports.{too_large};
ghost use Rattle.dwv_addr.specs.Faults.{first_fault_text};
ghost use Rattle.dwv_addr.specs.Reports.{FileReport, Report, SoundReport, counts_text, status_if};
ghost use Rattle.dwv_addr.specs.Requests.{writes_json};
ghost use Rattle.dwv_addr.specs.declared.request.Status.TheVariants.{Fault};

use crate::answers::put_answers;
use crate::counts::{Counts, counts_of, put_sound_line, put_sound_object};
use crate::faults::put_first_fault;
use crate::request::{Request, Status};
use dw_elf::{ElfFault, ElfRule};
use dw_forms::Stop;
use dw_lookup::{FirstFault, Known, look_up, sources_of};
use std::alloc::{AllocError, Global};

/// The status of a request, and the text that is written for it.
#[derive(Drop)]
pub struct Answer {
    pub status: Status,
    pub text: Vec<u8>,
}

/// What is written of the counts of a sound file.
fn text_of_counts(alloc: Global, json: bool, counts: Counts) -> Result<Vec<u8>, AllocError>
    ensures { IfOk result (λ text. text.items ≡ counts_text json counts) }
{
    let mut text = Vec::new(alloc);
    if json {
        put_sound_object(&mut text, alloc, counts)?;
    } else {
        put_sound_line(&mut text, counts)?;
    }
    Ok(text)
}

/// Whether each word or line is an address.
pub fn are_addresses(asked: &[Option<u64>]) -> bool
    ensures { result ≡ list_all is_some asked.now }
{
    asked.iter().all(|question| question.is_some())
}

/// How a request for addresses ends, by whether each word or line is one.
pub fn status_of(are: bool) -> Status
    ensures { result ≡ status_if are }
{
    if are {
        return Status::Sound;
    }
    Status::BadAddress
}

/// The result of a request for a sound file.
fn answer_of_sound(
    alloc: Global,
    request: Request,
    asked: &[Option<u64>],
    known: &Known<'_, '_>,
) -> Result<Answer, AllocError>
    requires { IsIndex known.now.functions }
    ensures { IfOk result (λ answer. (units : List KnownUnit) → IsIndexOf units known.now.functions
        → SoundReport known.now units asked.now request answer.status answer.text.items) }
{
    match request {
        Request::Check { json } => {
            let counts = counts_of(&known.lines, &known.functions);
            let text = text_of_counts(alloc, json, counts)?;
            let status = Status::Sound;
            Ok(Answer { status, text })
        }
        Request::Find { json } => {
            let mut text = Vec::new(alloc);
            put_answers(&mut text, alloc, json, known, asked)?;
            let status = status_of(are_addresses(asked));
            Ok(Answer { status, text })
        }
    }
}

/// The result of a request for the bytes of a file, or the first rule that the file violates.
fn answer_of_file(
    alloc: Global,
    request: Request,
    asked: &[Option<u64>],
    bytes: &[u8],
) -> Result<Answer, Stop<FirstFault>>
    ensures answer { IfOk result (λ answer. FileReport bytes.now request asked.now answer.status answer.text.items) }
    ensures fault { IfErr result (IfFault (FileFails bytes.now)) }
{
    let sources = match sources_of(alloc, bytes) {
        Ok(sources) => sources,
        Err(stop) => return Err(stop),
    };
    let known = match look_up(alloc, &sources) {
        Ok(known) => known,
        Err(stop) => return Err(stop),
    };
    let answer = answer_of_sound(alloc, request, asked, &known)?;
    Ok(answer)
}

/// The result for the first rule that a file violates.
pub fn answer_of_fault(
    alloc: Global,
    request: Request,
    fault: &FirstFault,
) -> Result<Answer, AllocError>
    ensures status { IfOk result (λ answer. answer.status ≡ Fault) }
    ensures text { IfOk result (λ answer. answer.text.items ≡ first_fault_text (writes_json request) fault.now) }
{
    let mut text = Vec::new(alloc);
    put_first_fault(&mut text, alloc, request.json(), fault)?;
    let status = Status::Fault;
    Ok(Answer { status, text })
}

/// The fault of a file with more bytes than are read.
pub fn fault_of_size() -> FirstFault
    ensures { result ≡ File too_large }
{
    FirstFault::File(ElfFault {
        rule: ElfRule::TooLarge,
        section: 0,
    })
}

/// The text for a request over the bytes of a file and addresses, and how the request ends. A file of more than `limit`
/// bytes is too large.
pub fn report(
    alloc: Global,
    limit: usize,
    request: Request,
    asked: &[Option<u64>],
    bytes: &[u8],
) -> Result<Answer, AllocError>
    ensures { IfOk result (λ answer. Report limit bytes.now request asked.now answer.status answer.text.items) }
{
    if bytes.len() > limit {
        let answer = answer_of_fault(alloc, request, &fault_of_size())?;
        return Ok(answer);
    }
    match answer_of_file(alloc, request, asked, bytes) {
        Ok(answer) => Ok(answer),
        Err(Stop::Memory) => Err(AllocError),
        Err(Stop::Fault(fault)) => {
            let answer = answer_of_fault(alloc, request, &fault)?;
            Ok(answer)
        }
    }
}
