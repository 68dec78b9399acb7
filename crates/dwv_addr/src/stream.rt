//! Answers the lines of standard input, each as soon as it is complete.

ghost use Rattle.std.specs.Prelude.{◌≡◌, ◌≢◌, ◌<◌, ◌↔◌, ◌⊎◌, ◌++◌, ℕ, [], Err, List, Option, IfOk, IfSome, OnOk};
ghost use Rattle.std.specs.Prelude.{IsErrOf, take};
ghost use Rattle.std.specs.Io.KnownBytes.{Appends};
ghost use Rattle.std.specs.List.{list_all};
ghost use Rattle.std.specs.Option.{is_some};
ghost use Rattle.dw_forms.specs.declared.fault.Stop.TheVariants.{Fault as AtFault};
ghost use Rattle.dw_ranges.specs.Files.{IsIndex};
ghost use Rattle.dw_lookup.specs.declared.first_fault.FirstFault.{FirstFault as FaultOf};
ghost use Rattle.dwv_addr.specs.Addresses.{HasStarted, asked_by, asked_so_far, ended_lines};
ghost use Rattle.dwv_addr.specs.Faults.{first_fault_text};
ghost use Rattle.dwv_addr.specs.Reports.{asked_status};
ghost use Rattle.dwv_addr.specs.Requests.{writes_json};
ghost use Rattle.dwv_addr.specs.Runs.{HasAnswered, WritesFirst, WritesReport};
ghost use Rattle.dwv_addr.specs.Streams.{HasTaken, TakesAnswers, TakesFirst, TakesSome};
ghost use Rattle.dwv_addr.specs.declared.request.Request.TheVariants.{Find};
ghost use Rattle.dwv_addr.specs.declared.request.Status.TheVariants.{Fault};

use crate::addresses::addresses_in;
use crate::answers::put_answers;
use crate::reporting::{answer_of_fault, are_addresses, fault_of_size, status_of};
use crate::request::{Request, Status};
use dw_forms::Stop;
use dw_io::{RunFault, Sink, Source, write_text};
use dw_lookup::{FirstFault, Known, look_up, sources_of};
use dw_report::longest_file;
use memchr::memrchr;
use std::alloc::Global;

/// How many bytes one read requests at most.
const CHUNK: usize = 65_536;

/// Writes the answers for the lines of a text together, and returns whether each line is an address.
fn write_answers<W: Sink>(
    alloc: Global,
    json: bool,
    known: &Known<'_, '_>,
    lines: &[u8],
    writer: &mut W,
) -> Result<bool, RunFault>
    requires index { IsIndex known.now.functions }
    requires counts { W.failures writer.old < u64.MAX }
    ensures are { IfOk result (λ are. are ≡ list_all is_some (asked_by lines.now)) }
    ensures written { OnOk result
        (TakesAnswers json known.now (asked_by lines.now) (W.contents writer.old) (W.contents writer.new)) }
    ensures write_failed { IsErrOf result RunFault.WriteFailed
        → TakesSome json known.now (asked_by lines.now) (W.contents writer.old) (W.contents writer.new) }
    ensures memory { IsErrOf result RunFault.Memory → writer.new ≡ writer.old }
    ensures only { result ≢ Err RunFault.ReadFailed }
    ensures kept { OnOk result (W.failures writer.new ≡ W.failures writer.old) }
    ensures counted { IsErrOf result RunFault.WriteFailed ↔ (W.failures writer.old < W.failures writer.new) }
{
    let found = addresses_in(alloc, lines)?;
    let asked = found.as_slice();
    let mut answers = Vec::new(alloc);
    put_answers(&mut answers, alloc, json, known, asked)?;
    let text = answers.as_slice();
    write_text(text, writer)?;
    Ok(are_addresses(asked))
}

/// Takes a piece of the input after the start of a line: writes the answers for the lines that end in it, leaves the
/// start of the next one, and returns whether each of those lines is an address.
fn take_piece<W: Sink>(
    alloc: Global,
    json: bool,
    known: &Known<'_, '_>,
    started: &mut Vec<u8>,
    piece: &[u8],
    writer: &mut W,
) -> Result<bool, RunFault>
    requires index { IsIndex known.now.functions }
    requires started { ended_lines started.old.items ≡ [] }
    requires counts { W.failures writer.old < u64.MAX }
    ensures are { IfOk result (λ are. are ≡ list_all is_some (asked_so_far (started.old.items ++ piece.now))) }
    ensures left { OnOk result (HasStarted (started.old.items ++ piece.now) started.new.items) }
    ensures written { OnOk result (TakesAnswers json known.now (asked_so_far (started.old.items ++ piece.now))
        (W.contents writer.old) (W.contents writer.new)
        × (ended_lines (started.old.items ++ piece.now) ≡ [] → writer.new ≡ writer.old)
        × (W.failures writer.new ≡ W.failures writer.old)) }
    ensures write_failed { IsErrOf result RunFault.WriteFailed
        → TakesSome json known.now (asked_so_far (started.old.items ++ piece.now))
        (W.contents writer.old) (W.contents writer.new) }
    ensures memory { IsErrOf result RunFault.Memory → writer.new ≡ writer.old }
    ensures only { result ≢ Err RunFault.ReadFailed }
    ensures counted { IsErrOf result RunFault.WriteFailed ↔ (W.failures writer.old < W.failures writer.new) }
{
    let Some(at) = memrchr(b'\n', piece) else {
        started.extend_from_slice(piece)?;
        return Ok(true);
    };
    let mut next = Vec::new(alloc);
    next.extend_from_slice(&piece[at + 1..])?;
    started.extend_from_slice(&piece[..at + 1])?;
    let lines = started.as_slice();
    let are = write_answers(alloc, json, known, lines, writer)?;
    *started = next;
    Ok(are)
}

/// Answers the lines of the input about a sound file: those that end in what one read returns together, before the
/// next read.
fn answer_lines<I: Source, W: Sink>(
    alloc: Global,
    json: bool,
    known: &Known<'_, '_>,
    input: &mut I,
    writer: &mut W,
) -> Result<Status, RunFault>
    requires index { IsIndex known.now.functions }
    requires inputs { I.failures input.old < u64.MAX }
    requires writes { W.failures writer.old < u64.MAX }
    ensures written { IfOk result (λ status. IfSome (I.remaining input.old) (λ text.
        (status ≡ asked_status (asked_by text))
        × TakesAnswers json known.now (asked_by text) (W.contents writer.old) (W.contents writer.new))) }
    ensures read_failed { IsErrOf result RunFault.ReadFailed
        → HasTaken json known.now W.contents (I.remaining input.old) (I.remaining input.new) writer.old writer.new }
    ensures memory { IsErrOf result RunFault.Memory → (rest : Option (List ℕ))
        × HasTaken json known.now W.contents (I.remaining input.old) rest writer.old writer.new }
    ensures write_failed { IsErrOf result RunFault.WriteFailed → IfSome (I.remaining input.old)
        (TakesFirst json known.now (W.contents writer.old) (W.contents writer.new)) }
    ensures reads_counted { IsErrOf result RunFault.ReadFailed ↔ (I.failures input.old < I.failures input.new) }
    ensures writes_counted { IsErrOf result RunFault.WriteFailed ↔ (W.failures writer.old < W.failures writer.new) }
{
    let mut chunk = [0u8; CHUNK];
    let mut started = Vec::new(alloc);
    let mut are = true;
    'reads: for _ in 0..u64::MAX {
        match input.read(&mut chunk) {
            Ok(0) => {
                let lines = started.as_slice();
                are &= write_answers(alloc, json, known, lines, writer)?;
                return Ok(status_of(are));
            }
            Ok(n) => {
                are &= take_piece(alloc, json, known, &mut started, &chunk[..n], writer)?;
            }
            Err(_) => return Err(RunFault::ReadFailed),
        }
    }
    Err(RunFault::Memory)
}

/// Writes the first rule that a file violates, unless memory ran out.
fn write_stop<W: Sink>(
    alloc: Global,
    request: Request,
    stop: Stop<FirstFault>,
    writer: &mut W,
) -> Result<Status, RunFault>
    requires { W.failures writer.old < u64.MAX }
    ensures written { IfOk result (λ status. (status ≡ Fault) × ((fault : FaultOf) × (stop ≡ AtFault fault)
        × Appends (W.contents writer.old) (W.contents writer.new) (first_fault_text (writes_json request) fault))) }
    ensures write_failed { IsErrOf result RunFault.WriteFailed → (fault : FaultOf) × (stop ≡ AtFault fault)
        × ((n : ℕ) × Appends (W.contents writer.old) (W.contents writer.new)
        (take n (first_fault_text (writes_json request) fault))) }
    ensures memory { IsErrOf result RunFault.Memory → writer.new ≡ writer.old }
    ensures only { result ≢ Err RunFault.ReadFailed }
    ensures counted { IsErrOf result RunFault.WriteFailed ↔ (W.failures writer.old < W.failures writer.new) }
{
    let fault = match stop {
        Stop::Fault(fault) => fault,
        Stop::Memory => return Err(RunFault::Memory),
    };
    let answer = answer_of_fault(alloc, request, &fault)?;
    let text = answer.text.as_slice();
    write_text(text, writer)?;
    Ok(answer.status)
}

/// Answers the lines of the input about the bytes of a file, or writes the first rule that the file violates and reads
/// no input.
pub fn answer_input<I: Source, W: Sink>(
    alloc: Global,
    json: bool,
    bytes: &[u8],
    input: &mut I,
    writer: &mut W,
) -> Result<Status, RunFault>
    requires inputs { I.failures input.old < u64.MAX }
    requires writes { W.failures writer.old < u64.MAX }
    ensures written { IfOk result (λ status. IfSome (I.remaining input.old) (λ text.
        WritesReport (Find json) status (W.contents writer.old) (W.contents writer.new) bytes.now (asked_by text))) }
    ensures read_failed { IsErrOf result RunFault.ReadFailed → HasAnswered W.contents (Find json) bytes.now
        (I.remaining input.old) (I.remaining input.new) writer.old writer.new }
    ensures memory { IsErrOf result RunFault.Memory → (writer.new ≡ writer.old) ⊎ ((rest : Option (List ℕ))
        × HasAnswered W.contents (Find json) bytes.now (I.remaining input.old) rest writer.old writer.new) }
    ensures write_failed { IsErrOf result RunFault.WriteFailed → IfSome (I.remaining input.old) (λ text.
        WritesFirst (Find json) (W.contents writer.old) (W.contents writer.new) bytes.now (asked_by text)) }
    ensures reads_counted { IsErrOf result RunFault.ReadFailed ↔ (I.failures input.old < I.failures input.new) }
    ensures writes_counted { IsErrOf result RunFault.WriteFailed ↔ (W.failures writer.old < W.failures writer.new) }
{
    let request = Request::Find { json };
    if bytes.len() > longest_file() {
        return write_stop(alloc, request, Stop::Fault(fault_of_size()), writer);
    }
    let sources = match sources_of(alloc, bytes) {
        Ok(sources) => sources,
        Err(stop) => return write_stop(alloc, request, stop, writer),
    };
    let known = match look_up(alloc, &sources) {
        Ok(known) => known,
        Err(stop) => return write_stop(alloc, request, stop, writer),
    };
    answer_lines(alloc, json, &known, input, writer)
}
