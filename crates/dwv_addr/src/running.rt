//! One request over a file, standard input and a sink: read, write the report or answer by lines, and how that ends.

ghost use Rattle.std.specs.Prelude.{◌≡◌, ◌≢◌, ◌<◌, ◌↔◌, ◌⊎◌, ℕ, [], Err, List, None, Option, Some, IfErr, IfOk, IfSome};
ghost use Rattle.std.specs.Prelude.{OnOk, IsErrOf, option_map};
ghost use Rattle.std.specs.Fn.{FnOnceReturnsAt};
ghost use Rattle.std.specs.String.{string_bytes};
ghost use Rattle.dw_io.specs.Devices.{TakesInput};
ghost use Rattle.dw_report.specs.Reports.{file_limit};
ghost use Rattle.dwv_addr.specs.Endings.{asked_from};
ghost use Rattle.dwv_addr.specs.Runs.{IfKnown, IsCut, IsOutcomeOf, IsStopped, WritesPrefix, WritesReport};
ghost use Rattle.dwv_addr.specs.declared.endings.Outcome.TheVariants.{Refused};
ghost use Rattle.dwv_addr.specs.declared.request.Request.TheVariants.{Find};

use crate::endings::Outcome;
use crate::reporting::report;
use crate::request::{Request, Status};
use crate::stream::answer_input;
use crate::words::{Given, WordsFault};
use dw_io::{Device, RunFault, Sink, Source, read_input, write_text};
use dw_report::longest_file;
use std::alloc::Global;
use std::io::Read;

/// Writes the report of the bytes of a file, for addresses.
fn write_report<W: Sink>(
    alloc: Global,
    request: Request,
    asked: &[Option<u64>],
    bytes: &[u8],
    writer: &mut W,
) -> Result<Status, RunFault>
    requires { W.failures writer.old < u64.MAX }
    ensures written { IfOk result (λ status.
        WritesReport request status (W.contents writer.old) (W.contents writer.new) bytes.now asked.now) }
    ensures write_failed { IsErrOf result RunFault.WriteFailed
        → WritesPrefix request (W.contents writer.old) (W.contents writer.new) bytes.now asked.now }
    ensures memory { IsErrOf result RunFault.Memory → writer.new ≡ writer.old }
    ensures only { result ≢ Err RunFault.ReadFailed }
    ensures counted { IsErrOf result RunFault.WriteFailed ↔ (W.failures writer.old < W.failures writer.new) }
{
    let limit = longest_file();
    let answer = report(alloc, limit, request, asked, bytes)?;
    let text = answer.text.as_slice();
    write_text(text, writer)?;
    Ok(answer.status)
}

/// Whether a request is for the lines of the input, and then whether objects in JSON are written.
fn json_of_lines(request: Request, given: &[Option<u64>]) -> Option<bool>
    ensures lines { IfSome result (λ json. (request ≡ Find json) × (given.now ≡ [])) }
    ensures given { result ≡ None → (input : Option (List ℕ)) → asked_from request given.now input ≡ Some given.now }
{
    match request {
        Request::Check { .. } => None,
        Request::Find { json } => {
            if given.is_empty() {
                return Some(json);
            }
            None
        }
    }
}

/// Handles a request for the bytes of a file, and for the addresses given or those of the input.
fn handle<I: Source, W: Sink>(
    alloc: Global,
    request: Request,
    given: &[Option<u64>],
    bytes: &[u8],
    input: &mut I,
    writer: &mut W,
) -> Result<Status, RunFault>
    requires inputs { I.failures input.old < u64.MAX }
    requires writes { W.failures writer.old < u64.MAX }
    ensures written { IfOk result (λ status. IfSome (asked_from request given.now (I.remaining input.old))
        (WritesReport request status (W.contents writer.old) (W.contents writer.new) bytes.now)) }
    ensures read_failed { IsErrOf result RunFault.ReadFailed → IsStopped W.contents request given.now (Some bytes.now)
        (I.remaining input.old) (I.remaining input.new) writer.old writer.new }
    ensures memory { IsErrOf result RunFault.Memory → (rest : Option (List ℕ)) × IsStopped W.contents request given.now
        (Some bytes.now) (I.remaining input.old) rest writer.old writer.new }
    ensures write_failed { IsErrOf result RunFault.WriteFailed → IsCut W.contents request given.now (Some bytes.now)
        (I.remaining input.old) writer.old writer.new }
    ensures reads_counted { IsErrOf result RunFault.ReadFailed ↔ (I.failures input.old < I.failures input.new) }
    ensures writes_counted { IsErrOf result RunFault.WriteFailed ↔ (W.failures writer.old < W.failures writer.new) }
{
    match json_of_lines(request, given) {
        Some(json) => answer_input(alloc, json, bytes, input, writer),
        None => write_report(alloc, request, given, bytes, writer),
    }
}

/// Handles a request for the bytes of a reader, and for the addresses given or the lines of the input. Nothing is
/// written before all of the reader is read. Each line of the input is answered as soon as it is complete.
pub fn run<R: Source, I: Source, W: Sink>(
    alloc: Global,
    request: Request,
    given: Vec<Option<u64>>,
    reader: &mut R,
    input: &mut I,
    writer: &mut W,
) -> Result<Status, RunFault>
    requires { (R.failures reader.old < u64.MAX) × (I.failures input.old < u64.MAX)
        × (W.failures writer.old < u64.MAX) }

    // What is written is the report of what the reader returns, to its end or one byte past the limit, for the
    // addresses.
    ensures written { IfOk result (λ status. IfKnown (R.remaining reader.old)
        (asked_from request given.items (I.remaining input.old))
        (WritesReport request status (W.contents writer.old) (W.contents writer.new))) }
    ensures taken { OnOk result (TakesInput file_limit (R.remaining reader.old) (R.remaining reader.new)) }

    // After a fault nothing is written, or the answers for the lines that were read, or a prefix of the report.
    ensures unread { R.failures reader.old < R.failures reader.new → writer.new ≡ writer.old }
    ensures read_failed { IsErrOf result RunFault.ReadFailed → IsStopped W.contents request given.items
        (R.remaining reader.old) (I.remaining input.old) (I.remaining input.new) writer.old writer.new }
    ensures memory { IsErrOf result RunFault.Memory → (rest : Option (List ℕ))
        × IsStopped W.contents request given.items (R.remaining reader.old) (I.remaining input.old) rest writer.old
        writer.new }
    ensures write_failed { IsErrOf result RunFault.WriteFailed → IsCut W.contents request given.items
        (R.remaining reader.old) (I.remaining input.old) writer.old writer.new }

    // A device's fault is returned if and only if its count of failures rose.
    ensures reads_counted { IsErrOf result RunFault.ReadFailed
        ↔ ((R.failures reader.old < R.failures reader.new) ⊎ (I.failures input.old < I.failures input.new)) }
    ensures writes_counted { IsErrOf result RunFault.WriteFailed ↔ (W.failures writer.old < W.failures writer.new) }
{
    let limit = longest_file();
    let file = read_input(alloc, limit, reader)?;
    let bytes = file.as_slice();
    let asked = given.as_slice();
    handle(alloc, request, asked, bytes, input, writer)
}

/// Handles a request for a file, which may not be open.
fn handled<R: Read + Drop, I: Source, W: Sink>(
    alloc: Global,
    request: Request,
    given: Vec<Option<u64>>,
    file: Option<R>,
    input: &mut I,
    writer: &mut W,
) -> Outcome
    requires inputs { I.failures input.old < u64.MAX }
    requires writes { W.failures writer.old < u64.MAX }
    ensures { IsOutcomeOf W.contents request given.items (option_map R.remaining file) (I.remaining input.old)
        (I.remaining input.new) writer.old writer.new result }
{
    let Some(file) = file else {
        return Outcome::Unopened;
    };
    let mut reader = Device::new(file);
    Outcome::Ran(run(alloc, request, given, &mut reader, input, writer))
}

/// Handles the words of the command line, with what opens a file by its name, and with standard input.
pub fn outcome_of<R: Read + Drop, F: FnOnce(&str) -> Option<R>, I: Source, W: Sink>(
    alloc: Global,
    words: Result<Given, WordsFault>,
    opened: F,
    input: &mut I,
    writer: &mut W,
) -> Outcome
    requires callable { F.IsAlwaysCallable opened }
    requires inputs { I.failures input.old < u64.MAX }
    requires writes { W.failures writer.old < u64.MAX }
    ensures refused { IfErr words (λ fault. (result ≡ Refused fault) × (writer.new ≡ writer.old)) }
    ensures answered { IfOk words (λ it. (file : Option R)
        × FnOnceReturnsAt F.FnOnce opened (string_bytes it.file) file
        × IsOutcomeOf W.contents it.request it.addresses.items (option_map R.remaining file) (I.remaining input.old)
        (I.remaining input.new) writer.old writer.new result) }
{
    let Given {
        request,
        file: name,
        addresses,
    } = match words {
        Ok(given) => given,
        Err(fault) => return Outcome::Refused(fault),
    };
    let file = opened(name.as_str());
    handled(alloc, request, addresses, file, input, writer)
}
