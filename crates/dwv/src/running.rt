//! One request over a source and a sink: read, make the whole text, write, and how that ends.

ghost use Rattle.std.specs.Prelude.{◌≡◌, ◌<◌, ◌⊎◌, ◌↔◌, false, Err, [], length, take, IfOk, IfSome, OnOk, IsErrOf};
ghost use Rattle.std.specs.Io.KnownBytes.{Appends};
ghost use Rattle.dw_io.specs.Devices.{HasGiven, TakesInput};
ghost use Rattle.dw_report.specs.Reports.{Report, file_limit};
ghost use Rattle.dw_report.specs.declared.request.Status.{Status as StatusData};
ghost use Rattle.dwv.specs.Reports.{WritesReport, WritesPrefix, exit_status, line_of};

use dw_image::NoMemory;
use dw_io::{RunFault, Sink, Source, read_all, write_all};
use dw_report::{Request, Status, longest_file, report};
use std::alloc::Global;

/// The line for standard error.
fn line_of_fault(fault: RunFault) -> &'static str
    ensures { result.now ≡ line_of (Err fault) }
{
    match fault {
        RunFault::ReadFailed => "dwv: reading failed",
        RunFault::WriteFailed => "dwv: writing failed",
        RunFault::Memory => "dwv: out of memory",
    }
}

/// What a run read and wrote.
#[derive(Drop)]
pub struct Transcript {
    /// The bytes that the calls of the reader returned, in order.
    pub given: Vec<u8>,
    /// Whether the last of them returned no byte.
    pub ended: bool,
    /// The report.
    pub text: Vec<u8>,
    /// How many of its bytes the calls of the writer took.
    pub taken: usize,
}

impl Transcript {
    /// Nothing is read or written.
    pub fn new(alloc: Global) -> Transcript
        ensures given { (result.given.items ≡ []) × (result.ended ≡ false) }
        ensures taken { (result.text.items ≡ []) × (result.taken ≡ 0) }
    {
        Transcript {
            given: Vec::new(alloc),
            ended: false,
            text: Vec::new(alloc),
            taken: 0,
        }
    }
}

/// Handles a request for the bytes of a reader, and keeps what is read and written. Nothing is written before all of
/// them are read.
pub fn run_with<R: Source, W: Sink>(
    alloc: Global,
    request: Request,
    reader: &mut R,
    writer: &mut W,
    kept: &mut Transcript,
) -> Result<Status, RunFault>
    requires { (R.failures reader.old < u64.MAX) × (W.failures writer.old < u64.MAX) }

    // What the writer took is the report of what the reader gave, to its end or one byte past the limit.
    ensures given { OnOk result (HasGiven file_limit (R.remaining reader.old) kept.new.ended kept.new.given.items) }
    ensures reported { IfOk result (λ status.
        Report file_limit request kept.new.given.items status kept.new.text.items) }
    ensures all { OnOk result (kept.new.taken ≡ length kept.new.text.items) }
    ensures written { OnOk result (Appends (W.contents writer.old) (W.contents writer.new) kept.new.text.items) }
    ensures taken { OnOk result (TakesInput file_limit (R.remaining reader.old) (R.remaining reader.new)) }

    // After a fault nothing is written, or a prefix of the report.
    ensures unwritten { IsErrOf result RunFault.ReadFailed ⊎ IsErrOf result RunFault.Memory → writer.new ≡ writer.old }
    ensures write_failed { IsErrOf result RunFault.WriteFailed
        → HasGiven file_limit (R.remaining reader.old) kept.new.ended kept.new.given.items
        × ((status : StatusData) × Report file_limit request kept.new.given.items status kept.new.text.items)
        × Appends (W.contents writer.old) (W.contents writer.new) (take kept.new.taken kept.new.text.items) }

    // A device's fault is returned if and only if its count of failures rose.
    ensures reads_counted { IsErrOf result RunFault.ReadFailed ↔ (R.failures reader.old < R.failures reader.new) }
    ensures writes_counted { IsErrOf result RunFault.WriteFailed ↔ (W.failures writer.old < W.failures writer.new) }
{
    let limit = longest_file();
    kept.ended = read_all(limit, reader, &mut kept.given)?;
    let answer = match report(alloc, limit, request, kept.given.as_slice()) {
        Ok(answer) => answer,
        Err(NoMemory) => return Err(RunFault::Memory),
    };
    kept.text = answer.text;
    write_all(kept.text.as_slice(), &mut kept.taken, writer)?;
    Ok(answer.status)
}

/// Handles a request for the bytes of a reader. Nothing is written before all of them are read.
pub fn run<R: Source, W: Sink>(
    alloc: Global,
    request: Request,
    reader: &mut R,
    writer: &mut W,
) -> Result<Status, RunFault>
    requires reads { R.failures reader.old < u64.MAX }
    requires writes { W.failures writer.old < u64.MAX }

    // What is written is the report of what the reader returns, to its end or one byte past the limit.
    ensures written { IfOk result (λ status. IfSome (R.remaining reader.old) (λ input.
        WritesReport file_limit request input status (W.contents writer.old) (W.contents writer.new))) }
    ensures taken { OnOk result (TakesInput file_limit (R.remaining reader.old) (R.remaining reader.new)) }

    // After a fault nothing is written, or a prefix of the report.
    ensures unwritten { IsErrOf result RunFault.ReadFailed ⊎ IsErrOf result RunFault.Memory → writer.new ≡ writer.old }
    ensures write_failed { IsErrOf result RunFault.WriteFailed → IfSome (R.remaining reader.old) (λ input.
        WritesPrefix file_limit request input (W.contents writer.old) (W.contents writer.new)) }

    // A device's fault is returned if and only if its count of failures rose.
    ensures reads_counted { IsErrOf result RunFault.ReadFailed ↔ (R.failures reader.old < R.failures reader.new) }
    ensures writes_counted { IsErrOf result RunFault.WriteFailed ↔ (W.failures writer.old < W.failures writer.new) }
{
    let mut kept = Transcript::new(alloc);
    run_with(alloc, request, reader, writer, &mut kept)
}

/// The exit status for a result, and the line for standard error, empty if there is none.
pub fn ending(outcome: &Result<Status, RunFault>) -> (u8, &'static str)
    ensures status { result.0 ≡ exit_status outcome.now }
    ensures line { result.1.now ≡ line_of outcome.now }
{
    match outcome {
        Ok(status) => (status.code(), ""),
        Err(RunFault::Memory) => (4, line_of_fault(RunFault::Memory)),
        Err(fault) => (3, line_of_fault(*fault)),
    }
}
