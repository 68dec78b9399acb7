//! All bytes of a source up to a limit, a whole text into a sink, and why a request has no result.

ghost use Rattle.std.specs.Prelude.{◌≡◌, ◌≢◌, ℕ, ◌+◌, ◌-◌, ◌<◌, ◌≤◌, ◌^◌, ◌↔◌, ◌++◌, Err, length, take, drop};
ghost use Rattle.std.specs.Prelude.{IfOk, IfSome, OnOk, OnErr, IsErrOf};
ghost use Rattle.std.specs.Io.KnownBytes.{Appends, Consumes, IsAtEnd};
ghost use Rattle.dw_io.specs.declared.transfer.RunFault.TheVariants.{Memory};
ghost use Rattle.dw_io.specs.Devices.{HasGiven, TakesInput};

use crate::device::{Sink, Source};
use std::alloc::{AllocError, AllocFailed, Global};
use thiserror::Error;

/// Why a request has no result.
#[derive(Clone, Copy, Debug, PartialEq, Eq, Error)]
pub enum RunFault {
    /// A read returned an error.
    #[error("reading failed")]
    ReadFailed,
    /// A write returned an error, or took no byte; a prefix of the text was written.
    #[error("writing failed")]
    WriteFailed,
    /// An allocation failed.
    #[error("out of memory")]
    Memory,
}

impl From<AllocError> for RunFault {
    ghost from_gives = { λ _ fault. fault ≡ Memory };

    fn from(_error: AllocError) -> RunFault {
        RunFault::Memory
    }
}

/// How many bytes one read requests at most.
const CHUNK: usize = 65_536;

/// Reads once, into the chunk, and keeps the bytes that the read returned after those that were given before.
fn read_once<R: Source>(
    reader: &mut R,
    chunk: &mut [u8],
    given: &mut Vec<u8>,
) -> Result<usize, RunFault>
    requires room { 0 < length chunk.old }
    requires counts { R.failures reader.old < u64.MAX }
    ensures bound { IfOk result (λ n. n ≤ length chunk.new) }
    ensures given { IfOk result (λ n. given.new.items ≡ given.old.items ++ take n chunk.new) }
    ensures kept { OnErr result (given.new.items ≡ given.old.items) }
    ensures bytes { IfOk result (λ n. Consumes (R.remaining reader.old) (R.remaining reader.new) (take n chunk.new)
        × (n ≡ 0 → IsAtEnd (R.remaining reader.new))) }
    ensures counted { OnOk result (R.failures reader.new ≡ R.failures reader.old) }
    ensures failed { IsErrOf result RunFault.ReadFailed ↔ (R.failures reader.old < R.failures reader.new) }
    ensures only { result ≢ Err RunFault.WriteFailed }
{
    match reader.read(chunk) {
        Ok(n) => {
            given.extend_from_slice(&chunk[..n])?;
            Ok(n)
        }
        Err(_) => Err(RunFault::ReadFailed),
    }
}

/// Reads up to the end of input, or one byte past the limit. What was given before is dropped. Returns whether the last
/// read returned no byte.
pub fn read_all<R: Source>(
    limit: usize,
    reader: &mut R,
    given: &mut Vec<u8>,
) -> Result<bool, RunFault>
    requires limit { limit < 2 ^ 63 }
    requires counts { R.failures reader.old < u64.MAX }
    ensures given { IfOk result (λ ended. HasGiven limit (R.remaining reader.old) ended given.new.items) }
    ensures taken { OnOk result (TakesInput limit (R.remaining reader.old) (R.remaining reader.new)) }
    ensures failed { IsErrOf result RunFault.ReadFailed ↔ (R.failures reader.old < R.failures reader.new) }
    ensures only { result ≢ Err RunFault.WriteFailed }
{
    let mut chunk = [0u8; CHUNK];
    given.clear();
    'chunks: while given.len() <= limit {
        let room = CHUNK.min(limit + 1 - given.len());
        if read_once(reader, &mut chunk[..room], given)? == 0 {
            return Ok(true);
        }
    }
    Ok(false)
}

/// The bytes up to the end of input, or one byte past the limit.
pub fn read_input<R: Source>(
    alloc: Global,
    limit: usize,
    reader: &mut R,
) -> Result<Vec<u8>, RunFault>
    requires limit { limit < 2 ^ 63 }
    requires counts { R.failures reader.old < u64.MAX }
    ensures read { IfOk result (λ bytes. IfSome (R.remaining reader.old)
        (λ input. bytes.items ≡ take (limit + 1) input)) }
    ensures taken { OnOk result (TakesInput limit (R.remaining reader.old) (R.remaining reader.new)) }
    ensures failed { IsErrOf result RunFault.ReadFailed ↔ (R.failures reader.old < R.failures reader.new) }
    ensures only { result ≢ Err RunFault.WriteFailed }
{
    let mut given = Vec::new(alloc);
    read_all(limit, reader, &mut given)?;
    Ok(given)
}

/// Writes once: hands the writer the bytes of the text that no write has taken, and adds those that it takes.
fn write_once<W: Sink>(text: &[u8], taken: &mut usize, writer: &mut W) -> Result<(), RunFault>
    requires rest { taken.old < length text.now }
    requires counts { W.failures writer.old < u64.MAX }
    ensures bound { taken.new ≤ length text.now }
    ensures more { OnOk result (taken.old < taken.new) }
    ensures none { OnErr result (taken.new ≡ taken.old) }
    ensures bytes { Appends (W.contents writer.old) (W.contents writer.new)
        (take (taken.new - taken.old) (drop taken.old text.now)) }
    ensures kept { OnOk result (W.failures writer.new ≡ W.failures writer.old) }
    ensures failed { OnErr result (W.failures writer.old < W.failures writer.new) }
    ensures only { OnErr result (IsErrOf result RunFault.WriteFailed) }
{
    match writer.write(&text[*taken..]) {
        Ok(n) if n > 0 => {
            *taken += n;
            Ok(())
        }
        _ => Err(RunFault::WriteFailed),
    }
}

/// Writes the whole text, and counts how many of its bytes the writes took.
pub fn write_all<W: Sink>(text: &[u8], taken: &mut usize, writer: &mut W) -> Result<(), RunFault>
    requires { W.failures writer.old < u64.MAX }
    ensures bound { taken.new ≤ length text.now }
    ensures all { OnOk result (taken.new ≡ length text.now) }
    ensures bytes { Appends (W.contents writer.old) (W.contents writer.new) (take taken.new text.now) }
    ensures kept { OnOk result (W.failures writer.new ≡ W.failures writer.old) }
    ensures failed { IsErrOf result RunFault.WriteFailed ↔ (W.failures writer.old < W.failures writer.new) }
    ensures only { OnErr result (IsErrOf result RunFault.WriteFailed) }
{
    *taken = 0;
    'writes: while *taken < text.len() {
        write_once(text, taken, writer)?;
    }
    Ok(())
}

/// Writes the whole text.
pub fn write_text<W: Sink>(text: &[u8], writer: &mut W) -> Result<(), RunFault>
    requires { W.failures writer.old < u64.MAX }
    ensures ok { OnOk result (Appends (W.contents writer.old) (W.contents writer.new) text.now) }
    ensures err { OnErr result ((n : ℕ) × Appends (W.contents writer.old) (W.contents writer.new) (take n text.now)) }
    ensures kept { OnOk result (W.failures writer.new ≡ W.failures writer.old) }
    ensures failed { IsErrOf result RunFault.WriteFailed ↔ (W.failures writer.old < W.failures writer.new) }
    ensures only { OnErr result (IsErrOf result RunFault.WriteFailed) }
{
    let mut taken = 0;
    write_all(text, &mut taken, writer)
}
