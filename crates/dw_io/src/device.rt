//! Sources and sinks of bytes that count the calls which failed.

ghost use Rattle.std.specs.Prelude.{◌≡◌, ℕ, ◌<◌, List, Option};
ghost use Rattle.std.specs.Io.{ReadsAtMost, WritesAtMost};
ghost use Rattle.std.specs.Io.KnownBytes.{ReadConsumes, WriteAppends};
ghost use Rattle.dw_io.specs.Devices.{after_read, after_write};

use std::io;
use std::io::{Read, Write};

/// What is read from: a reader that counts the calls that failed.
pub trait Source {
    /// The bytes that later reads return, if they are known.
    ghost remaining: { Self → Option (List ℕ) };

    /// How many calls have returned an error.
    ghost failures: { Self → ℕ };

    /// Reads some bytes into the front of the buffer, and returns how many.
    fn read(&mut self, buf: &mut [u8]) -> io::Result<usize>
        requires { failures self.old < u64.MAX }
        ensures bound { ReadsAtMost result buf.new }
        ensures bytes { ReadConsumes (remaining self.old) (remaining self.new) result buf.new }
        ensures counted { failures self.new ≡ after_read (failures self.old) result };

    /// The count of failures.
    fn failures(&self) -> u64
        ensures { result ≡ failures self.now };
}

/// What is written to: a writer that counts the calls that failed.
pub trait Sink {
    /// The bytes that the writer holds, if they are known.
    ghost contents: { Self → Option (List ℕ) };

    /// How many calls have returned an error, or took no byte of a text that has some.
    ghost failures: { Self → ℕ };

    /// Writes some bytes from the front of the buffer, and returns how many.
    fn write(&mut self, buf: &[u8]) -> io::Result<usize>
        requires { failures self.old < u64.MAX }
        ensures bound { WritesAtMost result buf.now }
        ensures bytes { WriteAppends (contents self.old) (contents self.new) result buf.now }
        ensures counted { failures self.new ≡ after_write (failures self.old) result buf.now };

    /// The count of failures.
    fn failures(&self) -> u64
        ensures { result ≡ failures self.now };
}

/// A reader or a writer with its count of failures.
#[derive(Drop)]
pub struct Device<T> {
    pub inner: T,
    pub failures: u64,
}

impl<T> Device<T> {
    /// A device of which no call has failed.
    pub fn new(inner: T) -> Device<T>
        ensures { result ≡ record { inner = inner; failures = 0 } }
    {
        Device { inner, failures: 0 }
    }
}

impl<T: Read> Source for Device<T> {
    ghost remaining = { λ d. T.remaining d.inner };

    ghost failures = { λ d. d.failures };

    fn read(&mut self, buf: &mut [u8]) -> io::Result<usize> {
        let result = self.inner.read(buf);
        if result.is_err() {
            self.failures += 1;
        }
        result
    }

    fn failures(&self) -> u64 {
        self.failures
    }
}

impl<T: Write> Sink for Device<T> {
    ghost contents = { λ d. T.contents d.inner };

    ghost failures = { λ d. d.failures };

    fn write(&mut self, buf: &[u8]) -> io::Result<usize> {
        let result = self.inner.write(buf);
        let has_failed = match &result {
            Ok(n) => *n == 0 && !buf.is_empty(),
            Err(_) => true,
        };
        if has_failed {
            self.failures += 1;
        }
        result
    }

    fn failures(&self) -> u64 {
        self.failures
    }
}
