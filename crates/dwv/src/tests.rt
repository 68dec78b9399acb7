//! Words and endings, devices that are slow or fail, and the limit of a file. `tests/rows` has what is printed,
//! `tests/endings.py` the command line and the exit statuses of the program.

use crate::running::{ending, run};
use crate::words::{WordsFault, words};
use dw_io::{Device, RunFault};
use dw_report::{Request, Status, report};
use std::alloc::Global;
use std::io;
use std::io::{Read, Write};
use std::process::Abort;
use std::test::Fail;

/// A reader that returns a byte at each call, and fails at the call with a number.
#[derive(Drop)]
struct SlowReader<'a> {
    rest: &'a [u8],
    calls: u64,
    fails_at: u64,
}

impl Read for SlowReader<'_> {
    fn read(&mut self, buf: &mut [u8]) -> io::Result<usize> {
        self.calls = self.calls.wrapping_add(1);
        if self.calls == self.fails_at {
            return Err(io::Error::from(io::ErrorKind::Interrupted));
        }
        match (buf.first_mut(), self.rest.split_first()) {
            (Some(place), Some((byte, rest))) => {
                *place = *byte;
                self.rest = rest;
                Ok(1)
            }
            _ => Ok(0),
        }
    }
}

/// A writer that takes a byte at each call, and at the call with a number fails or takes none.
#[derive(Drop)]
struct SlowWriter {
    taken: Vec<u8>,
    calls: u64,
    fails_at: u64,
    takes_none: bool,
}

impl Write for SlowWriter {
    fn write(&mut self, buf: &[u8]) -> io::Result<usize> {
        self.calls = self.calls.wrapping_add(1);
        if self.calls == self.fails_at {
            if self.takes_none {
                return Ok(0);
            }
            return Err(io::Error::from(io::ErrorKind::BrokenPipe));
        }
        match buf.first() {
            Some(byte) => {
                self.taken.push(*byte)?;
                Ok(1)
            }
            None => Ok(0),
        }
    }

    fn flush(&mut self) -> io::Result<()> {
        Ok(())
    }
}

const CHECK: Request = Request::Check { json: false };

/// Requests, and what is written of the sample.
const REQUESTS: [(Request, &[u8]); 5] = [
    (CHECK, b"sound: 1 units, 2 entries, 1 types\n"),
    (
        Request::Check { json: true },
        b"{\"entries\":2,\"sound\":true,\"types\":1,\"units\":1}\n",
    ),
    (
        Request::Show,
        b"0x0000000c 0x0011 \"a\"\n0x0000000f   0x0013 \"cat\" size 4\n",
    ),
    (Request::Types, b"struct cat { };\n"),
    (Request::Size(0x0f), b"size 4\n"),
];

/// The parts of a file that are not zero, and where they start.
const PARTS: [(usize, &[u8]); 17] = [
    // the file header
    (0, b"\x7fELF\x02\x01\x01"),
    (0x10, &[2]),
    (0x28, &[0x90]),
    (0x3a, &[64]),
    (0x3c, &[4]),
    (0x3e, &[3]),
    // .debug_abbrev: a compile unit with a name, a structure with a name, a size and an encoding
    (0x40, &[0x01, 0x11, 1, 0x03, 0x08]),
    (0x47, &[0x02, 0x13, 0, 0x03, 0x08, 0x0b, 0x0b, 0x3e, 0x0b]),
    // .debug_info: a unit with the structure `cat`
    (0x53, &[0x13, 0, 0, 0, 5, 0, 1, 8]),
    (0x5f, b"\x01a\x00\x02cat\x00\x04\x05"),
    // the name table
    (0x6b, b".debug_abbrev\x00.debug_info\x00.shstrtab"),
    // the section headers: name and type, offset, size
    (0xd0, &[0x01, 0, 0, 0, 1]),
    (0xe8, &[0x40, 0, 0, 0, 0, 0, 0, 0, 19]),
    (0x110, &[0x0f, 0, 0, 0, 1]),
    (0x128, &[0x53, 0, 0, 0, 0, 0, 0, 0, 23]),
    (0x150, &[0x1b, 0, 0, 0, 3]),
    (0x168, &[0x6a, 0, 0, 0, 0, 0, 0, 0, 37]),
];

/// A sound file of 400 bytes.
fn sample() -> [u8; 400] {
    let mut file = [0; 400];
    for (start, bytes) in &PARTS {
        for (byte, place) in bytes.iter().zip(file.iter_mut().skip(*start)) {
            *place = *byte;
        }
    }
    file
}

#[test]
fn longer_than_the_limit(rt: HostRuntime) -> Result<(), Fail> {
    let file = sample();
    for (limit, line) in [
        (399, "fault E1 TooLarge at section 0\n"),
        (400, "sound: 1 units, 2 entries, 1 types\n"),
    ] {
        let answer = report(rt.alloc(), limit, CHECK, &file)?;
        assert_eq!(rt; answer.text.as_slice(), line.as_bytes());
    }
    Ok(())
}

/// Asserts what `run` returns if a reader of a byte a call fails at each call in turn: 400 bytes, and the end.
fn assert_reads(
    rt: &impl Abort,
    alloc: Global,
    file: &[u8],
    request: Request,
    text: &[u8],
) -> Result<(), Fail> {
    for fails_at in 1..403 {
        let mut reader = Device::new(SlowReader {
            rest: file,
            calls: 0,
            fails_at,
        });
        let mut writer = Device::new(Vec::new(alloc));
        let answer = run(alloc, request, &mut reader, &mut writer);
        if fails_at < 402 {
            assert_eq!(rt; answer, Err(RunFault::ReadFailed));
            assert!(rt; writer.inner.is_empty());
        } else {
            assert_eq!(rt; answer, Ok(Status::Sound));
            assert_eq!(rt; writer.inner.as_slice(), text);
        }
    }
    Ok(())
}

#[test]
fn failing_reads(rt: HostRuntime) -> Result<(), Fail> {
    let file = sample();
    for (request, text) in &REQUESTS {
        assert_reads(&rt, rt.alloc(), &file, *request, text)?;
    }
    Ok(())
}

/// Asserts what `run` returns if a writer of a byte a call fails, or takes none, at one call: call k leaves k - 1 bytes
/// of the text.
fn assert_write(
    rt: &impl Abort,
    alloc: Global,
    file: &[u8],
    request: Request,
    text: &[u8],
    writer: SlowWriter,
) -> Result<(), Fail> {
    let fails_at = writer.fails_at;
    let mut reader = Device::new(file);
    let mut writer = Device::new(writer);
    let answer = run(alloc, request, &mut reader, &mut writer);
    let taken = writer.inner.taken.as_slice();
    if fails_at <= text.len() as u64 {
        assert_eq!(rt; answer, Err(RunFault::WriteFailed));
        assert_eq!(rt; taken.len() as u64 + 1, fails_at);
        assert!(rt; text.starts_with(taken));
    } else {
        assert_eq!(rt; answer, Ok(Status::Sound));
        assert_eq!(rt; taken, text);
    }
    Ok(())
}

/// The same at each call in turn.
fn assert_writes(
    rt: &impl Abort,
    alloc: Global,
    file: &[u8],
    request: Request,
    text: &[u8],
) -> Result<(), Fail> {
    for fails_at in 1..=text.len() as u64 + 1 {
        for takes_none in [false, true] {
            let writer = SlowWriter {
                taken: Vec::new(alloc),
                calls: 0,
                fails_at,
                takes_none,
            };
            assert_write(rt, alloc, file, request, text, writer)?;
        }
    }
    Ok(())
}

#[test]
fn failing_writes(rt: HostRuntime) -> Result<(), Fail> {
    let file = sample();
    for (request, text) in &REQUESTS {
        assert_writes(&rt, rt.alloc(), &file, *request, text)?;
    }
    Ok(())
}

/// The words after the program's name, and the request and the file's name that they give.
type Words = (
    &'static [&'static str],
    Result<(Request, &'static str), WordsFault>,
);

const WORDS: [Words; 22] = [
    (&["check", "f"], Ok((Request::Check { json: false }, "f"))),
    (
        &["check", "--json", "f"],
        Ok((Request::Check { json: true }, "f")),
    ),
    (
        &["check", "f", "--json"],
        Ok((Request::Check { json: true }, "f")),
    ),
    (&["show", "f"], Ok((Request::Show, "f"))),
    (&["types", "f"], Ok((Request::Types, "f"))),
    (&["size", "f", "0x1F"], Ok((Request::Size(0x1f), "f"))),
    (
        &["size", "f", "0xffffffff"],
        Ok((Request::Size(u32::MAX), "f")),
    ),
    (&["size", "f", "0x"], Err(WordsFault::BadOffset)),
    (&["size", "f", "1f"], Err(WordsFault::BadOffset)),
    (&["size", "f", "0x+1"], Err(WordsFault::BadOffset)),
    (&["size", "f", "0x123456789"], Err(WordsFault::BadOffset)),
    (&["size", "f", "0x", "g"], Err(WordsFault::BadUsage)),
    (&["size", "f"], Err(WordsFault::BadUsage)),
    (&["check"], Err(WordsFault::BadUsage)),
    (&["check", "f", "g"], Err(WordsFault::BadUsage)),
    (
        &["check", "--json", "--json", "f"],
        Err(WordsFault::BadUsage),
    ),
    (&["check", "--json=1", "f"], Err(WordsFault::BadUsage)),
    (&["show", "--json", "f"], Err(WordsFault::BadUsage)),
    (&["names", "f"], Err(WordsFault::BadUsage)),
    (&["help"], Err(WordsFault::BadUsage)),
    (&["check", "--help"], Err(WordsFault::BadUsage)),
    (&[], Err(WordsFault::BadUsage)),
];

#[test]
fn words_after_the_name(rt: HostRuntime) -> Result<(), Fail> {
    for (texts, want) in &WORDS {
        let mut given = Vec::new(rt.alloc());
        for text in *texts {
            given.push(String::from_str(rt.alloc(), text)?)?;
        }
        let found = words(rt.alloc(), given.as_slice());
        let found = match &found {
            Ok((request, file)) => Ok((*request, file.as_str())),
            Err(fault) => Err(*fault),
        };
        assert_eq!(rt; found, *want, "{texts:?}");
    }
    Ok(())
}

/// How requests end, with the exit status and the line for standard error.
const ENDINGS: [(Result<Status, RunFault>, (u8, &str)); 6] = [
    (Ok(Status::Sound), (0, "")),
    (Ok(Status::Fault), (1, "")),
    (Ok(Status::NotAType), (2, "")),
    (Err(RunFault::ReadFailed), (3, "dwv: reading failed")),
    (Err(RunFault::WriteFailed), (3, "dwv: writing failed")),
    (Err(RunFault::Memory), (4, "dwv: out of memory")),
];

#[test]
fn endings(rt: HostRuntime) {
    for (outcome, want) in &ENDINGS {
        assert_eq!(rt; ending(outcome), *want);
    }
}
