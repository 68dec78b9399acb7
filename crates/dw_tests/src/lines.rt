//! Headers of line programs as `read_program` returns them, and a smallest one that violates each rule.

use dw_entries::Stop;
use dw_lines::{LineSections, Program, read_program};
use std::alloc::{AllocError, Global};
use std::test::Fail;

/// The fields after the version in version 5.
const SIZES: [u8; 2] = [8, 0];

/// The fields that say what opcodes mean, with no standard opcode.
const NUMBERS: [u8; 6] = [1, 1, 1, 0xfb, 14, 1];

/// The directory d and its file f.
const TABLES_5: [u8; 15] = [
    1, 1, 0x08, 1, b'd', 0, // directories: path
    2, 1, 0x08, 2, 0x0b, 1, b'f', 0, 0, // files: path, directory
];

const TABLES_4: [u8; 9] = [b'd', 0, 0, b'f', 0, 1, 0, 0, 0];

/// A program with an opcode of one byte.
fn program(
    alloc: Global,
    version: u8,
    sizes: &[u8],
    numbers: &[u8],
    tables: &[u8],
) -> Result<Vec<u8>, AllocError> {
    let mut header = Vec::new(alloc);
    header.extend_from_slice(numbers)?;
    header.extend_from_slice(tables)?;
    let mut content = Vec::new(alloc);
    content.extend_from_slice(&[version, 0])?;
    content.extend_from_slice(sizes)?;
    content.extend_from_slice(&(header.len() as u64).to_le_bytes()[..4])?;
    content.extend_from_slice(&header)?;
    content.push(1)?;
    let mut line = Vec::new(alloc);
    line.extend_from_slice(&(content.len() as u64).to_le_bytes()[..4])?;
    line.extend_from_slice(&content)?;
    Ok(line)
}

/// The program at an offset, where strings are `s` and, without a zero byte after them, `r` and `t`.
fn read<'a>(alloc: Global, line: &'a [u8], offset: usize) -> Result<Program<'a>, &'static str> {
    let sections = LineSections::new(line, b"s\0r", b"t");
    match read_program(alloc, &sections, offset, 8) {
        Ok(program) => Ok(program),
        Err(Stop::Memory) => Err("out of memory"),
        Err(Stop::Fault(fault)) if fault.at == offset => Err(fault.rule.code()),
        Err(Stop::Fault(_)) => Err("another place"),
    }
}

// A directory, a file and the opcodes, in both kinds of tables.
#[test]
fn headers(rt: HostRuntime) -> Result<(), Fail> {
    let alloc = rt.alloc();
    let five = program(alloc, 5, &SIZES, &NUMBERS, &TABLES_5)?;
    let four = program(alloc, 4, &[], &NUMBERS, &TABLES_4)?;
    let rows: [(&[u8], usize, usize, usize, usize); 2] = [
        (&five, 0, 1, 0, 33),
        (&four, 1, 2, 1, 25),
    ];
    for (line, file, last, directory, opcodes_at) in rows {
        let Ok(program) = read(alloc, line, 0) else {
            return Err("a fault".into());
        };
        let header = &program.header;
        assert_eq!(rt; usize::from(header.files.first), file);
        assert!(rt; header.files.has(file as u64) && !header.files.has(last as u64));
        let Some(entry) = header.files.entries.get(file) else {
            return Err("no file".into());
        };
        assert_eq!(rt; entry.path.bytes(), b"f".as_slice());
        assert_eq!(rt; entry.directory, directory);
        assert!(rt; entry.md5.is_none());
        let Some(folder) = header.directories.get(directory) else {
            return Err("no directory".into());
        };
        assert_eq!(rt; folder.path.bytes(), b"d".as_slice());
        assert_eq!(rt; program.header.parameters.line_base, -5);
        assert_eq!(rt; program.opcodes_at, opcodes_at);
        assert_eq!(rt; program.opcodes, [1].as_slice());
    }
    Ok(())
}

// A path in .debug_line_str, an MD5 sum, contents that are passed over, and a table without a format.
#[test]
fn contents(rt: HostRuntime) -> Result<(), Fail> {
    let alloc = rt.alloc();
    let tables = [
        1, 1, 0x08, 1, 0, // directories: an empty path
        5, 3, 0x09, 0x80, 0x40, 0x1e, 1, 0x1f, 4, 0x0b, 5, 0x1e, 1, // files: time, 0x2000, path, size, sum
        1, 7, 0, 1, 2, 3, 4, 5, 6, 7, 8, 9, 10, 11, 12, 13, 14, 15, 0, 0, 0, 0, 9, // all but the sum
        16, 17, 18, 19, 20, 21, 22, 23, 24, 25, 26, 27, 28, 29, 30, 31,
    ];
    let line = program(alloc, 5, &SIZES, &NUMBERS, &tables)?;
    match read(alloc, &line, 0) {
        Ok(program) => match program.header.files.entries.first() {
            Some(entry) => {
                assert_eq!(rt; entry.path.bytes(), b"s".as_slice());
                assert_eq!(rt; entry.md5, Some(&tables[tables.len() - 16..]));
            }
            None => return Err("no file".into()),
        },
        Err(code) => return Err(code.into()),
    }
    let line = program(alloc, 5, &SIZES, &NUMBERS, &[0, 0, 0, 0])?;
    match read(alloc, &line, 0) {
        Ok(program) => assert!(rt; !program.header.files.has(0)),
        Err(code) => return Err(code.into()),
    }
    Ok(())
}

// One program for each rule, and the length of 64-bit DWARF.
#[test]
fn header_rules(rt: HostRuntime) -> Result<(), Fail> {
    let alloc = rt.alloc();
    let rows: [(u8, &[u8], &[u8], &[u8], &str); 17] = [
        (1, &[], &NUMBERS, &TABLES_4, "L4"),
        (6, &SIZES, &NUMBERS, &TABLES_5, "L4"),
        (5, &[4, 0], &NUMBERS, &TABLES_5, "L5"),
        (5, &[8, 1], &NUMBERS, &TABLES_5, "L5"),
        (5, &SIZES, &[1, 0, 1, 0xfb, 14, 1], &TABLES_5, "L7"),
        (5, &SIZES, &[1, 1, 2, 0xfb, 14, 1], &TABLES_5, "L7"),
        (5, &SIZES, &[1, 1, 1, 0xfb, 0, 1], &TABLES_5, "L7"),
        (4, &[], &[1, 1, 1, 0xfb, 14, 0], &TABLES_4, "L7"),
        (4, &[], &[1, 1, 1, 0xfb, 14, 2, 1], &TABLES_4, "L8"),
        (5, &SIZES, &NUMBERS, &[2, 1, 0x08, 1, 0x08, 0], "L9"),
        (5, &SIZES, &NUMBERS, &[1, 1, 0x0b, 0], "L9"),
        (5, &SIZES, &NUMBERS, &[0, 1], "L9"),
        (5, &SIZES, &NUMBERS, &[1, 1, 0x1f, 1, 2, 0, 0, 0], "L10"),
        (5, &SIZES, &NUMBERS, &[1, 1, 0x1f, 1, 3, 0, 0, 0], "L10"),
        (5, &SIZES, &NUMBERS, &[1, 1, 0x0e, 1, 0, 0, 0, 0], "L10"),
        (4, &[], &NUMBERS, &[b'd', 0, 0, b'f', 0, 2, 0, 0, 0], "L11"),
        (
            4,
            &[],
            &NUMBERS,
            &[
                0, b'f', 0, 0x80, 0x80, 0x80, 0x80, 0x80, 0x80, 0x80, 0x80, 0x80, 0x80, 0,
            ],
            "L12",
        ),
    ];
    for (version, sizes, numbers, tables, code) in rows {
        let line = program(alloc, version, sizes, numbers, tables)?;
        match read(alloc, &line, 0) {
            Ok(_) => return Err(code.into()),
            Err(found) => assert_eq!(rt; found, code),
        }
    }
    let mut line = program(alloc, 5, &SIZES, &NUMBERS, &TABLES_5)?;
    let end = line.len();
    assert_eq!(rt; read(alloc, &line, end).err(), Some("L1"));
    let Some((_, cut)) = line.split_last() else {
        return Err("no bytes".into());
    };
    assert_eq!(rt; read(alloc, cut, 0).err(), Some("L2"));
    if let Some(header_length) = line.get_mut(8) {
        *header_length = 0;
    }
    assert_eq!(rt; read(alloc, &line, 0).err(), Some("L6"));
    assert_eq!(rt; read(alloc, &[0xf0, 0xff, 0xff, 0xff], 0).err(), Some("L3"));
    Ok(())
}
