//! A linked file of two sections, and the limit of a section.

use dw_elf::{ElfFault, ElfRule, SECTION_LIMIT, Sections, find};
use std::alloc::{AllocError, Global};
use std::test::Fail;

/// Where the first section of a file starts, after the headers and the name table.
pub const SECTIONS_AT: usize = 0x168;

/// The bytes of the headers and the name table that are not zero, but for the sizes of the sections.
const HEADERS: [(usize, &[u8]); 13] = [
    // the file header
    (0, b"\x7fELF\x02\x01\x01"),
    (0x10, &[2]),
    (0x28, &[0x40]),
    (0x3a, &[64]),
    (0x3c, &[4]),
    (0x3e, &[3]),
    // the section headers: name and type, offset, size
    (0x80, &[1, 0, 0, 0, 1]),
    (0x98, &[0x68, 1]),
    (0xc0, &[0x0f, 0, 0, 0, 1]),
    (0x100, &[0x1b, 0, 0, 0, 3]),
    (0x118, &[0x40, 1]),
    (0x120, &[37]),
    // the name table
    (0x141, b".debug_abbrev\0.debug_info\0.shstrtab"),
];

/// Where the size of .debug_abbrev, the offset of .debug_info and its size are.
const ABBREV_SIZE_AT: usize = 0xa0;

const INFO_AT: usize = 0xd8;

const INFO_SIZE_AT: usize = 0xe0;

/// Writes bytes over those from an offset on.
fn put(file: &mut [u8], start: usize, bytes: &[u8]) {
    for (byte, place) in bytes.iter().zip(file.iter_mut().skip(start)) {
        *place = *byte;
    }
}

/// Writes the headers and the name table of a file with sections of these sizes.
fn put_headers(file: &mut [u8], abbrev_size: usize, info_size: usize) {
    for (start, bytes) in &HEADERS {
        put(file, *start, bytes);
    }
    let info_at = SECTIONS_AT.saturating_add(abbrev_size);
    put(file, ABBREV_SIZE_AT, &abbrev_size.to_le_bytes());
    put(file, INFO_AT, &info_at.to_le_bytes());
    put(file, INFO_SIZE_AT, &info_size.to_le_bytes());
}

/// A file with these as .debug_abbrev and .debug_info.
pub fn file_of(alloc: Global, abbrev: &[u8], info: &[u8]) -> Result<Vec<u8>, AllocError> {
    let mut file = vec![in alloc; 0u8; SECTIONS_AT]?;
    put_headers(file.as_mut_slice(), abbrev.len(), info.len());
    file.extend_from_slice(abbrev)?;
    file.extend_from_slice(info)?;
    Ok(file)
}

// The limit and one byte more, in a file and in slices.
#[test]
fn the_limit_of_a_section(rt: HostRuntime) -> Result<(), Fail> {
    let mut file = vec![in rt.alloc(); 0u8; SECTIONS_AT + SECTION_LIMIT + 1]?;
    put_headers(file.as_mut_slice(), 0, SECTION_LIMIT);
    assert_eq!(rt; find(file.as_slice()).err(), None);
    put_headers(file.as_mut_slice(), 0, SECTION_LIMIT + 1);
    let too_large = ElfFault {
        rule: ElfRule::TooLarge,
        section: 2,
    };
    assert_eq!(rt; find(file.as_slice()).err(), Some(too_large));
    let none: &[u8] = &[];
    let limit = file.get(..SECTION_LIMIT).ok_or("short")?;
    let past = file.get(..SECTION_LIMIT + 1).ok_or("short")?;
    assert!(rt; Sections::new(limit, limit, limit, limit, limit, limit).is_ok());
    assert!(rt; Sections::new(past, none, none, none, none, none).is_err());
    assert!(rt; Sections::new(none, none, none, none, none, past).is_err());
    Ok(())
}
