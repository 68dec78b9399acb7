//! The sections of an ELF-64 file (System V ABI, chapter 4): the rules E.

use crate::fault::Fault;
use crate::rest::Rest;

/// The most bytes of a section.
const LIMIT: u64 = 1_073_741_824;

/// SHT_NOBITS: a section without bytes in the file.
const NO_BITS: u64 = 8;

/// SHF_COMPRESSED.
const COMPRESSED: u64 = 0x800;

/// The two sections that the rules A, U and G speak of.
#[derive(Clone, Copy, Debug, PartialEq, Eq)]
pub struct Sections<'a> {
    pub abbrev: &'a [u8],
    pub info: &'a [u8],
}

/// A file's bytes and what its header says of the section headers.
#[derive(Clone, Copy)]
struct Table<'a> {
    file: &'a [u8],
    at: u64,
    count: u64,
    /// The section names, each with its zero byte.
    names: &'a [u8],
}

/// A section header.
#[derive(Clone, Copy)]
struct Header {
    name_at: u64,
    kind: u64,
    flags: u64,
    offset: u64,
    size: u64,
}

/// The bytes of a range, if it lies in the file.
fn range(file: &[u8], offset: u64, size: u64) -> Option<&[u8]> {
    let (_, rest) = Rest::whole(file).split(offset)?;
    Some(rest.split(size)?.0.bytes)
}

/// The number of so many bytes at a place.
fn number(bytes: &[u8], at: u64, size: u64) -> Option<u64> {
    let (_, rest) = Rest::whole(bytes).split(at)?;
    Some(rest.number(size)?.0)
}

/// A section header by its number.
fn read_header(file: &[u8], table_at: u64, k: u64) -> Option<Header> {
    let bytes = range(file, table_at.checked_add(k.checked_mul(64)?)?, 64)?;
    Some(Header {
        name_at: number(bytes, 0, 4)?,
        kind: number(bytes, 4, 4)?,
        flags: number(bytes, 8, 8)?,
        offset: number(bytes, 24, 8)?,
        size: number(bytes, 32, 8)?,
    })
}

/// The table of section headers, and the names. None where rule E4 is broken.
fn table_of(file: &[u8]) -> Option<Table<'_>> {
    let at = number(file, 40, 8)?;
    let count = number(file, 60, 2)?;
    let of_names = number(file, 62, 2)?;
    if number(file, 58, 2)? != 64 || count == 0 || of_names == 0 || of_names >= count {
        return None;
    }
    range(file, at, count.checked_mul(64)?)?;
    let header = read_header(file, at, of_names)?;
    if header.kind == NO_BITS {
        return None;
    }
    Some(Table {
        file,
        at,
        count,
        names: range(file, header.offset, header.size)?,
    })
}

impl<'a> Table<'a> {
    fn header(&self, k: u64) -> Option<Header> {
        read_header(self.file, self.at, k)
    }

    /// The name of a section, without its zero byte.
    fn name(&self, k: u64) -> Option<&'a [u8]> {
        let (_, rest) = Rest::whole(self.names).split(self.header(k)?.name_at)?;
        let length = rest.bytes.iter().position(|byte| *byte == 0)?;
        rest.bytes.get(..length)
    }

    /// The first header of this name below another header.
    fn find(&self, name: &[u8], below: u64) -> Option<u64> {
        (1..below).find(|k| self.name(*k) == Some(name))
    }

    /// The bytes of the section of this name. None where there is no such section, or the file does not have its bytes
    /// as they are.
    fn section(&self, name: &[u8]) -> Option<&'a [u8]> {
        let header = self.header(self.find(name, self.count)?)?;
        if header.kind == NO_BITS || header.flags & COMPRESSED != 0 {
            return None;
        }
        range(self.file, header.offset, header.size)
    }

    /// Checks one section.
    fn check(&self, k: u64) -> Result<(), &'static str> {
        let header = self.header(k).ok_or("never")?;
        let name = self.name(k).ok_or("E5 SectionName")?;
        if name.starts_with(b".zdebug_") {
            return Err("E7 Compressed");
        }
        if !is_read(name) {
            return Ok(());
        }
        if self.find(name, k).is_some() {
            return Err("E8 SectionTwice");
        }
        if header.kind == NO_BITS {
            return Err("E10 NoBits");
        }
        if header.flags & COMPRESSED != 0 {
            return Err("E7 Compressed");
        }
        if range(self.file, header.offset, header.size).is_none() {
            return Err("E6 SectionRange");
        }
        if header.size > LIMIT {
            return Err("E1 TooLarge");
        }
        Ok(())
    }
}

/// Whether a section of this name is read.
fn is_read(name: &[u8]) -> bool {
    name == b".debug_abbrev".as_slice()
        || name == b".debug_info".as_slice()
        || name == b".debug_str".as_slice()
        || name == b".debug_line_str".as_slice()
        || name == b".debug_str_offsets".as_slice()
        || name == b".debug_addr".as_slice()
}

/// Whether a file starts as one of ELF-64 with the lowest byte first.
fn is_elf64(file: &[u8]) -> bool {
    file.len() >= 64 && file.starts_with(b"\x7fELF\x02\x01\x01")
}

/// The sections of a file, or the first rule of the file that it breaks.
pub fn find_sections(file: &[u8]) -> Result<Sections<'_>, Fault> {
    let fails = |rule| Fault::File { rule, header: 0 };
    if !is_elf64(file) {
        return Err(fails("E2 NotElf64"));
    }
    if !matches!(number(file, 16, 2), Some(2 | 3)) {
        return Err(fails("E3 NotLinked"));
    }
    let table = table_of(file).ok_or(fails("E4 SectionTable"))?;
    for k in 1..table.count {
        table
            .check(k)
            .map_err(|rule| Fault::File { rule, header: k })?;
    }
    let info = table.section(b".debug_info").ok_or(fails("E9 NoInfo"))?;
    Ok(Sections {
        abbrev: table.section(b".debug_abbrev").unwrap_or(&[]),
        info,
    })
}
