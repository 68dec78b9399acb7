//! The first bytes of the file header, and the type of the file (System V ABI, chapter 4, ELF Header). A number in the
//! file has its lowest byte first, and an offset counts from the first byte of the file.

ghost use Rattle.std.specs.Prelude.{◌≡◌, ◌↔◌, ◌+◌, ◌≤◌, length, IsTrue};
ghost use Rattle.dw_elf.specs.Elf.{number_at, FILE_HEADER_SIZE};
ghost use Rattle.dw_elf.specs.Checks.{IsElf64, IsLinked};

use byteorder::{ByteOrder, LittleEndian};

/// The number in the two bytes at an offset.
#[tactic(auto, unfolding(crate::specs::Elf::number_at))]
pub(crate) fn u16_at(file: &[u8], offset: usize) -> u16
    requires { offset + 2 ≤ length file.now }
    ensures { result ≡ number_at 2 file.now offset }
{
    LittleEndian::read_u16(&file[offset..])
}

/// The number in the four bytes at an offset.
#[tactic(auto, unfolding(crate::specs::Elf::number_at))]
pub(crate) fn u32_at(file: &[u8], offset: usize) -> u32
    requires { offset + 4 ≤ length file.now }
    ensures { result ≡ number_at 4 file.now offset }
{
    LittleEndian::read_u32(&file[offset..])
}

/// The number in the eight bytes at an offset.
#[tactic(auto, unfolding(crate::specs::Elf::number_at))]
pub(crate) fn u64_at(file: &[u8], offset: usize) -> u64
    requires { offset + 8 ≤ length file.now }
    ensures { result ≡ number_at 8 file.now offset }
{
    LittleEndian::read_u64(&file[offset..])
}

/// The magic number, then 64-bit (ELFCLASS64), little-endian (ELFDATA2LSB), version 1 (EV_CURRENT).
const IDENTIFICATION: &[u8; 7] = b"\x7fELF\x02\x01\x01";

/// The bytes of the file header.
const FILE_HEADER_SIZE: usize = 64;

const ET_EXEC: u16 = 2;

const ET_DYN: u16 = 3;

/// Whether a whole file header is there, of a 64-bit little-endian file.
pub(crate) fn is_elf64(file: &[u8]) -> bool
    ensures { IsTrue result ↔ IsElf64 file.now }
{
    file.len() >= FILE_HEADER_SIZE && file.starts_with(IDENTIFICATION)
}

/// Whether the file is an executable or a shared object (`e_type`).
pub(crate) fn is_linked(file: &[u8]) -> bool
    requires { FILE_HEADER_SIZE ≤ length file.now }
    ensures { IsTrue result ↔ IsLinked file.now }
{
    let kind = u16_at(file, 16);
    kind == ET_EXEC || kind == ET_DYN
}
