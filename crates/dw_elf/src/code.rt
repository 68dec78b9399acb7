//! The sections that are loaded as code (System V ABI, chapter 4, Sections).

ghost use Rattle.std.specs.Prelude.{◌≡◌, IfSome, IfNone, OnSome};
ghost use Rattle.dw_elf.specs.Checks.{HasHeaders};
ghost use Rattle.dw_elf.specs.Elf.{section_address, section_count, section_size, IsCode};

use crate::header::{u16_at, u64_at};
use crate::section_table::SectionHeader;

/// The flags of a section that has memory in the running program, and of one whose bytes are instructions.
const SHF_ALLOC: u64 = 2;

const SHF_EXECINSTR: u64 = 4;

/// Where a section of code is in memory. Its end may pass the greatest address.
#[derive(Clone, Copy, Debug, PartialEq, Eq)]
pub struct Code {
    /// Its first address (`sh_addr`).
    pub address: u64,
    /// The count of its bytes (`sh_size`).
    pub size: u64,
}

/// The count of the section headers of a file, number 0 included.
pub fn header_count(file: &[u8]) -> u16
    requires { HasHeaders file.now }
    ensures { result ≡ section_count file.now }
{
    u16_at(file, 60)
}

/// Where section `k` of a file is in memory, if it is code that is loaded: its flags say so. In a file of debugging
/// information alone, such a section has no bytes. None too if `k` is 0 or not below the count of headers.
pub fn code_at(file: &[u8], k: u16) -> Option<Code>
    requires { HasHeaders file.now }
    ensures code { OnSome result (IsCode file.now k) }
    ensures address { IfSome result (λ code. code.address ≡ section_address file.now k) }
    ensures size { IfSome result (λ code. code.size ≡ section_size file.now k) }
    ensures none { IfNone result (¬ IsCode file.now k) }
{
    if k == 0 || k >= header_count(file) {
        return None;
    }
    let header = SectionHeader::read(file, u64_at(file, 40), k);
    if header.flags & SHF_ALLOC == 0 || header.flags & SHF_EXECINSTR == 0 {
        return None;
    }
    Some(Code {
        address: header.address,
        size: header.size,
    })
}
