//! The table of section headers (System V ABI, chapter 4, Sections): what a header says, the checks of the file, and
//! those of one header.

ghost use Rattle.std.specs.Prelude.{◌≡◌, ◌+◌, ◌*◌, ◌<◌, ◌≤◌, length, take, drop, IfOk, IfErr, IfSome, IfNone, OnOk};
ghost use Rattle.std.specs.Prelude.{OnSome};
ghost use Rattle.dw_elf.specs.Elf.{table_offset, header_offset, section_count, FILE_HEADER_SIZE, SECTION_HEADER_SIZE};
ghost use Rattle.dw_elf.specs.Elf.{name_table, section_bytes, IsHeader, string_at, HasText, IsAfterLastZero};
ghost use Rattle.dw_elf.specs.Checks.{HasHeaders, HasSectionTable, Passes};
ghost use Rattle.dw_elf.specs.Reading.{StandsFor};

use crate::SECTION_LIMIT;
use crate::header::{is_elf64, is_linked, u16_at, u32_at, u64_at};
use crate::rule::ElfRule;
use crate::sections::{Found, OtherSection, is_zdebug, section_named};
use memchr::{memchr, memrchr};

/// The bytes of a section header.
const SECTION_HEADER_SIZE: u16 = 64;

/// The type of a section that takes no bytes in the file.
const SHT_NOBITS: u32 = 8;

/// The flag of a section whose bytes are compressed.
const SHF_COMPRESSED: u64 = 0x800;

/// The fields of a section header that are read.
#[derive(Clone, Copy)]
pub(crate) struct SectionHeader {
    /// Where the name starts, from the first byte of the name table (`sh_name`).
    pub name_offset: u32,
    /// The type of the section (`sh_type`).
    pub kind: u32,
    /// The flags of the section (`sh_flags`).
    pub flags: u64,
    /// Where the section is in memory (`sh_addr`).
    pub address: u64,
    /// Where the bytes of the section start, from the file's first byte (`sh_offset`).
    pub offset: u64,
    /// The count of the section's bytes (`sh_size`).
    pub size: u64,
}

impl SectionHeader {
    ghost use Rattle.dw_elf.specs.Reading.{IsHeaderAt};

    /// Reads section header `k` of a table that starts at `start`, from the file's first byte.
    pub(crate) fn read(file: &[u8], start: u64, k: u16) -> SectionHeader
        requires start { start ≡ table_offset file.now }
        requires in_file { header_offset file.now k + SECTION_HEADER_SIZE ≤ length file.now }
        ensures { IsHeaderAt file.now k result }
    {
        let at = start as usize + SECTION_HEADER_SIZE as usize * k as usize;
        SectionHeader {
            name_offset: u32_at(file, at),
            kind: u32_at(file, at + 4),
            flags: u64_at(file, at + 8),
            address: u64_at(file, at + 16),
            offset: u64_at(file, at + 24),
            size: u64_at(file, at + 32),
        }
    }
}

/// The bytes of the file from an offset on, if all of them are in it.
fn range(file: &[u8], offset: u64, size: u64) -> Option<&[u8]>
    ensures bytes { IfSome result (λ bytes. bytes.now ≡ take size (drop offset file.now)) }
    ensures inside { OnSome result (offset + size ≤ length file.now) }
    ensures none { IfNone result (length file.now < offset + size) }
{
    let end = offset.checked_add(size)?;
    if end > file.len() as u64 {
        return None;
    }
    Some(&file[offset as usize..end as usize])
}

/// The count of bytes up to the last zero byte, with it, or 0. Texts that a zero byte ends start before it.
#[tactic(auto, using(crate::proofs::NameLemmas::no_zero, crate::proofs::NameLemmas::last_zero))]
pub fn end_of_texts(bytes: &[u8]) -> usize
    ensures { IsAfterLastZero bytes.now result }
{
    match memrchr(0, bytes) {
        Some(last) => last + 1,
        None => 0,
    }
}

/// The most bytes of a name that are read. The longest name that is looked for has one byte fewer, so
/// a name of this many bytes or more is none of them.
const FRONT_SIZE: usize = 19;

/// A file that passes the checks of the file.
#[derive(Clone, Copy)]
pub(crate) struct SectionTable<'a> {
    /// The bytes of the file.
    pub file: &'a [u8],
    /// Where the section headers start, from the file's first byte.
    pub start: u64,
    /// The count of section headers, number 0 included.
    pub count: u16,
    /// The bytes of the name table.
    pub names: &'a [u8],
    /// The count of bytes of the name table up to its last zero byte, with it, or 0.
    pub names_end: usize,
    ghost start_of_file: { start ≡ table_offset file.now },
    ghost count_of_file: { count ≡ section_count file.now },
    ghost names_of_file: { names.now ≡ name_table file.now },
    ghost after_last_zero: { IsAfterLastZero names.now names_end },
    ghost in_file: { start + SECTION_HEADER_SIZE * count ≤ length file.now },
    ghost some: { 0 < count },
}

impl<'a> SectionTable<'a> {
    ghost use Rattle.std.specs.Prelude.{None};
    ghost use Rattle.dw_elf.specs.Limits.{section_limit};
    ghost use Rattle.dw_elf.specs.Names.{other_name, IsWanted, IsNameOf};
    ghost use Rattle.dw_elf.specs.Rules.{FailsAt};
    ghost use Rattle.dw_elf.specs.Reading.{HasNoHeaders, IsHeaderAt, IsNotLent, IsSlot, MayBeLent, SlotsUpTo};

    /// Makes the checks of the file.
    pub(crate) fn of(file: &'a [u8]) -> Result<SectionTable<'a>, ElfRule>
        ensures file { IfOk result (λ table. table.file ≡ file.entry) }
        ensures passes { OnOk result (HasHeaders file.now) }
        ensures fails { IfErr result (HasNoHeaders file.now) }
    {
        if !is_elf64(file) {
            return Err(ElfRule::NotElf64);
        }
        if !is_linked(file) {
            return Err(ElfRule::NotLinked);
        }
        let Some(table) = table_of(file) else {
            return Err(ElfRule::SectionTable);
        };
        Ok(table)
    }

    /// A prefix of the name at an offset in the name table, if a zero byte ends the name there. A name is read in
    /// bounded time, since headers may share one name of any length.
    pub(crate) fn front_at(&self, offset: u32) -> Option<&'a [u8]>
        ensures front { IfSome result (λ front. StandsFor front.now (string_at self.now.names.now offset)) }
        ensures ended { OnSome result (HasText self.now.names.now offset) }
        ensures none { IfNone result (¬ HasText self.now.names.now offset) }
    {
        let offset = offset as usize;
        if offset >= self.names_end {
            return None;
        }
        let rest = &self.names[offset..];
        let front = &rest[..rest.len().min(FRONT_SIZE)];
        match memchr(0, front) {
            Some(len) => Some(&front[..len]),
            None => Some(front),
        }
    }

    /// Makes the checks of header `k`, where `found` is what lower headers name, and adds the section that this header
    /// names, if it is one of the six.
    pub(crate) fn check(&self, k: u16, found: &mut Found<'a>) -> Result<(), ElfRule>
        requires header { IsHeader self.now.file.now k }
        requires so_far { SlotsUpTo self.now.file.now k found.old }
        ensures passes { OnOk result (Passes IsWanted self.now.file.now k) }
        ensures found { OnOk result (SlotsUpTo self.now.file.now (k + 1) found.new) }
        ensures fails { IfErr result (λ rule. FailsAt IsWanted self.now.file.now k rule k) }
    {
        let header = SectionHeader::read(self.file, self.start, k);
        let Some(front) = self.front_at(header.name_offset) else {
            return Err(ElfRule::SectionName);
        };
        if is_zdebug(front) {
            return Err(ElfRule::Compressed);
        }
        let Some(section) = section_named(front) else {
            return Ok(());
        };
        if found[section.index()].is_some() {
            return Err(ElfRule::SectionTwice);
        }
        found[section.index()] = Some(self.lend(k, header)?);
        Ok(())
    }

    /// Makes the checks of header `k`, where `found` is what lower headers name, if they name this section. Returns the
    /// same of the headers up to this one.
    pub(crate) fn check_other(
        &self,
        k: u16,
        section: OtherSection,
        found: Option<&'a [u8]>,
    ) -> Result<Option<&'a [u8]>, ElfRule>
        requires header { IsHeader self.now.file.now k }
        requires so_far { IsSlot self.now.file.now k (other_name section) found }
        ensures passes { OnOk result (Passes (IsNameOf section) self.now.file.now k) }
        ensures found { IfOk result (IsSlot self.now.file.now (k + 1) (other_name section)) }
        ensures fails { IfErr result (λ rule. FailsAt (IsNameOf section) self.now.file.now k rule k) }
    {
        let header = SectionHeader::read(self.file, self.start, k);
        let Some(front) = self.front_at(header.name_offset) else {
            return Err(ElfRule::SectionName);
        };
        if is_zdebug(front) {
            return Err(ElfRule::Compressed);
        }
        if front != section.name().as_bytes() {
            return Ok(found);
        }
        if found.is_some() {
            Err(ElfRule::SectionTwice)
        } else {
            Ok(Some(self.lend(k, header)?))
        }
    }

    /// The bytes of section `k`, which is looked for, or the first of the last four checks of its header that fails.
    #[tactic(auto, unfolding(crate::specs::Elf::section_bytes))]
    fn lend(&self, k: u16, header: SectionHeader) -> Result<&'a [u8], ElfRule>
        requires { IsHeaderAt self.now.file.now k header }
        ensures bytes { IfOk result (λ bytes. bytes.now ≡ section_bytes self.now.file.now k) }
        ensures small { IfOk result (λ bytes. length bytes.now ≤ section_limit) }
        ensures passes { OnOk result (MayBeLent self.now.file.now k) }
        ensures fails { IfErr result (IsNotLent self.now.file.now k) }
    {
        if header.kind == SHT_NOBITS {
            return Err(ElfRule::NoBits);
        }
        if header.flags & SHF_COMPRESSED != 0 {
            return Err(ElfRule::Compressed);
        }
        let Some(bytes) = range(self.file, header.offset, header.size) else {
            return Err(ElfRule::SectionRange);
        };
        if bytes.len() > SECTION_LIMIT {
            return Err(ElfRule::TooLarge);
        }
        Ok(bytes)
    }
}

/// The table of section headers that the file header describes, if it is valid.
#[tactic(auto, unfolding(crate::specs::Elf::section_bytes))]
fn table_of(file: &[u8]) -> Option<SectionTable<'_>>
    requires long { FILE_HEADER_SIZE ≤ length file.now }
    ensures file { IfSome result (λ table. table.file ≡ file.entry) }
    ensures there { OnSome result (HasSectionTable file.now) }
    ensures none { IfNone result (¬ HasSectionTable file.now) }
{
    // The fields e_shoff, e_shentsize, e_shnum and e_shstrndx.
    let start = u64_at(file, 40);
    let header_size = u16_at(file, 58);
    let count = u16_at(file, 60);
    let names_index = u16_at(file, 62);
    if header_size != SECTION_HEADER_SIZE || names_index == 0 || names_index >= count {
        return None;
    }
    let size = u64::from(SECTION_HEADER_SIZE) * u64::from(count);
    if range(file, start, size).is_none() {
        return None;
    }
    let header = SectionHeader::read(file, start, names_index);
    if header.kind == SHT_NOBITS {
        return None;
    }
    let names = range(file, header.offset, header.size)?;
    Some(SectionTable {
        file,
        start,
        count,
        names,
        names_end: end_of_texts(names),
    })
}
