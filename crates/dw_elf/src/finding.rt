//! The search for the six sections: the checks of the file, then of each header in order, then of all; and where one of
//! them starts.

ghost use Rattle.std.specs.Prelude.{◌≡◌, ◌≤◌, ℕ, List, [], length, unwrap_or, IfOk, IfErr, OnOk};
ghost use Rattle.std.specs.Option.{option_copied};
ghost use Rattle.dw_elf.specs.declared.fault.ElfFault.{ElfFault as AnyFault};
ghost use Rattle.dw_elf.specs.Elf.{section_count};
ghost use Rattle.dw_elf.specs.Limits.{section_limit};
ghost use Rattle.dw_elf.specs.declared.sections.OtherSection.{OtherSection as AnyOther};
ghost use Rattle.dw_elf.specs.Checks.{AllPass, ChecksPass, HasHeaders};
ghost use Rattle.dw_elf.specs.Rules.{IsFault, IsFaultFor};
ghost use Rattle.dw_elf.specs.Sections.{AreSections, IsSection, StartsAt};
ghost use Rattle.dw_elf.specs.Reading.{slot, SlotsUpTo};
ghost use Rattle.dw_elf.specs.Names.{name_of, other_name, IsNameOf};

use crate::fault::ElfFault;
use crate::rule::ElfRule;
use crate::section_table::{SectionHeader, SectionTable};
use crate::sections::{DebugSection, Found, OtherSection, Sections, section_named};

/// The bytes that were found for a section, or no bytes if no header names it.
fn bytes_of<'a>(found: &Found<'a>, section: DebugSection) -> &'a [u8]
    ensures { result.now ≡ unwrap_or (option_copied (slot found.now section)) [] }
{
    found[section.index()].unwrap_or(&[])
}

/// The sections, once all headers are taken in.
fn sections_of<'a>(file: &[u8], found: &Found<'a>) -> Sections<'a>
    requires { SlotsUpTo file.now (section_count file.now) found.now }
    ensures { AreSections file.now result }
{
    Sections {
        abbrev: bytes_of(found, DebugSection::Abbrev),
        info: bytes_of(found, DebugSection::Info),
        str: bytes_of(found, DebugSection::Str),
        line_str: bytes_of(found, DebugSection::LineStr),
        str_offsets: bytes_of(found, DebugSection::StrOffsets),
        addr: bytes_of(found, DebugSection::Addr),
        base: 0,
    }
}

/// Finds the six sections of a linked ELF-64 little-endian file. The slices are lent from the file,
/// and no memory is taken.
#[tactic(auto, using(crate::proofs::CheckLemmas::file_fails, crate::proofs::CheckLemmas::file_passes))]
pub fn find<'a>(file: &'a [u8]) -> Result<Sections<'a>, ElfFault>
    ensures passes { OnOk result (ChecksPass file.now) }
    ensures headers { OnOk result (HasHeaders file.now) }
    ensures sections { IfOk result (λ sections. AreSections file.now sections) }
    ensures fault { IfErr result (λ fault. IsFault file.now fault) }
{
    let table = match SectionTable::of(file) {
        Ok(table) => table,
        Err(rule) => return Err(ElfFault { rule, section: 0 }),
    };
    let mut found = [None; 6];
    for k in 1..table.count {
        if let Err(rule) = table.check(k, &mut found) {
            return Err(ElfFault { rule, section: k });
        }
    }
    if found[DebugSection::Info.index()].is_none() {
        return Err(ElfFault {
            rule: ElfRule::NoInfo,
            section: 0,
        });
    }
    Ok(sections_of(file, &found))
}

/// Finds a section that `find` does not look for, by the same checks, but for `NoInfo`. There are no bytes if no header
/// names it. The slice is lent from the file, and no memory is taken.
#[tactic(auto, using(crate::proofs::CheckLemmas::file_fails, crate::proofs::CheckLemmas::file_passes))]
pub fn find_other<'a>(file: &'a [u8], section: OtherSection) -> Result<&'a [u8], ElfFault>
    ensures passes { OnOk result (AllPass (IsNameOf section) file.now) }
    ensures headers { OnOk result (HasHeaders file.now) }
    ensures bytes { IfOk result (λ bytes. IsSection file.now (other_name section) bytes.now) }
    ensures small { IfOk result (λ bytes. length bytes.now ≤ section_limit) }
    ensures fault { IfErr result (λ fault. IsFaultFor (IsNameOf section) file.now fault) }
{
    let table = match SectionTable::of(file) {
        Ok(table) => table,
        Err(rule) => return Err(ElfFault { rule, section: 0 }),
    };
    let mut found = None;
    for k in 1..table.count {
        found = match table.check_other(k, section, found) {
            Ok(found) => found,
            Err(rule) => return Err(ElfFault { rule, section: k }),
        };
    }
    Ok(found.unwrap_or(&[]))
}

/// Where the bytes of a section start, from the file's first byte: the offset that its header gives. Any number if no
/// header names the section.
pub fn section_start(file: &[u8], section: DebugSection) -> usize
    requires { ChecksPass file.now }
    ensures { StartsAt file.now (name_of section) result }
{
    let table = match SectionTable::of(file) {
        Ok(table) => table,
        Err(_) => return 0,
    };
    for k in 1..table.count {
        let header = SectionHeader::read(table.file, table.start, k);
        let Some(front) = table.front_at(header.name_offset) else {
            return 0;
        };
        if section_named(front) == Some(section) {
            return header.offset as usize;
        }
    }
    0
}

/// A file has one fault at most, and none if no check fails: so `find` and `find_other` have one possible result.
#[tactic(auto, using(std::proofs::lemmas::Bool::cases_order))]
pub fn one_fault()
    ensures one { (file : List ℕ) (e f : AnyFault) → IsFault file e → IsFault file f → e ≡ f }
    ensures none { (file : List ℕ) (e : AnyFault) → IsFault file e → ¬ ChecksPass file }
    ensures one_other { (file : List ℕ) (s : AnyOther) (e f : AnyFault) → IsFaultFor (IsNameOf s) file e
        → IsFaultFor (IsNameOf s) file f → e ≡ f }
    ensures none_other { (file : List ℕ) (s : AnyOther) (e : AnyFault) → IsFaultFor (IsNameOf s) file e
        → ¬ AllPass (IsNameOf s) file }
{}

/// A file has one section at most of a name, and the bytes of the section are one list.
pub fn one_section()
    ensures { (file name a b : List ℕ) → IsSection file name a → IsSection file name b → a ≡ b }
{}
