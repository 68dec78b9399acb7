//! The six sections: their names, their bytes within the size limit, and what headers so far name of them. The names of
//! the other sections.

ghost use Rattle.std.specs.Prelude.{◌≡◌, ◌≢◌, ◌↔◌, ◌<◌, ◌≤◌, ◌⊎◌, ◌+◌, Some, None, [], length, unwrap_or, IfOk};
ghost use Rattle.std.specs.Prelude.{IfSome, IfNone, IsTrue, IsErr};
ghost use Rattle.std.specs.Option.{option_copied};
ghost use Rattle.dw_elf.specs.Names.{name_of, other_name, IsWanted, IsZdebug};
ghost use Rattle.dw_elf.specs.Limits.{section_limit};

use crate::SECTION_LIMIT;
use crate::fault::TooLarge;

/// A section that is looked for.
#[derive(Clone, Copy, Debug, PartialEq, Eq)]
pub enum DebugSection {
    /// .debug_abbrev
    Abbrev,
    /// .debug_info
    Info,
    /// .debug_str
    Str,
    /// .debug_line_str
    LineStr,
    /// .debug_str_offsets
    StrOffsets,
    /// .debug_addr
    Addr,
}

impl DebugSection {
    ghost use Rattle.dw_elf.specs.Reading.{index_of};

    /// The index of the section in `Found`.
    pub(crate) fn index(self) -> usize
        ensures index { result ≡ index_of self }
        ensures below { result < 6 }
    {
        self as usize
    }
}

/// A section that `find` does not look for. `find_other` finds it for those who ask for it.
#[derive(Clone, Copy, Debug, PartialEq, Eq)]
pub enum OtherSection {
    /// .debug_line: line programs (DWARF 5, 6.2)
    Line,
    /// .debug_rnglists: range lists of version 5 (7.28)
    RngLists,
    /// .debug_ranges: range lists of version 4 and earlier (DWARF 4, 7.23)
    Ranges,
}

impl OtherSection {
    /// The name of the section in a file.
    pub fn name(self) -> &'static str
        ensures { result.now ≡ other_name self }
    {
        match self {
            OtherSection::Line => ".debug_line",
            OtherSection::RngLists => ".debug_rnglists",
            OtherSection::Ranges => ".debug_ranges",
        }
    }
}

/// The bytes of the six sections that are checked, each within `SECTION_LIMIT`. A section that a file
/// does not have is empty.
#[derive(Clone, Copy, Debug)]
pub struct Sections<'a> {
    /// .debug_abbrev: the abbreviation tables (DWARF 5, 7.5.3).
    pub abbrev: &'a [u8],
    /// .debug_info: the units and their entries (7.5.1), up to the end of those that are read.
    pub info: &'a [u8],
    /// .debug_str: the strings that entries share (7.5.5).
    pub str: &'a [u8],
    /// .debug_line_str: the strings that entries share with line tables (7.5.5).
    pub line_str: &'a [u8],
    /// .debug_str_offsets: offsets into .debug_str, by index (7.26).
    pub str_offsets: &'a [u8],
    /// .debug_addr: addresses, by index (7.27).
    pub addr: &'a [u8],
    /// Where the units that are read begin in `info`: 0, unless they are some of those of .debug_info.
    pub base: u32,
    ghost abbrev_fits: { length «abbrev».now ≤ section_limit },
    ghost info_fits: { length info.now ≤ section_limit },
    ghost base_within: { base ≤ length info.now },
    ghost str_fits: { length str.now ≤ section_limit },
    ghost line_str_fits: { length line_str.now ≤ section_limit },
    ghost str_offsets_fits: { length str_offsets.now ≤ section_limit },
    ghost addr_fits: { length addr.now ≤ section_limit },
}

impl<'a> Sections<'a> {
    ghost use Rattle.dw_elf.specs.Sections.{IsPart};

    /// The six slices as sections, if each of them is within the limit.
    pub fn new(
        abbrev: &'a [u8],
        info: &'a [u8],
        str: &'a [u8],
        line_str: &'a [u8],
        str_offsets: &'a [u8],
        addr: &'a [u8],
    ) -> Result<Sections<'a>, TooLarge>
        ensures abbrev { IfOk result (λ s. s.abbrev ≡ «abbrev».entry) }
        ensures info { IfOk result (λ s. s.info ≡ info.entry) }
        ensures str { IfOk result (λ s. s.str ≡ str.entry) }
        ensures line_str { IfOk result (λ s. s.line_str ≡ line_str.entry) }
        ensures str_offsets { IfOk result (λ s. s.str_offsets ≡ str_offsets.entry) }
        ensures addr { IfOk result (λ s. s.addr ≡ addr.entry) }
        ensures base { IfOk result (λ s. s.base ≡ 0) }
        ensures too_large { IsErr result ↔ ((section_limit < length «abbrev».now)
            ⊎ (section_limit < length info.now) ⊎ (section_limit < length str.now)
            ⊎ (section_limit < length line_str.now) ⊎ (section_limit < length str_offsets.now)
            ⊎ (section_limit < length addr.now)) }
    {
        if abbrev.len() > SECTION_LIMIT
            || info.len() > SECTION_LIMIT
            || str.len() > SECTION_LIMIT
            || line_str.len() > SECTION_LIMIT
            || str_offsets.len() > SECTION_LIMIT
            || addr.len() > SECTION_LIMIT
        {
            return Err(TooLarge);
        }
        Ok(Sections {
            abbrev,
            info,
            str,
            line_str,
            str_offsets,
            addr,
            base: 0,
        })
    }

    /// These sections with a part of .debug_info: its units from an offset up to another. Offsets stay what they are.
    pub fn part(&self, from: usize, to: usize) -> Sections<'a>
        requires order { from ≤ to }
        requires within { to ≤ length self.now.info.now }
        ensures { IsPart self.now from to result }
    {
        Sections {
            abbrev: self.abbrev,
            info: &self.info[..to],
            str: self.str,
            line_str: self.line_str,
            str_offsets: self.str_offsets,
            addr: self.addr,
            base: from as u32,
        }
    }
}

/// Whether the name says that the section's bytes are compressed in the older way.
pub(crate) fn is_zdebug(name: &[u8]) -> bool
    ensures { IsTrue result ↔ IsZdebug name.now }
{
    name.starts_with(b".zdebug_")
}

/// The section that has this name, if it is looked for.
pub(crate) fn section_named(name: &[u8]) -> Option<DebugSection>
    ensures some { IfSome result (λ section. name.now ≡ name_of section) }
    ensures none { IfNone result (¬ IsWanted name.now) }
{
    if name == b".debug_abbrev".as_slice() {
        return Some(DebugSection::Abbrev);
    }
    if name == b".debug_info".as_slice() {
        return Some(DebugSection::Info);
    }
    if name == b".debug_str".as_slice() {
        return Some(DebugSection::Str);
    }
    if name == b".debug_line_str".as_slice() {
        return Some(DebugSection::LineStr);
    }
    if name == b".debug_str_offsets".as_slice() {
        return Some(DebugSection::StrOffsets);
    }
    if name == b".debug_addr".as_slice() {
        return Some(DebugSection::Addr);
    }
    None
}

/// The bytes of each of the six sections that a header named so far, by `DebugSection::index`.
pub(crate) type Found<'a> = [Option<&'a [u8]>; 6];
