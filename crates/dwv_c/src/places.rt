//! Where the bytes of sections are: in the bytes of a file, or in the sections themselves.

ghost use Rattle.std.specs.Prelude.{◌≡◌};
ghost use Rattle.dw_elf.specs.Checks.{ChecksPass};
ghost use Rattle.dwv_c.specs.SectionPlaces.{AreInFile, AreInImage, IsAlone, IsInFile};

use dw_elf::{DebugSection, section_start};
use dw_image::Image;

/// The places of bytes in .debug_info, in .debug_str and in .debug_line_str.
pub const INFO: u32 = 1;

pub const STR: u32 = 2;

pub const LINE_STR: u32 = 3;

/// Bytes of a section.
#[derive(Clone, Copy, Debug)]
pub struct Span {
    /// Which section they are in.
    pub section: u32,
    /// Where they start, from where places in the section are counted.
    pub start: u64,
    /// How many they are.
    pub length: u32,
}

/// What places in a section are counted from: some bytes, in which the section starts somewhere.
#[derive(Clone, Copy, Debug)]
pub struct Holder<'a> {
    pub bytes: &'a [u8],
    /// Where the section starts in them.
    pub start: usize,
}

/// What places in each of the three sections are counted from.
#[derive(Clone, Copy, Debug)]
pub struct Holders<'a> {
    pub info: Holder<'a>,
    pub str: Holder<'a>,
    pub line_str: Holder<'a>,
}

/// The section of a file.
fn in_file(file: &[u8], section: DebugSection) -> Holder<'_>
    requires { ChecksPass file.now }
    ensures { IsInFile file.now section result }
{
    Holder {
        bytes: file,
        start: section_start(file, section),
    }
}

/// A section by itself.
fn alone(section: &[u8]) -> Holder<'_>
    ensures { IsAlone section.now result }
{
    Holder {
        bytes: section,
        start: 0,
    }
}

/// The sections of a file, with places that are counted from its start.
pub fn held_in_file(file: &[u8]) -> Holders<'_>
    requires { ChecksPass file.now }
    ensures { AreInFile file.now result }
{
    Holders {
        info: in_file(file, DebugSection::Info),
        str: in_file(file, DebugSection::Str),
        line_str: in_file(file, DebugSection::LineStr),
    }
}

/// The sections of an image, with places that are counted from the start of each.
pub fn held_alone<'a>(image: &Image<'a>) -> Holders<'a>
    ensures { AreInImage image.now result }
{
    let sections = image.sections();
    Holders {
        info: alone(sections.info),
        str: alone(sections.str),
        line_str: alone(sections.line_str),
    }
}
