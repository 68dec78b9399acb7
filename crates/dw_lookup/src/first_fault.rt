//! The first rule that a file violates: of the file, of its entries, of its lines, or of its ranges.

ghost use Rattle.std.specs.Prelude.{◌≡◌};
ghost use Rattle.dw_lookup.specs.FirstFaults.{narrow_place, section_of_rule as section_text};

use dw_addresses::LinesFault;
use dw_elf::ElfFault;
use dw_image::Fault;
use dw_lines::LineRule;
use dw_ranges::RangeFault;

/// The first rule that a file violates.
#[derive(Debug, Drop)]
pub enum FirstFault {
    /// Of the file.
    File(ElfFault),
    /// Of the entries.
    Entries(Fault),
    /// Of the line programs and the files.
    Lines(LinesFault),
    /// Of the ranges.
    Ranges(RangeFault),
}

/// A place as 32 bits, where the greatest number stands for those past it.
fn narrow(at: usize) -> u32
    ensures { result ≡ narrow_place at }
{
    u32::try_from(at).unwrap_or(u32::MAX)
}

/// The section of the place of a rule on lines.
fn section_of_rule(rule: LineRule) -> &'static str
    ensures { result.now ≡ section_text rule }
{
    match rule {
        LineRule::NoFile => ".debug_info",
        _ => ".debug_line",
    }
}

impl FirstFault {
    ghost use Rattle.dw_lookup.specs.FirstFaults.{attribute_of, code_of, name_of, place_of, section_of};

    /// The code of the rule.
    pub fn code(&self) -> &'static str
        ensures { result.now ≡ code_of self.now }
    {
        match self {
            FirstFault::File(fault) => fault.rule.code(),
            FirstFault::Entries(fault) => fault.rule.code(),
            FirstFault::Lines(fault) => fault.fault.rule.code(),
            FirstFault::Ranges(fault) => fault.rule.code(),
        }
    }

    /// The name of the rule.
    pub fn name(&self) -> &'static str
        ensures { result.now ≡ name_of self.now }
    {
        match self {
            FirstFault::File(fault) => fault.rule.name(),
            FirstFault::Entries(fault) => fault.rule.name(),
            FirstFault::Lines(fault) => fault.fault.rule.name(),
            FirstFault::Ranges(fault) => fault.rule.name(),
        }
    }

    /// The section of its place, or `file` for a rule of the file.
    pub fn section(&self) -> &'static str
        ensures { result.now ≡ section_of self.now }
    {
        match self {
            FirstFault::File(_) => "file",
            FirstFault::Entries(fault) => fault.section.name(),
            FirstFault::Lines(fault) => section_of_rule(fault.fault.rule),
            FirstFault::Ranges(_) => ".debug_info",
        }
    }

    /// Its place: the offset in the section, or the number of a section header for a rule of the file.
    pub fn at(&self) -> u32
        ensures { result ≡ place_of self.now }
    {
        match self {
            FirstFault::File(fault) => u32::from(fault.section),
            FirstFault::Entries(fault) => fault.at,
            FirstFault::Lines(fault) => narrow(fault.fault.at),
            FirstFault::Ranges(fault) => fault.at,
        }
    }

    /// The attribute, 0 for none.
    pub fn attribute(&self) -> u16
        ensures { result ≡ attribute_of self.now }
    {
        match self {
            FirstFault::File(_) => 0,
            FirstFault::Entries(fault) => fault.attribute,
            FirstFault::Lines(fault) => fault.attribute.0,
            FirstFault::Ranges(_) => 0,
        }
    }
}
