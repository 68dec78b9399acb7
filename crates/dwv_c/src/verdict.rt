//! What a call returns, and the verdict as a struct of fixed size.

ghost use Rattle.std.specs.Prelude.{◌≡◌, ◌<◌, ◌≤◌, ◌++◌, length, drop};
ghost use Rattle.dw_elf.specs.declared.rule.ElfRule.{ElfRule as FileRule};
ghost use Rattle.dw_elf.specs.RuleTexts as elf;
ghost use Rattle.dw_entries.specs.declared.fault.Section.{Section};
ghost use Rattle.dw_forms.specs.declared.rule.Rule.{Rule};
ghost use Rattle.dw_forms.specs.Rules.{code_text, name_text};
ghost use Rattle.dw_entries.specs.SectionTexts.{section_text};
ghost use Rattle.dw_lookup.specs.FirstFaults.{code_of, name_of, section_of};
ghost use Rattle.dw_lookup.specs.declared.first_fault.FirstFault.{FirstFault as FirstOf};
ghost use Rattle.dw_report.specs.Reports.{too_large};
ghost use Rattle.dwv_c.specs.Frames.{of_first_fault};
ghost use Rattle.dwv_c.specs.FrameState.{stop_status, stop_verdict};
ghost use Rattle.dwv_c.specs.Verdicts.{fault_verdict, of_counts, of_file_fault, of_fault};

use dw_elf::{ElfFault, ElfRule};
use dw_forms::Stop;
use dw_image::Fault;
use dw_lookup::FirstFault;
use dw_units::Counts;

/// The file is sound.
pub const SOUND: u32 = 0;

/// It violates a rule.
pub const FAULT: u32 = 1;

/// An allocation failed: the caller's memory is as it was.
pub const NO_MEMORY: u32 = 4;

/// The caller's buffer or array is too short: it is as it was.
pub const TOO_SHORT: u32 = 5;

/// No request has the number: the caller's memory is as it was.
pub const NO_REQUEST: u32 = 6;

/// The verdict on a file or on six sections. For a fault the counts are 0, for sound ones everything else is.
#[repr(C)]
#[derive(Clone, Copy, Debug)]
pub struct Verdict {
    /// How many units there are.
    pub units: u64,
    /// How many entries there are.
    pub entries: u64,
    /// How many entries are types.
    pub types: u64,
    /// The offset in the section. For a fault of the file, the number of a section header.
    pub at: u32,
    /// The attribute, 0 for none.
    pub attribute: u32,
    /// The code of the rule, as `G1`, and zero bytes.
    pub rule: [u8; 8],
    /// The name of the section, or `file` for a fault of the file, and zero bytes.
    pub section: [u8; 16],
    /// The name of the rule, as `UndeclaredCode`, and zero bytes.
    pub name: [u8; 24],
}

/// Each text is shorter than its field: none is cut, and a zero byte ends it.
pub fn texts_fit()
    ensures rules { (rule : Rule) → length (code_text rule) < 8 }
    ensures names { (rule : Rule) → length (name_text rule) < 24 }
    ensures sections { (section : Section) → length (section_text section) < 16 }
    ensures file_rules { (rule : FileRule) → length (elf.code_text rule) < 8 }
    ensures file_names { (rule : FileRule) → length (elf.name_text rule) < 24 }
    ensures first_rules { (f : FirstOf) → length (code_of f) < 8 }
    ensures first_names { (f : FirstOf) → length (name_of f) < 24 }
    ensures first_sections { (f : FirstOf) → length (section_of f) < 16 }
{}

/// Writes items over the first ones of an array.
pub fn put_over<T: Copy>(array: &mut [T], items: &[T])
    requires { length items.now ≤ length array.old }
    ensures { array.new ≡ items.now ++ drop (length items.now) array.old }
{
    array[..items.len()].copy_from_slice(items);
}

/// A fault with its texts.
fn with_texts(at: u32, attribute: u32, rule: &str, section: &str, name: &str) -> Verdict
    requires rule { length rule.now < 8 }
    requires section { length section.now < 16 }
    requires name { length name.now < 24 }
    ensures { result ≡ fault_verdict at attribute rule.now section.now name.now }
{
    let mut verdict = Verdict {
        units: 0,
        entries: 0,
        types: 0,
        at,
        attribute,
        rule: [0; 8],
        section: [0; 16],
        name: [0; 24],
    };
    put_over(&mut verdict.rule, rule.as_bytes());
    put_over(&mut verdict.section, section.as_bytes());
    put_over(&mut verdict.name, name.as_bytes());
    verdict
}

/// A fault of the file.
#[tactic(auto, using(crate::proofs::TextLemmas::file_rule_fits, crate::proofs::TextLemmas::file_name_fits))]
pub fn verdict_of_file_fault(fault: ElfFault) -> Verdict
    ensures { result ≡ of_file_fault fault }
{
    let at = u32::from(fault.section);
    with_texts(at, 0, fault.rule.code(), "file", fault.rule.name())
}

/// The fault of a file or of a section that is too long.
pub fn verdict_of_large() -> Verdict
    ensures { result ≡ of_file_fault too_large }
{
    verdict_of_file_fault(ElfFault {
        rule: ElfRule::TooLarge,
        section: 0,
    })
}

/// A fault of the sections.
pub fn verdict_of_fault(fault: &Fault) -> Verdict
    ensures { result ≡ of_fault fault.now }
{
    let attribute = u32::from(fault.attribute);
    let rule = fault.rule;
    with_texts(
        fault.at,
        attribute,
        rule.code(),
        fault.section.name(),
        rule.name(),
    )
}

/// The first rule that a file violates.
pub fn verdict_of_first(fault: &FirstFault) -> Verdict
    ensures { result ≡ of_first_fault fault.now }
{
    let attribute = u32::from(fault.attribute());
    with_texts(
        fault.at(),
        attribute,
        fault.code(),
        fault.section(),
        fault.name(),
    )
}

/// Writes the fault into the struct of the caller, unless an allocation failed.
pub fn put_stop(stop: Stop<FirstFault>, verdict: &mut Verdict) -> u32
    ensures status { result ≡ stop_status stop }
    ensures verdict { verdict.new ≡ stop_verdict stop verdict.old }
{
    match stop {
        Stop::Fault(fault) => {
            *verdict = verdict_of_first(&fault);
            FAULT
        }
        Stop::Memory => NO_MEMORY,
    }
}

/// The counts of sound sections.
pub fn verdict_of_counts(counts: Counts) -> Verdict
    ensures { result ≡ of_counts counts }
{
    Verdict {
        units: counts.units as u64,
        entries: counts.entries as u64,
        types: counts.types as u64,
        at: 0,
        attribute: 0,
        rule: [0; 8],
        section: [0; 16],
        name: [0; 24],
    }
}
