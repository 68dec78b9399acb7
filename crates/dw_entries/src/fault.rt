//! The first place where a rule is broken.

ghost use Rattle.std.specs.Prelude.{◌≡◌};
ghost use Rattle.dw_forms.specs.declared.fault.Stop.TheVariants.{Fault as Faulty};
ghost use Rattle.dw_entries.specs.Failures.{IsPlainFault};

use dw_forms::{Rule, Stop};
use std::alloc::Global;

/// The section in which a fault is: .debug_abbrev for a table's, .debug_info for all others.
#[derive(Clone, Copy, Debug, PartialEq, Eq)]
pub enum Section {
    Abbrev,
    Info,
}

impl Section {
    ghost use Rattle.dw_entries.specs.SectionTexts.{section_text};

    /// The section's name in the file.
    #[tactic(auto, unfolding(crate::specs::SectionTexts::section_text))]
    pub fn name(self) -> &'static str
        ensures { result.now ≡ section_text self }
    {
        match self {
            Section::Abbrev => ".debug_abbrev",
            Section::Info => ".debug_info",
        }
    }
}

/// The first broken rule: its place in the section, and the attribute (0 for none). For a type that
/// contains itself the cycle has the offsets of the entries, the first of them also last.
#[derive(Debug, Drop)]
pub struct Fault {
    pub rule: Rule,
    pub section: Section,
    pub at: u32,
    pub attribute: u16,
    pub cycle: Vec<u32>,
}

/// The rule that an item of a unit breaks, and the attribute whose value breaks it (0 for none).
#[derive(Clone, Copy, Debug, PartialEq, Eq)]
pub struct Failing {
    pub rule: Rule,
    pub attribute: u16,
}

/// A broken rule, its place in the section, and the attribute (0 for none).
#[derive(Clone, Copy, Debug, PartialEq, Eq)]
pub struct PlainFault {
    pub rule: Rule,
    pub section: Section,
    pub at: u32,
    pub attribute: u16,
}

impl PlainFault {
    /// The fault that names this rule. It has no cycle.
    pub fn into_fault(self, alloc: Global) -> Fault
        ensures { IsPlainFault (λ broken. broken ≡ self) result }
    {
        Fault {
            rule: self.rule,
            section: self.section,
            at: self.at,
            attribute: self.attribute,
            cycle: Vec::new(alloc),
        }
    }
}

impl From<Fault> for Stop<Fault> {
    ghost from_gives = { λ fault e. e ≡ Faulty fault };

    fn from(fault: Fault) -> Stop<Fault> {
        Stop::Fault(fault)
    }
}
