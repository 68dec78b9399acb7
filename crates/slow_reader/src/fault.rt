//! The first rule that is broken, and its line in a report.

use std::fmt;

/// The first rule that is broken, by its code and name, and where.
#[derive(Clone, Copy, Debug, PartialEq, Eq)]
pub enum Fault {
    /// A rule of the file, and the number of a section header, or 0.
    File {
        rule: &'static str,
        header: u64,
    },
    /// A rule of a section's bytes, their offset, and an attribute, or 0.
    Section {
        rule: &'static str,
        section: &'static str,
        at: u64,
        attribute: u64,
    },
}

impl Fault {
    pub(crate) fn in_abbrev(rule: &'static str, at: u64, attribute: u64) -> Fault {
        Fault::Section {
            rule,
            section: ".debug_abbrev",
            at,
            attribute,
        }
    }

    pub(crate) fn in_info(rule: &'static str, at: u64, attribute: u64) -> Fault {
        Fault::Section {
            rule,
            section: ".debug_info",
            at,
            attribute,
        }
    }
}

impl fmt::Display for Fault {
    fn fmt<W: fmt::Write>(&self, f: &mut fmt::Formatter<W>) -> fmt::Result {
        match self {
            Fault::File { rule, header } => write!(f, "fault {rule} at section {header}"),
            Fault::Section {
                rule,
                section,
                at,
                attribute,
            } => write!(
                f,
                "fault {rule} at {section}+0x{at:08x} attribute 0x{attribute:x}"
            ),
        }
    }
}
