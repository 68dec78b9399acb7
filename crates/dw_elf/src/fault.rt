//! The fault that names the rule that a file violates.

use crate::rule::ElfRule;

/// The first check that a file fails.
#[derive(Clone, Copy, Debug, PartialEq, Eq)]
pub struct ElfFault {
    /// The rule that the file violates.
    pub rule: ElfRule,
    /// The number of the section header that violates it, from 1 on, or 0 for a rule of the whole file:
    /// `NotElf64`, `NotLinked`, `SectionTable` and `NoInfo`.
    pub section: u16,
}

/// A section has more than `SECTION_LIMIT` bytes.
#[derive(Clone, Copy, Debug, PartialEq, Eq)]
pub struct TooLarge;
