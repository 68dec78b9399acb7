//! The six DWARF sections of a linked ELF-64 little-endian file, and others for those who ask, lent from its bytes.
#![tactic(auto)]

mod code;
mod fault;
mod finding;
mod header;
mod rule;
mod section_table;
mod sections;

pub use crate::code::{Code, code_at, header_count};
pub use crate::fault::{ElfFault, TooLarge};
pub use crate::finding::{find, find_other, one_fault, one_section, section_start};
pub use crate::rule::ElfRule;
pub use crate::section_table::end_of_texts;
pub use crate::sections::{DebugSection, OtherSection, Sections};

/// The most bytes that a section may have: 1 GiB.
pub const SECTION_LIMIT: usize = 1_073_741_824;
