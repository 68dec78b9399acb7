//! A second reader of ELF files, abbreviation tables, units and entries, written apart from the crates of `dwv` to test
//! them. It finds the first of the rules E, A, U and G that a file violates, and where. It is slow: it keeps nothing in
//! memory, and reads earlier bytes again when it needs them. E1 of the whole file is left out.
#![tactic(auto)]

mod abbrev;
mod elf;
mod fault;
mod info;
mod leb;
mod rest;
mod value;

pub use elf::{Sections, find_sections};
pub use fault::Fault;
pub use info::check_sections;

/// The first fault of a file.
pub fn check_file(file: &[u8]) -> Result<(), Fault> {
    let sections = find_sections(file)?;
    check_sections(sections.abbrev, sections.info)
}
