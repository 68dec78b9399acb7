//! Line programs (DWARF 5, 6.2; DWARF 4, 6.2): their headers, the files that they name, and the rows that they make.
#![tactic(auto)]

mod program;
mod program_reader;
mod row;
mod rows;
mod rule;
mod tables;

pub use program::{FileEntry, Files, LineHeader, LinePath, LineSections, Parameters, Program};
pub use program_reader::{programs_are_apart, read_program};
pub use row::Row;
pub use rows::{Rows, rows_obey_the_rules};
pub use rule::{LineFault, LineRule};
