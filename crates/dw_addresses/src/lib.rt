//! What is at an address of a program: the line programs of the units of a file, and the files that their entries name.
#![tactic(auto)]

mod fault;
mod file_path;
mod files;
mod frame;
mod frames;
mod line_index;
mod lines;
mod lines_reader;
mod named;
mod names;
mod programs;
mod sequence;

pub use fault::LinesFault;
pub use file_path::push_path;
pub use frame::{Frame, Place};
pub use frames::frames_at;
pub use line_index::LineIndex;
pub use lines::FileLines;
pub use lines_reader::lines_of_file;
pub use names::{directory_of_unit, function_name};
