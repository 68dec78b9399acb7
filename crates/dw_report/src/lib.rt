//! The text for a request over the bytes of a file, and how the request ends.
#![tactic(auto)]

mod json;
mod lines;
mod reporting;
mod request;
mod shown;

pub use dw_image::NoMemory;
pub use json::{put_elf_fault_object, put_fault_object, put_object_line, put_place_object};
pub use lines::{put_elf_fault_line, put_fault_lines, put_place_line};
pub use reporting::{Answer, longest_file, report};
pub use request::{Request, Status};
pub use shown::size_of_entry;
