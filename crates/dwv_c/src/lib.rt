//! The verifier as a static library for C: the bytes of a file in, a verdict in the caller's memory out.
//! `include/dwv.h` declares the six calls. A slice crosses as a pointer and a length, a struct as a pointer, and the
//! allocator as nothing. No call keeps anything after it returned.
#![tactic(auto)]

mod exports;
mod frame_rows;
mod frames;
mod meaning;
mod places;
mod table;
mod table_rows;
mod values;
mod verdict;

pub use exports::{
    dwv_check, dwv_check_sections, dwv_frames, dwv_report, dwv_table, dwv_table_sections,
};
pub use frame_rows::{FrameCounts, FrameRow, Located};
pub use meaning::ValueRow;
pub use table_rows::{EntryRow, TableCounts, UnitRow};
pub use verdict::{Verdict, texts_fit};
