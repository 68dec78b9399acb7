//! The verifier: what sections are found to be, and look-ups in those that are sound.
#![tactic(auto)]

mod image;
mod laws;
mod types;
mod verifying;

pub use dw_entries::{EntryId, Fault, Head, Rule, Section, Tag};
pub use dw_links::{StringSpan, StringValue, Strings, TextPlace, string_from};
pub use dw_types::{Children, NoMemory};
pub use image::Image;
pub use laws::{images_are_sound, one_first_fault, one_list, valid_has_no_fault};
pub use types::TypeId;
pub use verifying::{Verdict, verify, verify_before, verify_scanned};
