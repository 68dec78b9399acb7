//! What the values of attributes refer to: strings, addresses and other entries.
#![tactic(auto)]

mod class;
mod constant;
mod contribution;
mod following;
mod laws;
mod linking;
mod links;
mod references;
mod string_spans;
mod strings;
mod tables;
mod targets;
mod texts;

pub use class::check_classes;
pub use constant::Constant;
pub use contribution::{base_in_unit, number};
pub use dw_forms::{Class, class_of_value};
pub use laws::{one_entry_is_reached, references_have_targets, strings_have_texts};
pub use links::{Links, link};
pub use string_spans::{StringSpan, Strings};
pub use strings::check_strings;
pub use tables::LinkTables;
pub use texts::{StringValue, TextPlace, string_from};
