//! C declarations of entries: what is printed, what is refused and why, and the listing of all named types.
#![tactic(auto)]

mod digits;
mod dimensions;
mod enumerators;
mod fault;
mod judging;
mod laws;
mod lengths;
mod levels;
mod listing;
mod named;
mod names;
mod reaching;
mod refusals;
mod shape;
mod shape_reader;
mod source;
mod summary;
mod survey;
mod text;
mod words;
mod writing;

pub use digits::{put_decimal, put_hex};
pub use dw_image::{EntryId, Image, NoMemory};
pub use fault::PrintFault;
pub use laws::{
    declared_if_not_refused, held_types_come_first, one_reading, printed_ones_have_one_reading,
    shapes_reached_decide, text_in_parts, types_are_entries,
};
pub use listing::{Listing, declare, declare_all};
pub use source::Source;
pub use words::Text;
