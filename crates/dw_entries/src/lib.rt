//! The entries of .debug_info: units, each a header, a tree of entries and nulls.
#![tactic(auto)]

mod cursor;
mod entries;
mod entry;
mod fault;
mod header;
mod id;
mod item;
mod laws;
mod leads;
mod led;
mod records;
mod scanning;
mod starts;
mod tree;
mod units;
mod values;

pub use cursor::Cursor;
pub use dw_elf::Sections;
pub use dw_forms::{Attribute, Rule, Stop, Tag, Value, constants};
pub use entries::Entries;
pub use entry::{EntryAt, EntryHead, Head};
pub use fault::{Fault, PlainFault, Section};
pub use header::{HeaderKind, UnitHeader, UnitType, read_header};
pub use id::{EntryId, OptionalId};
pub use laws::{no_list, offsets_rise, one_fault, one_list};
pub use leads::Leading;
pub use led::Led;
pub use scanning::scan;
pub use units::{UnitHead, Units};
pub use values::Values;
