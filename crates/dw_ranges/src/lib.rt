//! The ranges of entries (DWARF 5, 2.17), and range lists (2.17.3 and 7.25; DWARF 4, 2.17.3).
#![tactic(auto)]

mod addresses;
mod areas;
mod bounds;
mod code;
mod contribution;
mod fault;
mod file;
mod file_reader;
mod functions;
mod laws;
mod list;
mod list_entry;
mod live;
mod range;
mod rule;
mod slots;
mod spans;
mod totals;
mod unit;
mod unit_functions;
mod unit_ranges;

pub use addresses::UnitAddresses;
pub use areas::{area_at, covers, join};
pub use bounds::{RangeSections, ranges_of_values};
pub use code::{code_of_entry, contain};
pub use fault::{ListFault, RangeFault};
pub use file::{FileFunctions, UnitSpans};
pub use file_reader::functions_of_file;
pub use functions::{Buffers, Inside, UnitFunctions};
pub use laws::{
    areas_are_unique, functions_are_one_chain, functions_are_unique,
    functions_of_a_file_are_unique, functions_of_a_unit_are_one_chain, range_lists_are_apart,
    ranges_are_bounded,
};
pub use list::read_list;
pub use live::{is_live, keep_live};
pub use range::Range;
pub use rule::RangeRule;
pub use spans::{Span, function_at, functions_at, order};
pub use totals::{RangeCounts, Totals};
pub use unit::ranges_of_entry;
pub use unit_functions::functions_of_unit;
pub use unit_ranges::{UnitRange, first_units, unit_at};
