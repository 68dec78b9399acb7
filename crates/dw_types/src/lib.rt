//! Graphs of steps and their order; steps by value between types; counts of dimensions; sizes of types.
#![tactic(auto)]

mod by_value;
mod children;
mod count;
mod firsts;
mod flags;
mod graph;
mod kind;
mod linked;
mod measuring;
mod numbers;
mod ordering;
mod shape_rules;
mod size_rules;
mod size_table;
mod walk;

pub use by_value::ByValue;
pub use children::Children;
pub use count::count_at;
pub use dw_entries::constants;
pub use dw_links::Constant;
pub use flags::{Flags, SizeFlags};
pub use graph::{Order, Packed, StepGraph};
pub use measuring::{sizes, sizes_with};
pub use numbers::{NoMemory, Numbers};
pub use ordering::{OrderFault, clear_nodes, longest_at, longest_rows, order};
pub use size_rules::container_has_its_own_size;
pub use size_table::SizeTable;
