//! The counts of sound sections or their first fault, with the memory of one batch of units if that suffices.
#![tactic(auto)]

mod batches;
mod checking;
mod counts;

pub use checking::{Found, check, first_of_units, trees_of_units, units_join};
pub use counts::Counts;
