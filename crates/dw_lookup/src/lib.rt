//! What look-ups by address are made from: the sections, the code, the lines and the functions of a file, or the first
//! rule that it violates.
#![tactic(auto)]

mod first_fault;
mod known;
mod parts;
mod places;
mod reading;
mod sources;

pub use first_fault::FirstFault;
pub use known::Known;
pub use parts::Parts;
pub use places::{column_of, line_of};
pub use reading::{look_up, sources_of};
pub use sources::Sources;
