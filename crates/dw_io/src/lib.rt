//! What the programs read and write: arguments, bytes up to a limit, and texts, with the calls that failed counted.
#![tactic(auto)]

mod arguments;
mod device;
mod transfer;

pub use arguments::{ArgumentFault, after_name};
pub use device::{Device, Sink, Source};
pub use transfer::{RunFault, read_all, read_input, write_all, write_text};
