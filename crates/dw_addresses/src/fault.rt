//! Why the lines of a file are not those of a valid one.

use dw_entries::Attribute;
use dw_lines::LineFault;

/// The first rule on the lines of a file that is violated, and where.
#[derive(Clone, Copy, Debug, PartialEq, Eq)]
pub struct LinesFault {
    pub fault: LineFault,
    /// The attribute, for the rule F1. 0 for the others.
    pub attribute: Attribute,
}
