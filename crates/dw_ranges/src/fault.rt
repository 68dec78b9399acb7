//! Why a range list is not read.

use crate::rule::RangeRule;

/// The first rule that a range list violates, and where.
#[derive(Clone, Copy, Debug, PartialEq, Eq)]
pub struct ListFault {
    pub rule: RangeRule,
    /// The offset in the section: that of the list for rule X3, and of the entry of the list for X4 to X7.
    pub at: usize,
}

/// The first rule that the ranges of an entry violate, and the entry.
#[derive(Clone, Copy, Debug, PartialEq, Eq)]
pub struct RangeFault {
    pub rule: RangeRule,
    /// The offset of the entry in .debug_info, in bytes.
    pub at: u32,
}
