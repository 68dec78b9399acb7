//! A range of addresses (DWARF 5, 2.17.3).

ghost use Rattle.std.specs.Prelude.{◌≡◌};
ghost use Rattle.dw_ranges.specs.Addresses.{greatest_address as greatest, bounded as bounded_range};

use crate::rule::RangeRule;

/// The addresses from `low` on and below `high`. There are none if both are the same.
#[derive(Clone, Copy, Debug, PartialEq, Eq)]
pub struct Range {
    pub low: u64,
    pub high: u64,
}

/// The greatest address of so many bytes.
pub(crate) fn greatest_address(address_size: u8) -> u64
    ensures { result ≡ greatest address_size }
{
    if address_size == 8 {
        0xffff_ffff_ffff_ffff
    } else {
        0xffff_ffff
    }
}

/// The range between two addresses.
pub(crate) fn bounded(address_size: u8, low: u64, high: u64) -> Result<Range, RangeRule>
    ensures { result ≡ bounded_range address_size low high }
{
    if low <= high && high <= greatest_address(address_size) {
        return Ok(Range { low, high });
    }
    Err(RangeRule::BadRange)
}
