//! The addresses of a unit's contribution to `.debug_addr` (DWARF 5, 7.27).

ghost use Rattle.std.specs.Prelude.{◌≡◌, ◌≤◌};
ghost use Rattle.dw_ranges.specs.Addresses.{indexed as indexed_address};

use crate::rule::RangeRule;
use byteorder::{ByteOrder, LittleEndian};

/// The address in the slot with an index, or the rule that is violated if there is none.
#[tactic(auto, unfolding(crate::specs::Addresses::indexed))]
pub(crate) fn indexed(address_size: u8, slots: &[u8], index: u64) -> Result<u64, RangeRule>
    requires some { 1 ≤ address_size }
    requires few { address_size ≤ 8 }
    ensures { result ≡ indexed_address address_size slots.now index }
{
    let size = usize::from(address_size);
    if index < (slots.len() / size) as u64 {
        let at = size * index as usize;
        return Ok(LittleEndian::read_uint(&slots[at..], size));
    }
    Err(RangeRule::RangeIndex)
}
