//! The contributions of units to `.debug_addr` and `.debug_rnglists` (DWARF 5, 7.27 and 7.28).

ghost use Rattle.dw_forms.specs.ValueReading.{Gives};
ghost use Rattle.dw_ranges.specs.Contributions.{contribution as contribution_format};
ghost use Rattle.dw_ranges.specs.Contributions.{header_fields as fields_format, contribution_at as content_at};
ghost use Rattle.dw_ranges.specs.Contributions.{list_in as list_among, indexed_list as list_with_index};

use crate::rule::RangeRule;
use dw_forms::{take_bytes, take_number};

/// The version, the size of an address and the size of a segment selector.
#[tactic(auto, unfolding(crate::specs::Contributions::header_fields))]
fn header_fields(address_size: u8, bytes: &mut &[u8]) -> Result<(), RangeRule>
    ensures { Gives (λ _. (address_size, bytes.new.now)) result ((fields_format address_size).read bytes.old.now) }
{
    let version = take_number(RangeRule::NoList, 2, bytes)?;
    let own_size = take_number(RangeRule::NoList, 1, bytes)?;
    let segment = take_number(RangeRule::NoList, 1, bytes)?;
    if version == 5 && own_size == address_size as u64 && segment == 0 {
        return Ok(());
    }
    Err(RangeRule::NoList)
}

/// The content of the contribution whose header is at the front: the bytes after the header, as many as its length
/// says.
#[tactic(auto, unfolding(crate::specs::Contributions::contribution))]
fn contribution<'a>(address_size: u8, bytes: &mut &'a [u8]) -> Result<&'a [u8], RangeRule>
    ensures { Gives (λ x. (x.now, bytes.new.now)) result ((contribution_format address_size).read bytes.old.now) }
{
    let length = take_number(RangeRule::NoList, 4, bytes)?;
    if length >= 0xffff_fff0 {
        return Err(RangeRule::NoList);
    }
    let mut content = take_bytes(RangeRule::NoList, length, bytes)?;
    header_fields(address_size, &mut content)?;
    Ok(content)
}

/// The content of the contribution that starts so many bytes before an offset of a section.
pub(crate) fn contribution_at(
    address_size: u8,
    section: &[u8],
    base: usize,
    before: usize,
) -> Result<&[u8], RangeRule>
    ensures { Gives (λ x. x.now) result (content_at address_size section.now base before) }
{
    if base < before || section.len() < base {
        return Err(RangeRule::NoList);
    }
    contribution(address_size, &mut &section[base - before..])
}

/// The list with an index among the offsets at the front of some bytes, which count from there.
#[tactic(auto, unfolding(crate::specs::Contributions::list_in))]
fn list_in(index: u64, count: u64, bytes: &[u8]) -> Result<(&[u8], usize), RangeRule>
    ensures { Gives (λ x. (x.0.now, x.1)) result (list_among index count bytes.now) }
{
    if index < count && count <= bytes.len() as u64 / 4 {
        let offset = take_number(RangeRule::NoList, 4, &mut &bytes[4 * index as usize..])?;
        return Ok((bytes, offset as usize));
    }
    Err(RangeRule::NoList)
}

/// Where the list with an index is that a unit with this base names: the bytes from which its offset counts, and that
/// offset (DWARF 5, 7.28).
#[tactic(auto, unfolding(crate::specs::Contributions::indexed_list))]
pub(crate) fn indexed_list(
    address_size: u8,
    section: &[u8],
    base: usize,
    index: u64,
) -> Result<(&[u8], usize), RangeRule>
    ensures { Gives (λ x. (x.0.now, x.1)) result (list_with_index address_size section.now base index) }
{
    let mut content = contribution_at(address_size, section, base, 12)?;
    let count = take_number(RangeRule::NoList, 4, &mut content)?;
    list_in(index, count, content)
}
