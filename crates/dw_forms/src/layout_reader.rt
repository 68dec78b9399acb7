//! Reading a value by its layout (DWARF 5, 7.5.6): first what its bytes hold, then the value, one function a layout.

ghost use Rattle.std.specs.Prelude.{◌≡◌, ◌+◌, ◌≤◌, ◌⊎◌, length, drop, IfOk};
ghost use Rattle.dw_forms.specs.Value.{counted as counted_layout, leb_counted as leb_layout, block as block_datum};
ghost use Rattle.dw_forms.specs.Value.{signed_leb, signed};
ghost use Rattle.dw_forms.specs.ValueReading.{Gives, GivesIn, fixed_at, block_at, counted_at, leb_counted_at, ended_at};

use crate::leb::{read_sleb, read_uleb};
use crate::value::{Value, ValueFault};
use byteorder::{ByteOrder, LittleEndian};
use memchr::memchr;

/// The number in the first bytes, lowest first.
#[tactic(auto, unfolding(crate::specs::BaseFormats::taken_at))]
pub(crate) fn fixed(bytes: &[u8], size: usize) -> Result<u64, ValueFault>
    requires some { 1 ≤ size }
    requires few { size ≤ 8 }
    ensures within { IfOk result (λ _. size ≤ length bytes.now) }
    ensures exact { Gives (λ n. (n, drop size bytes.now)) result (fixed_at size bytes.now) }
{
    if bytes.len() < size {
        return Err(ValueFault::Cut);
    }
    Ok(LittleEndian::read_uint(&bytes[..size], size))
}

/// The number in an address. Each of the two sizes is read by one instruction.
pub(crate) fn address(bytes: &[u8], size: u8) -> Result<u64, ValueFault>
    requires { (size ≡ 4) ⊎ (size ≡ 8) }
    ensures within { IfOk result (λ _. size ≤ length bytes.now) }
    ensures exact { Gives (λ n. (n, drop size bytes.now)) result (fixed_at size bytes.now) }
{
    if size == 8 {
        fixed(bytes, 8)
    } else {
        fixed(bytes, 4)
    }
}

/// Reads the offset at the front, which has four bytes, the lowest first: the bytes of a value of DW_FORM_strp or
/// DW_FORM_ref4. Bytes may follow it. The error is `Cut` if there are fewer.
#[inline(always)]
#[tactic(auto, unfolding(crate::specs::BaseFormats::taken_at))]
pub fn read_offset(bytes: &[u8]) -> Result<u32, ValueFault>
    ensures within { IfOk result (λ _. 4 ≤ length bytes.now) }
    ensures exact { Gives (λ n. (n, drop 4 bytes.now)) result (fixed_at 4 bytes.now) }
{
    if bytes.len() < 4 {
        return Err(ValueFault::Cut);
    }
    Ok(LittleEndian::read_u32(&bytes[..4]))
}

/// As many bytes as a length says.
#[tactic(auto, unfolding(crate::specs::BaseFormats::taken_at))]
pub(crate) fn block(bytes: &[u8], len: u64) -> Result<&[u8], ValueFault>
    ensures within { IfOk result (λ _. len ≤ length bytes.now) }
    ensures whole { IfOk result (λ content. length content.now ≡ len) }
    ensures exact { Gives (λ content. (content.now, drop len bytes.now)) result (block_at len bytes.now) }
{
    if (bytes.len() as u64) < len {
        return Err(ValueFault::Cut);
    }
    Ok(&bytes[..len as usize])
}

/// The bytes before the first zero byte.
#[tactic(auto, unfolding(crate::specs::BaseFormats::null_terminated_at))]
pub(crate) fn text(bytes: &[u8]) -> Result<&[u8], ValueFault>
    ensures within { IfOk result (λ text. length text.now + 1 ≤ length bytes.now) }
    ensures exact { Gives (λ text. (text.now, drop (length text.now + 1) bytes.now)) result (ended_at bytes.now) }
{
    let Some(end) = memchr(0, bytes) else {
        return Err(ValueFault::Cut);
    };
    Ok(&bytes[..end])
}

/// As many bytes as a number of so many bytes says.
#[tactic(auto, unfolding(crate::specs::ValueFormats::counted_bytes))]
pub(crate) fn counted(bytes: &[u8], size: usize) -> Result<&[u8], ValueFault>
    requires some { 1 ≤ size }
    requires few { size ≤ 8 }
    ensures within { IfOk result (λ content. size + length content.now ≤ length bytes.now) }
    ensures exact { Gives (λ content. (content.now, drop (size + length content.now) bytes.now)) result
        (counted_at size bytes.now) }
{
    let len = fixed(bytes, size)?;
    block(&bytes[size..], len)
}

/// As many bytes as a LEB128 number says, and how many they are with that number.
#[tactic(auto, unfolding(crate::specs::ValueFormats::leb_counted_bytes, crate::specs::ValueFormats::leb_number))]
pub(crate) fn leb_counted(bytes: &[u8]) -> Result<(&[u8], usize), ValueFault>
    ensures within { IfOk result (λ x. x.1 ≤ length bytes.now) }
    ensures exact { Gives (λ x. (x.0.now, drop x.1 bytes.now)) result (leb_counted_at bytes.now) }
{
    let (len, before) = read_uleb(bytes)?;
    let content = block(&bytes[before..], len)?;
    Ok((content, before + content.len()))
}

/// A length of so many bytes, as many bytes, and how many bytes the value has.
#[tactic(auto, unfolding(crate::specs::ValueFormats::laid_out))]
pub(crate) fn counted_block(bytes: &[u8], size: usize) -> Result<(Value<'_>, usize), ValueFault>
    requires some { 1 ≤ size }
    requires few { size ≤ 8 }
    ensures within { IfOk result (λ x. x.1 ≤ length bytes.now) }
    ensures exact { GivesIn (counted_layout size block_datum) bytes.now result }
{
    let content = counted(bytes, size)?;
    Ok((Value::Block(content), size + content.len()))
}

/// A length as a LEB128 number, and as many bytes.
#[tactic(auto, unfolding(crate::specs::ValueFormats::laid_out))]
pub(crate) fn leb_block(bytes: &[u8]) -> Result<(Value<'_>, usize), ValueFault>
    ensures within { IfOk result (λ x. x.1 ≤ length bytes.now) }
    ensures exact { GivesIn (leb_layout block_datum) bytes.now result }
{
    let (content, len) = leb_counted(bytes)?;
    Ok((Value::Block(content), len))
}

/// A signed LEB128 number.
#[tactic(auto, unfolding(crate::specs::ValueFormats::laid_out, crate::specs::ValueFormats::signed_leb_number))]
pub(crate) fn leb_signed(bytes: &[u8]) -> Result<(Value<'_>, usize), ValueFault>
    ensures within { IfOk result (λ x. x.1 ≤ length bytes.now) }
    ensures exact { GivesIn (signed_leb signed) bytes.now result }
{
    let (number, len) = read_sleb(bytes)?;
    Ok((Value::Signed(number), len))
}
