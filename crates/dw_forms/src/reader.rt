//! The bytes and numbers that headers and lists are made of. Each reader moves past what it reads.

ghost use Rattle.std.specs.Prelude.{◌≡◌, ◌≤◌, ◌<◌, length, IfOk};
ghost use Rattle.dw_forms.specs.BaseFormats.{byte as byte_format, fixed_number, number_fault, so_many};
ghost use Rattle.dw_forms.specs.BaseFormats.{sleb_or, uleb_or};
ghost use Rattle.dw_forms.specs.ValueReading.{Gives};

use crate::leb::{NumberFault, read_sleb, read_uleb};
use byteorder::{ByteOrder, LittleEndian};

/// So many bytes. `cut` is the fault if there are fewer; so in what follows.
#[inline(always)]
#[tactic(auto, unfolding(crate::specs::BaseFormats::taken_at))]
pub fn take_bytes<'a, F: Copy>(cut: F, size: u64, bytes: &mut &'a [u8]) -> Result<&'a [u8], F>
    ensures { Gives (λ x. (x.now, bytes.new.now)) result ((so_many cut size).read bytes.old.now) }
{
    bytes.split_off(..size as usize).ok_or(cut)
}

/// One byte.
#[inline(always)]
pub fn take_byte<F: Copy>(cut: F, bytes: &mut &[u8]) -> Result<u8, F>
    ensures exact { Gives (λ x. (x, bytes.new.now)) result ((byte_format cut).read bytes.old.now) }
    ensures shorter { IfOk result (λ _. length bytes.new.now < length bytes.old.now) }
{
    bytes.split_off_first().copied().ok_or(cut)
}

/// A number of so many bytes, the lowest first.
#[inline(always)]
#[tactic(auto, unfolding(crate::specs::BaseFormats::taken_at))]
pub fn take_number<F: Copy>(cut: F, size: u8, bytes: &mut &[u8]) -> Result<u64, F>
    requires some { 1 ≤ size }
    requires few { size ≤ 8 }
    ensures exact { Gives (λ x. (x, bytes.new.now)) result ((fixed_number cut size).read bytes.old.now) }
    ensures shorter { IfOk result (λ _. length bytes.new.now < length bytes.old.now) }
{
    let front = take_bytes(cut, u64::from(size), bytes)?;
    Ok(LittleEndian::read_uint(front, usize::from(size)))
}

/// A number of four bytes, the lowest first: a length or an offset of 32-bit DWARF.
#[inline(always)]
#[tactic(auto, unfolding(crate::specs::BaseFormats::taken_at))]
pub fn take_offset<F: Copy>(cut: F, bytes: &mut &[u8]) -> Result<u32, F>
    ensures exact { Gives (λ x. (x, bytes.new.now)) result ((fixed_number cut 4).read bytes.old.now) }
    ensures shorter { IfOk result (λ _. length bytes.new.now < length bytes.old.now) }
{
    let front = take_bytes(cut, 4, bytes)?;
    Ok(LittleEndian::read_u32(front))
}

/// The fault of a number that the bytes end in, or that is too long.
fn number_fault<F: Copy>(cut: F, long: F, fault: NumberFault) -> F
    ensures { result ≡ number_fault cut long fault }
{
    match fault {
        NumberFault::Cut => cut,
        NumberFault::BadNumber => long,
    }
}

/// An unsigned LEB128 number. `long` is the fault if it has more than 10 bytes or more than 64 bits.
#[inline(always)]
pub fn take_uleb<F: Copy>(cut: F, long: F, bytes: &mut &[u8]) -> Result<u64, F>
    ensures exact { Gives (λ x. (x, bytes.new.now)) result ((uleb_or cut long).read bytes.old.now) }
    ensures shorter { IfOk result (λ _. length bytes.new.now < length bytes.old.now) }
{
    let (number, len) = read_uleb(bytes).map_err(|fault| number_fault(cut, long, fault))?;
    *bytes = &bytes[len..];
    Ok(number)
}

/// A signed LEB128 number, with the same faults.
#[inline(always)]
pub fn take_sleb<F: Copy>(cut: F, long: F, bytes: &mut &[u8]) -> Result<i64, F>
    ensures exact { Gives (λ x. (x, bytes.new.now)) result ((sleb_or cut long).read bytes.old.now) }
    ensures shorter { IfOk result (λ _. length bytes.new.now < length bytes.old.now) }
{
    let (number, len) = read_sleb(bytes).map_err(|fault| number_fault(cut, long, fault))?;
    *bytes = &bytes[len..];
    Ok(number)
}
