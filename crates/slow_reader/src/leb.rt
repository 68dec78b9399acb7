//! LEB128 numbers (DWARF 5, 7.6).

use crate::rest::Rest;

/// Why there is no value at the front.
#[derive(Clone, Copy, Debug, PartialEq, Eq)]
pub(crate) enum Failure {
    /// The bytes end inside it.
    Cut,
    /// A LEB128 number of more than 10 bytes or 64 bits.
    BadNumber,
    /// An indirect value names a form that it may not.
    BadIndirect,
}

/// The LEB128 number at the front, up to the first byte below 128, and the rest.
fn spelling<'a>(rest: Rest<'a>) -> Result<(Rest<'a>, Rest<'a>), Failure> {
    for length in 1..=10 {
        let Some((front, back)) = rest.split(length) else {
            return Err(Failure::Cut);
        };
        if front.bytes.last().is_some_and(|byte| *byte < 128) {
            return Ok((front, back));
        }
    }
    Err(Failure::BadNumber)
}

fn unsigned_value(spelling: &[u8]) -> Option<u64> {
    let mut value = 0u64;
    for byte in spelling.iter().rev() {
        value = value.checked_mul(128)?.checked_add(u64::from(*byte % 128))?;
    }
    Some(value)
}

fn signed_value(spelling: &[u8]) -> Option<i64> {
    let is_negative = spelling.last().is_some_and(|byte| *byte % 128 >= 64);
    let mut value = if is_negative { -1i64 } else { 0 };
    for byte in spelling.iter().rev() {
        value = value.checked_mul(128)?.checked_add(i64::from(*byte % 128))?;
    }
    Some(value)
}

/// The unsigned number at the front, and the rest.
pub(crate) fn unsigned<'a>(rest: Rest<'a>) -> Result<(u64, Rest<'a>), Failure> {
    let (front, back) = spelling(rest)?;
    match unsigned_value(front.bytes) {
        Some(value) => Ok((value, back)),
        None => Err(Failure::BadNumber),
    }
}

/// The rest after the signed number at the front.
pub(crate) fn after_signed<'a>(rest: Rest<'a>) -> Result<Rest<'a>, Failure> {
    let (front, back) = spelling(rest)?;
    match signed_value(front.bytes) {
        Some(_) => Ok(back),
        None => Err(Failure::BadNumber),
    }
}
