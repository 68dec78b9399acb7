//! LEB128 numbers (DWARF 5, 7.6).

ghost use Rattle.std.specs.Prelude.{◌≡◌, ◌≤◌, ◌<◌, ◌^◌, IfOk, IfErr, OnErr, OnOk};
ghost use Rattle.dw_forms.specs.Front.{BeginsWith, BeginsWithNone};
ghost use Rattle.dw_forms.specs.Leb.{Uleb, UlebFails, Sleb, SlebFails};
ghost use Rattle.dw_forms.specs.LebReading.{spelling_at, signed_of, uleb_at, sleb_at};

/// Why there is no number at the front.
#[derive(Clone, Copy, Debug, PartialEq, Eq)]
pub enum NumberFault {
    /// The bytes end inside the number.
    Cut,
    /// The number has more than 10 bytes, or more than 64 bits.
    BadNumber,
}

/// The bytes of one number: the sum of their low seven bits by place, the last byte, and how many.
#[derive(Clone, Copy)]
struct Spelling {
    sum: u128,
    last: u8,
    len: usize,
}

/// The bytes of the number at the front.
fn read_spelling(bytes: &[u8]) -> Result<Spelling, NumberFault>
    ensures exact { result ≡ spelling_at bytes.now }
    ensures within { IfOk result (λ s. s.len ≤ 10) }
    ensures bits { IfOk result (λ s. s.sum < 2 ^ 70) }
{
    let mut sum = 0u128;
    for (place, byte) in bytes.iter().enumerate() {
        sum += u128::from(*byte & 0x7f) << (7 * place);
        if *byte < 0x80 {
            return Ok(Spelling {
                sum,
                last: *byte,
                len: place + 1,
            });
        }
        if place == 9 {
            return Err(NumberFault::BadNumber);
        }
    }
    Err(NumberFault::Cut)
}

/// A number of more bytes, or none.
#[tactic(auto, unfolding(crate::specs::LebReading::uleb_at))]
fn long_uleb(bytes: &[u8]) -> Result<(u64, usize), NumberFault>
    ensures exact { result ≡ uleb_at bytes.now }
    ensures within { IfOk result (λ r. r.1 ≤ 10) }
{
    let spelling = read_spelling(bytes)?;
    let number = u64::try_from(spelling.sum).map_err(|_| NumberFault::BadNumber)?;
    Ok((number, spelling.len))
}

/// The most bytes of a number.
const LONGEST: usize = 10;

/// How many bytes a number of more bytes has, or one more than the most if there is none. These three return one word
/// each, so that no caller has a result in memory.
#[cold]
#[inline(never)]
fn long_len(bytes: &[u8]) -> usize
    ensures found { IfOk (uleb_at bytes.now) (λ r. result ≡ r.1) }
    ensures within { OnOk (uleb_at bytes.now) (result ≤ 10) }
    ensures none { OnErr (uleb_at bytes.now) (10 < result) }
{
    match long_uleb(bytes) {
        Ok((_, len)) => len,
        Err(_) => LONGEST + 1,
    }
}

/// A number of more bytes, or 0 if there is none.
#[cold]
#[inline(never)]
fn long_number(bytes: &[u8]) -> u64
    ensures { IfOk (uleb_at bytes.now) (λ r. result ≡ r.0) }
{
    match long_uleb(bytes) {
        Ok((number, _)) => number,
        Err(_) => 0,
    }
}

/// Why there is none.
#[cold]
#[inline(never)]
fn long_fault(bytes: &[u8]) -> NumberFault
    ensures { IfErr (uleb_at bytes.now) (λ fault. result ≡ fault) }
{
    match long_uleb(bytes) {
        Ok(_) => NumberFault::BadNumber,
        Err(fault) => fault,
    }
}

/// Most numbers have one byte or two.
fn uleb(bytes: &[u8]) -> Result<(u64, usize), NumberFault>
    ensures { result ≡ uleb_at bytes.now }
{
    match bytes {
        [byte, ..] if *byte < 0x80 => Ok((u64::from(*byte), 1)),
        [low, high, ..] if *high < 0x80 => {
            Ok((u64::from(*low & 0x7f) + 128 * u64::from(*high), 2))
        }
        _ => {
            let len = long_len(bytes);
            if len > LONGEST {
                return Err(long_fault(bytes));
            }
            Ok((long_number(bytes), len))
        }
    }
}

/// The sum, less 128 to the power of the number of bytes where bit 6 of the last byte is set.
fn signed(spelling: Spelling) -> i128
    requires within { spelling.len ≤ 10 }
    requires bits { spelling.sum < 2 ^ 70 }
    ensures { result ≡ signed_of spelling }
{
    let sum = spelling.sum as i128;
    if spelling.last < 0x40 {
        return sum;
    }
    sum - (1i128 << (7 * spelling.len))
}

/// A number with its sign, where it has 64 bits.
#[tactic(auto, unfolding(crate::specs::LebReading::sleb_at))]
fn sleb(bytes: &[u8]) -> Result<(i64, usize), NumberFault>
    ensures { result ≡ sleb_at bytes.now }
{
    let spelling = read_spelling(bytes)?;
    let number = i64::try_from(signed(spelling)).map_err(|_| NumberFault::BadNumber)?;
    Ok((number, spelling.len))
}

/// Reads the unsigned number at the front, and how many bytes it takes. Bytes may follow it, and longer spellings
/// of a small number are numbers too.
#[inline(always)]
pub fn read_uleb(bytes: &[u8]) -> Result<(u64, usize), NumberFault>
    // These bytes spell this number, and no others at the front spell any.
    ensures found { IfOk result (λ r. BeginsWith Uleb bytes.now r.0 r.1) }
    ensures none { OnErr result (BeginsWithNone Uleb bytes.now) }
    ensures fault { IfErr result (UlebFails bytes.now) }
    // For callers that reason by steps.
    ensures exact { result ≡ uleb_at bytes.now }
{
    uleb(bytes)
}

/// Reads the signed number at the front, and how many bytes it takes. Bytes may follow it, and longer spellings of
/// a small number are numbers too.
pub fn read_sleb(bytes: &[u8]) -> Result<(i64, usize), NumberFault>
    // These bytes spell this number, and no others at the front spell any.
    ensures found { IfOk result (λ r. BeginsWith Sleb bytes.now r.0 r.1) }
    ensures none { OnErr result (BeginsWithNone Sleb bytes.now) }
    ensures fault { IfErr result (SlebFails bytes.now) }
    // For callers that reason by steps.
    ensures exact { result ≡ sleb_at bytes.now }
{
    sleb(bytes)
}
