//! The digits of numbers, in decimal and in hexadecimal.

ghost use Rattle.std.specs.Prelude.{◌≡◌, ◌<◌, ◌≤◌, ◌++◌, OnOk};
ghost use Rattle.std.specs.Fmt.{decimal};
ghost use Rattle.dw_cprint.specs.Digits.{hex_digit, numeral, places};

use std::alloc::AllocError;

/// Appends a number in decimal.
#[tactic(auto, using(crate::proofs::LexingLemmas::numeral_low, std::proofs::lemmas::Fmt::decimal_digit))]
pub fn put_decimal(text: &mut Vec<u8>, n: u128) -> Result<(), AllocError>
    ensures ok { OnOk result (text.new.items ≡ text.old.items ++ numeral n) }
    // The same in the word of std, which has a limit of digits.
    ensures same { OnOk result (text.new.items ≡ text.old.items ++ decimal n) }
{
    if n < 10 {
        return text.extend_from_slice(&[b'0' + n as u8]);
    }
    put_decimal(text, n / 10)?;
    text.extend_from_slice(&[b'0' + (n % 10) as u8])
}

/// The digit of a number below 16, in lower case.
#[inline]
fn digit_of(n: u32) -> u8
    requires { n < 16 }
    ensures { result ≡ hex_digit n }
{
    let n = n as u8;
    if n < 10 { b'0' + n } else { b'a' + (n - 10) }
}

/// The hexadecimal digits of a number.
#[inline]
fn eight_digits(n: u32) -> [u8; 8]
    ensures { result ≡ places 8 n }
{
    [
        digit_of(n / 0x1000_0000 % 16),
        digit_of(n / 0x100_0000 % 16),
        digit_of(n / 0x10_0000 % 16),
        digit_of(n / 0x1_0000 % 16),
        digit_of(n / 0x1000 % 16),
        digit_of(n / 0x100 % 16),
        digit_of(n / 0x10 % 16),
        digit_of(n % 16),
    ]
}

/// Appends the lowest hexadecimal digits of a number, so many of them.
#[inline]
#[tactic(auto, using(crate::proofs::LexingLemmas::low_digits))]
pub fn put_hex(text: &mut Vec<u8>, n: u32, count: usize) -> Result<(), AllocError>
    requires { count ≤ 8 }
    ensures ok { OnOk result (text.new.items ≡ text.old.items ++ places count n) }
{
    text.extend_from_slice(&eight_digits(n)[8 - count..])
}
