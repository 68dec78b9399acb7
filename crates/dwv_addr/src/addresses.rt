//! The addresses that are looked up, as words of the command line and lines of standard input.

ghost use Rattle.std.specs.Prelude.{◌≡◌, ◌≢◌, ◌<◌, ◌≤◌, ◌∷◌, [], length, map, IfOk};
ghost use Rattle.dwv_addr.specs.Addresses.{address_in, lines_of, number_in};

use memchr::memchr;
use std::alloc::{AllocError, Global};

/// The number that hexadecimal digits write, if they are nothing else.
fn number_of(digits: &[u8]) -> Option<u64>
    requires { length digits.now ≤ 16 }
    ensures { result ≡ number_in digits.now }
{
    let mut number: u64 = 0;
    for digit in digits {
        let value = char::from(*digit).to_digit(16)?;
        number = number * 16 + u64::from(value);
    }
    Some(number)
}

/// The address that a word is: 1 to 16 hexadecimal digits, with or without `0x` before them.
#[tactic(auto, unfolding(crate::specs::Addresses::address_in))]
pub fn address_of(word: &[u8]) -> Option<u64>
    ensures { result ≡ address_in word.now }
{
    let digits = match word.strip_prefix(b"0x") {
        Some(digits) => digits,
        None => word,
    };
    if digits.is_empty() || digits.len() > 16 {
        return None;
    }
    number_of(digits)
}

/// The first line of a text, and what follows its line feed.
fn first_line(text: &[u8]) -> (&[u8], &[u8])
    requires { 0 < length text.now }
    ensures line { lines_of text.now ≡ result.0.now ∷ lines_of result.1.now }
    ensures shorter { length result.1.now < length text.now }
{
    match memchr(b'\n', text) {
        Some(at) => (&text[..at], &text[at + 1..]),
        None => (text, &[]),
    }
}

/// The address that each line of a text is, or that it is none.
pub fn addresses_in(alloc: Global, text: &[u8]) -> Result<Vec<Option<u64>>, AllocError>
    ensures { IfOk result (λ found. found.items ≡ map address_in (lines_of text.now)) }
{
    let mut found = Vec::new(alloc);
    let mut rest = text;
    'lines: while !rest.is_empty() {
        let (line, after) = first_line(rest);
        found.push(address_of(line))?;
        rest = after;
    }
    Ok(found)
}
