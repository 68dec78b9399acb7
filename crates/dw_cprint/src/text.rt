//! The parts of a declaration that every kind of type has: their text, and how many bytes it has.

ghost use Rattle.std.specs.Prelude.{◌≡◌, ◌∷◌, ◌++◌, ◌+◌, length, OnOk};
ghost use Rattle.dw_cprint.specs.Declarators.{comma, gap, pointer_row};
ghost use Rattle.dw_cprint.specs.Digits.{numeral};
ghost use Rattle.dw_cprint.specs.Kept.{Writes};
ghost use Rattle.dw_cprint.specs.Lengths.{capped, name_bytes, value_bytes};
ghost use Rattle.dw_cprint.specs.Shapes.{view_name};
ghost use Rattle.dw_cprint.specs.Tokens.{Blank, TagWord};
ghost use Rattle.dw_cprint.specs.Writing.{front_tokens, qualifying, name_tokens, value_tokens, bits_tokens};

use crate::digits::put_decimal;
use crate::words::{Name, Qualifier, TagKeyword};
use std::alloc::AllocError;

/// The most bytes of a declaration.
pub const LIMIT: usize = 65536;

/// Appends a text.
#[inline]
pub fn put(out: &mut Vec<u8>, text: &[u8]) -> Result<(), AllocError>
    ensures { OnOk result (out.new.items ≡ out.old.items ++ text.now) }
{
    out.extend_from_slice(text)
}

/// An enumerator's value in decimal.
pub fn put_value(out: &mut Vec<u8>, value: i128) -> Result<(), AllocError>
    ensures { OnOk result (Writes (value_tokens value) out.old.items out.new.items) }
{
    if value < 0 {
        put(out, b"-")?;
    }
    put_decimal(out, value.unsigned_abs())
}

/// A name, if there is one.
pub fn put_name(out: &mut Vec<u8>, name: Name<'_>) -> Result<(), AllocError>
    ensures { OnOk result (Writes (name_tokens (view_name name.entry)) out.old.items out.new.items) }
{
    match name {
        None => Ok(()),
        Some(name) => put(out, name.bytes),
    }
}

/// Each qualifier, followed by a space.
pub fn put_qualifiers(out: &mut Vec<u8>, qualifiers: &[Qualifier]) -> Result<(), AllocError>
    ensures { OnOk result (Writes (qualifying qualifiers.now) out.old.items out.new.items) }
{
    for qualifier in qualifiers {
        put(out, qualifier.text())?;
        put(out, b" ")?;
    }
    Ok(())
}

/// The qualifiers of a pointer, separated by spaces, and a space after them if a declarator follows.
pub fn put_joined(
    out: &mut Vec<u8>,
    qualifiers: &[Qualifier],
    inside: bool,
) -> Result<(), AllocError>
    ensures { OnOk result (Writes (pointer_row qualifiers.now inside) out.old.items out.new.items) }
{
    let last = qualifiers.len();
    for (i, qualifier) in qualifiers.iter().enumerate() {
        put(out, qualifier.text())?;
        if i + 1 < last || inside {
            put(out, b" ")?;
        }
    }
    Ok(())
}

/// A space, if a declarator follows.
pub fn put_gap(out: &mut Vec<u8>, inside: bool) -> Result<(), AllocError>
    ensures { OnOk result (Writes (gap inside) out.old.items out.new.items) }
{
    if inside {
        put(out, b" ")?;
    }
    Ok(())
}

/// A comma and a space, if others are before what follows.
pub fn put_comma(out: &mut Vec<u8>, others: bool) -> Result<(), AllocError>
    ensures { OnOk result (Writes (comma others) out.old.items out.new.items) }
{
    if others {
        put(out, b", ")?;
    }
    Ok(())
}

/// A word before a tag, and the tag.
pub fn put_tag(out: &mut Vec<u8>, tag: TagKeyword, name: Name<'_>) -> Result<(), AllocError>
    ensures { OnOk result (Writes (TagWord tag ∷ Blank ∷ name_tokens (view_name name.entry))
        out.old.items out.new.items) }
{
    put(out, tag.text())?;
    put(out, b" ")?;
    put_name(out, name)
}

/// The word before a body, and a name, each with a space after it.
pub fn put_front(out: &mut Vec<u8>, tag: TagKeyword, name: Name<'_>) -> Result<(), AllocError>
    ensures { OnOk result (Writes (TagWord tag ∷ Blank ∷ front_tokens (view_name name.entry))
        out.old.items out.new.items) }
{
    put_tag(out, tag, name)?;
    put_gap(out, name.is_some())
}

/// The bits of a member, if it has a size in bits.
pub fn put_bits(out: &mut Vec<u8>, bits: Option<u64>) -> Result<(), AllocError>
    ensures { OnOk result (Writes (bits_tokens bits) out.old.items out.new.items) }
{
    match bits {
        None => Ok(()),
        Some(n) => {
            put(out, b" : ")?;
            put_decimal(out, u128::from(n))
        }
    }
}

/// The sum of two numbers of bytes, or the limit plus one if it is above the limit.
#[inline]
pub fn plus(one: usize, other: usize) -> usize
    ensures { result ≡ capped (one + other) }
{
    one.saturating_add(other).min(LIMIT + 1)
}

/// How many decimal digits a number has.
#[tactic(auto, using(crate::proofs::LexingLemmas::numeral_low))]
pub fn digit_count(n: u128) -> usize
    ensures { result ≡ capped (length (numeral n)) }
{
    if n < 10 {
        1
    } else {
        plus(digit_count(n / 10), 1)
    }
}

/// The bytes of an enumerator's value.
pub fn value_length(value: Option<i128>) -> usize
    ensures { result ≡ capped (value_bytes value) }
{
    match value {
        None => 0,
        Some(value) => {
            let digits = digit_count(value.unsigned_abs());
            if value < 0 { plus(1, digits) } else { digits }
        }
    }
}

/// The bytes of a name, if there is one.
#[inline]
pub fn name_length(name: Name<'_>) -> usize
    ensures { result ≡ name_bytes (view_name name.entry) }
{
    name.map_or(0, |name| name.bytes.len())
}
