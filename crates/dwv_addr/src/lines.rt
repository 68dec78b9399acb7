//! The lines for an address.

ghost use Rattle.std.specs.Prelude.{◌≡◌, ◌++◌, ◌∷◌, [], ◌<◌, codes, length, slice_index, take, All, IfNone, IfSome};
ghost use Rattle.std.specs.Prelude.{MatchBool, OnOk, option_copied};
ghost use Rattle.std.specs.List.{flat_map};
ghost use Rattle.dw_cprint.specs.Digits.{places};
ghost use Rattle.dwv_addr.specs.Answers.{frame_lines, glyph, known_text, unknown_lines};

use dw_cprint::{put_decimal, put_hex};
use std::alloc::AllocError;

/// Whether a byte is written as it is.
#[tactic(auto, unfolding(crate::specs::Answers::glyph))]
fn is_plain(byte: u8) -> bool
    ensures { MatchBool result (glyph byte ≡ byte ∷ []) (glyph byte ≡ codes "\\x" ++ places 2 byte) }
{
    byte >= 0x20 && byte != 0x7f && byte != b'\\'
}

/// `\x` and two digits of a byte.
pub fn put_escape(text: &mut Vec<u8>, byte: u8) -> Result<(), AllocError>
    ensures ok { OnOk result (text.new.items ≡ text.old.items ++ (codes "\\x" ++ places 2 byte)) }
{
    text.extend_from_slice(b"\\x")?;
    put_hex(text, u32::from(byte), 2)
}

/// The index of the first byte that is escaped, if there is one.
fn first_escaped(bytes: &[u8]) -> Option<usize>
    ensures none { IfNone result (All (λ b. glyph b ≡ b ∷ []) bytes.now) }
    ensures within { IfSome result (λ at. at < length bytes.now) }
    ensures plain { IfSome result (λ at. All (λ b. glyph b ≡ b ∷ []) (take at bytes.now)) }
    ensures escaped { IfSome result (λ at.
        glyph (slice_index bytes.now at) ≡ codes "\\x" ++ places 2 (slice_index bytes.now at)) }
{
    bytes.iter().position(|byte| !is_plain(*byte))
}

/// The bytes of a name or a path, as they are written. Those between two that are escaped are copied at once.
pub fn put_glyphs(text: &mut Vec<u8>, bytes: &[u8]) -> Result<(), AllocError>
    ensures ok { OnOk result (text.new.items ≡ text.old.items ++ flat_map glyph bytes.now) }
{
    let mut rest = bytes;
    while let Some(at) = first_escaped(rest) {
        text.extend_from_slice(&rest[..at])?;
        put_escape(text, rest[at])?;
        rest = &rest[at + 1..];
    }
    text.extend_from_slice(rest)
}

/// A name or a path, or `??` if it is not known.
fn put_known(text: &mut Vec<u8>, bytes: Option<&[u8]>) -> Result<(), AllocError>
    ensures ok { OnOk result (text.new.items ≡ text.old.items ++ known_text (option_copied bytes.entry)) }
{
    match bytes {
        Some(bytes) => put_glyphs(text, bytes),
        None => text.extend_from_slice(b"??"),
    }
}

/// The two lines of a frame: its function, and `PATH:LINE:COLUMN`.
#[tactic(auto, unfolding(crate::specs::Answers::frame_lines))]
pub fn put_frame_lines(
    text: &mut Vec<u8>,
    function: Option<&[u8]>,
    path: Option<&[u8]>,
    line: u64,
    column: u64,
) -> Result<(), AllocError>
    ensures ok { OnOk result (text.new.items ≡ text.old.items
        ++ frame_lines (option_copied function.entry) (option_copied path.entry) line column) }
{
    put_known(text, function)?;
    text.extend_from_slice(b"\n")?;
    put_known(text, path)?;
    text.extend_from_slice(b":")?;
    put_decimal(text, u128::from(line))?;
    text.extend_from_slice(b":")?;
    put_decimal(text, u128::from(column))?;
    text.extend_from_slice(b"\n")
}

/// The lines for an address that nothing has, and for a word that is no address.
pub fn put_unknown_lines(text: &mut Vec<u8>) -> Result<(), AllocError>
    ensures ok { OnOk result (text.new.items ≡ text.old.items ++ unknown_lines) }
{
    text.extend_from_slice(b"??\n??:0:0\n\n")
}
