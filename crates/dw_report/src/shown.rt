//! The entries of an image, one a line, and the size of the type at an offset.

ghost use Rattle.std.specs.Prelude.{◌≡◌, ◌<◌, ◌++◌, ◌∷◌, [], ◌*◌, codes, length, slice_index, take};
ghost use Rattle.std.specs.Prelude.{replicate, option_copied, All, MatchBool, IfNone, IfSome, IfOk, OnOk};
ghost use Rattle.std.specs.List.{flat_map};
ghost use Rattle.dw_entries.specs.ByNumber.{entry_of};
ghost use Rattle.dw_image.specs.Images.{entries_in};
ghost use Rattle.dw_cprint.specs.Digits.{places};
ghost use Rattle.dw_report.specs.Shown.{glyph, name_part, size_part, entry_part, entry_size, entry_line};
ghost use Rattle.dw_report.specs.Lines.{line};
ghost use Rattle.dw_report.specs.Shown.{show_lines, line_of_size, size_text, size_status, type_at_offset};

use crate::lines::put_offset;
use crate::request::Status;
use dw_cprint::{put_decimal, put_hex};
use dw_image::{EntryId, Image, Tag, TypeId};
use std::alloc::AllocError;

/// Two spaces for each depth.
fn put_indent(text: &mut Vec<u8>, depth: usize) -> Result<(), AllocError>
    ensures ok { OnOk result (text.new.items ≡ text.old.items ++ replicate (2 * depth) 32) }
{
    // A length that saturates is more than a vector can have, so `resize` returns an error.
    let len = text.len().saturating_add(depth.saturating_mul(2));
    text.resize(len, b' ')
}

/// An entry's offset, two spaces for each depth, and its tag.
#[tactic(auto, unfolding(crate::specs::Shown::entry_part))]
fn put_entry_part(text: &mut Vec<u8>, offset: u32, depth: usize, tag: Tag) -> Result<(), AllocError>
    ensures ok { OnOk result (text.new.items ≡ text.old.items ++ entry_part offset depth tag) }
{
    put_offset(text, offset)?;
    text.extend_from_slice(b" ")?;
    put_indent(text, depth)?;
    text.extend_from_slice(b"0x")?;
    put_hex(text, u32::from(tag.0), 4)
}

/// Whether a byte of a name is shown as it is.
#[tactic(auto, unfolding(crate::specs::Shown::glyph))]
fn is_plain(byte: u8) -> bool
    ensures { MatchBool result (glyph byte ≡ byte ∷ []) (glyph byte ≡ codes "\\x" ++ places 2 byte) }
{
    (0x20..=0x7e).contains(&byte) && byte != b'"' && byte != b'\\'
}

/// `\x` and two digits of a byte.
fn put_escape(text: &mut Vec<u8>, byte: u8) -> Result<(), AllocError>
    ensures ok { OnOk result (text.new.items ≡ text.old.items ++ (codes "\\x" ++ places 2 byte)) }
{
    text.extend_from_slice(b"\\x")?;
    put_hex(text, u32::from(byte), 2)
}

/// The index of the first byte of a name that is escaped, if there is one.
fn first_escaped(name: &[u8]) -> Option<usize>
    ensures none { IfNone result (All (λ b. glyph b ≡ b ∷ []) name.now) }
    ensures within { IfSome result (λ at. at < length name.now) }
    ensures plain { IfSome result (λ at. All (λ b. glyph b ≡ b ∷ []) (take at name.now)) }
    ensures escaped { IfSome result (λ at.
        glyph (slice_index name.now at) ≡ codes "\\x" ++ places 2 (slice_index name.now at)) }
{
    name.iter().position(|byte| !is_plain(*byte))
}

/// The bytes of a name, as they are shown. Those between two that are escaped are copied at once.
fn put_glyphs(text: &mut Vec<u8>, name: &[u8]) -> Result<(), AllocError>
    ensures ok { OnOk result (text.new.items ≡ text.old.items ++ flat_map glyph name.now) }
{
    let mut rest = name;
    while let Some(at) = first_escaped(rest) {
        text.extend_from_slice(&rest[..at])?;
        put_escape(text, rest[at])?;
        rest = &rest[at + 1..];
    }
    text.extend_from_slice(rest)
}

/// ` "NAME"`, if there is a name.
#[tactic(auto, unfolding(crate::specs::Shown::name_part))]
fn put_name(text: &mut Vec<u8>, name: Option<&[u8]>) -> Result<(), AllocError>
    ensures ok { OnOk result (text.new.items ≡ text.old.items ++ name_part (option_copied name.entry)) }
{
    let Some(name) = name else {
        return Ok(());
    };
    text.extend_from_slice(b" \"")?;
    put_glyphs(text, name)?;
    text.extend_from_slice(b"\"")
}

/// ` size N`, if there is a size.
#[tactic(auto, unfolding(crate::specs::Shown::size_part))]
fn put_size(text: &mut Vec<u8>, size: Option<u64>) -> Result<(), AllocError>
    ensures ok { OnOk result (text.new.items ≡ text.old.items ++ size_part size) }
{
    let Some(size) = size else {
        return Ok(());
    };
    text.extend_from_slice(b" size ")?;
    put_decimal(text, u128::from(size))
}

/// The end of an entry's line: its name and its size.
fn put_line_end(
    text: &mut Vec<u8>,
    name: Option<&[u8]>,
    size: Option<u64>,
) -> Result<(), AllocError>
    ensures ok { OnOk result (text.new.items
        ≡ text.old.items ++ line (name_part (option_copied name.entry) ++ size_part size)) }
{
    put_name(text, name)?;
    put_size(text, size)?;
    text.extend_from_slice(b"\n")
}

/// The size of an entry, if it is a type and has one.
#[tactic(auto, unfolding(crate::specs::Shown::entry_size))]
pub fn size_of_entry(image: &Image<'_>, id: EntryId) -> Option<u64>
    requires { id < length (entries_in image.now) }
    ensures { result ≡ entry_size image.now id (entry_of (entries_in image.now) id) }
{
    match image.type_at(id) {
        Some(of_type) => image.size_of(of_type),
        None => None,
    }
}

/// The line of an entry.
fn put_entry_line(text: &mut Vec<u8>, image: &Image<'_>, id: EntryId) -> Result<(), AllocError>
    requires { id < length (entries_in image.now) }
    ensures ok { OnOk result (text.new.items
        ≡ text.old.items ++ entry_line image.now (id, entry_of (entries_in image.now) id)) }
{
    let offset = image.offset(id);
    let depth = image.depth(id);
    let tag = image.tag(id);
    put_entry_part(text, offset, depth, tag)?;
    let name = image.name_of(id);
    let size = size_of_entry(image, id);
    put_line_end(text, name, size)
}

/// The line of the entry with a number.
fn put_numbered_line(text: &mut Vec<u8>, image: &Image<'_>, number: usize) -> Result<(), AllocError>
    requires { number < length (entries_in image.now) }
    ensures ok { OnOk result (text.new.items
        ≡ text.old.items ++ entry_line image.now (number, entry_of (entries_in image.now) number)) }
{
    match image.nth(number) {
        Some(id) => put_entry_line(text, image, id),
        None => Ok(()),
    }
}

/// A line for each entry.
pub fn put_show_lines(text: &mut Vec<u8>, image: &Image<'_>) -> Result<(), AllocError>
    ensures ok { OnOk result (text.new.items ≡ text.old.items ++ show_lines image.now) }
{
    for number in 0..image.entries() {
        put_numbered_line(text, image, number)?;
    }
    Ok(())
}

/// The type whose entry starts at an offset.
#[tactic(auto, unfolding(crate::specs::Shown::type_at_offset))]
fn type_at(image: &Image<'_>, offset: u32) -> Option<TypeId>
    ensures exact { result ≡ type_at_offset image.now offset }
    ensures within { IfSome result (λ it. it < length (entries_in image.now)) }
{
    match image.entry(offset) {
        Some(id) => image.type_at(id),
        None => None,
    }
}

/// `size N` or `no size`.
#[tactic(auto, unfolding(crate::specs::Shown::line_of_size))]
fn put_size_line(text: &mut Vec<u8>, size: Option<u64>) -> Result<(), AllocError>
    ensures ok { OnOk result (text.new.items ≡ text.old.items ++ line_of_size size) }
{
    let Some(size) = size else {
        return text.extend_from_slice(b"no size\n");
    };
    text.extend_from_slice(b"size ")?;
    put_decimal(text, u128::from(size))?;
    text.extend_from_slice(b"\n")
}

/// The size of the type whose entry starts at an offset, and whether a type is there.
pub fn put_size_at(text: &mut Vec<u8>, image: &Image<'_>, offset: u32) -> Result<Status, AllocError>
    ensures text { OnOk result (text.new.items
        ≡ text.old.items ++ size_text image.now (type_at_offset image.now offset)) }
    ensures status { IfOk result (λ status. status ≡ size_status (type_at_offset image.now offset)) }
{
    match type_at(image, offset) {
        Some(id) => {
            put_size_line(text, image.size_of(id))?;
            Ok(Status::Sound)
        }
        None => {
            text.extend_from_slice(b"not a type\n")?;
            Ok(Status::NotAType)
        }
    }
}
