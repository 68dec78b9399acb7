//! The objects in JSON for addresses.

ghost use Rattle.std.specs.Prelude.{◌≡◌, ◌++◌, OnOk, IfOk, option_copied, map, false};
ghost use Rattle.std.specs.List.{flat_map};
ghost use Rattle.std.specs.String.{string_bytes};
ghost use Rattle.serde_json.specs.View.{items_of, view};
ghost use Rattle.serde_json.specs.Written.{items_have_float};
ghost use Rattle.dw_report.specs.JsonObjects.{object_line};
ghost use Rattle.dwv_addr.specs.AnswerObjects.{address_or_null, answer_object, ascii_glyph, frame_object};
ghost use Rattle.dwv_addr.specs.AnswerObjects.{number_or_null, object_text, text_or_null};

use crate::lines::{put_escape, put_glyphs};
use dw_report::put_object_line;
use serde_json::{Map, Value, put};
use std::alloc::{AllocError, Global};

/// A byte of a name or a path that is not UTF-8.
#[tactic(auto, unfolding(crate::specs::AnswerObjects::ascii_glyph, crate::specs::Answers::glyph))]
fn put_ascii_glyph(text: &mut Vec<u8>, byte: u8) -> Result<(), AllocError>
    ensures ok { OnOk result (text.new.items ≡ text.old.items ++ ascii_glyph byte) }
{
    if (0x20..0x7f).contains(&byte) && byte != b'\\' {
        return text.extend_from_slice(&[byte]);
    }
    put_escape(text, byte)
}

/// The bytes of a name or a path that is not UTF-8, in ASCII.
fn put_ascii_glyphs(text: &mut Vec<u8>, bytes: &[u8]) -> Result<(), AllocError>
    ensures ok { OnOk result (text.new.items ≡ text.old.items ++ flat_map ascii_glyph bytes.now) }
{
    for byte in bytes {
        put_ascii_glyph(text, *byte)?;
    }
    Ok(())
}

/// A name or a path that is not UTF-8, in ASCII.
fn ascii_text(alloc: Global, bytes: &[u8]) -> Result<String, AllocError>
    ensures { IfOk result (λ text. string_bytes text ≡ flat_map ascii_glyph bytes.now) }
{
    let mut text = Vec::new(alloc);
    put_ascii_glyphs(&mut text, bytes)?;
    Ok(String::from_utf8(text).unwrap())
}

/// The text of a name or a path.
fn text_of(alloc: Global, bytes: &[u8]) -> Result<String, AllocError>
    ensures { IfOk result (λ text. string_bytes text ≡ object_text bytes.now) }
{
    let mut shown = Vec::new(alloc);
    put_glyphs(&mut shown, bytes)?;
    match String::from_utf8(shown) {
        Ok(text) => Ok(text),
        Err(_) => ascii_text(alloc, bytes),
    }
}

/// A name or a path, or `null` if it is not known.
fn text_value(alloc: Global, bytes: Option<&[u8]>) -> Result<Value, AllocError>
    ensures { IfOk result (λ value. view value ≡ text_or_null (option_copied bytes.entry)) }
{
    match bytes {
        Some(bytes) => Ok(Value::String(text_of(alloc, bytes)?)),
        None => Ok(Value::Null),
    }
}

/// A line or a column, or `null` if it is not known.
fn number_value(n: u64) -> Value
    ensures { view result ≡ number_or_null n }
{
    if n == 0 {
        return Value::Null;
    }
    Value::from(n)
}

/// A frame.
pub fn frame_value(
    alloc: Global,
    function: Option<&[u8]>,
    path: Option<&[u8]>,
    line: u64,
    column: u64,
) -> Result<Value, AllocError>
    ensures { IfOk result (λ value.
        view value ≡ frame_object (option_copied function.entry) (option_copied path.entry) line column) }
{
    let file = text_value(alloc, path)?;
    let name = text_value(alloc, function)?;
    let mut members = Map::new(alloc);
    put(&mut members, alloc, "column", number_value(column))?;
    put(&mut members, alloc, "file", file)?;
    put(&mut members, alloc, "function", name)?;
    put(&mut members, alloc, "line", number_value(line))?;
    Ok(Value::Object(members))
}

/// An address, or `null` for a word that is no address.
fn address_value(alloc: Global, address: Option<u64>) -> Result<Value, AllocError>
    ensures { IfOk result (λ value. view value ≡ address_or_null address) }
{
    match address {
        Some(address) => Ok(Value::String(format!(in alloc; "0x{address:x}")?)),
        None => Ok(Value::Null),
    }
}

/// An address and its frames.
fn answer_value(
    alloc: Global,
    address: Option<u64>,
    frames: Vec<Value>,
) -> Result<Value, AllocError>
    ensures { IfOk result (λ value. view value ≡ answer_object address (map view frames.items)) }
{
    let mut members = Map::new(alloc);
    put(
        &mut members,
        alloc,
        "address",
        address_value(alloc, address)?,
    )?;
    put(&mut members, alloc, "frames", Value::Array(frames))?;
    Ok(Value::Object(members))
}

/// An address and its frames, as an object on a line.
#[tactic(auto, using(crate::proofs::ObjectLemmas::no_floats))]
pub fn put_answer_object(
    text: &mut Vec<u8>,
    alloc: Global,
    address: Option<u64>,
    frames: Vec<Value>,
) -> Result<(), AllocError>
    requires { items_have_float (items_of (map view frames.items)) ≡ false }
    ensures ok { OnOk result (text.new.items
        ≡ text.old.items ++ object_line (answer_object address (map view frames.items))) }
{
    let value = answer_value(alloc, address, frames)?;
    put_object_line(text, alloc, &value)
}
