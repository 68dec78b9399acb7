//! The answers for addresses, by what is known of a sound file.

ghost use Rattle.std.specs.Prelude.{◌≡◌, ◌++◌, List, ℕ, OnOk, IfOk, map};
ghost use Rattle.std.specs.List.{flat_map};
ghost use Rattle.serde_json.specs.View.{view};
ghost use Rattle.dw_ranges.specs.Files.{IsIndex, IsIndexOf};
ghost use Rattle.dw_ranges.specs.Functions.{Known as KnownUnit};
ghost use Rattle.dwv_addr.specs.Located.{AreAnswers, IsAnswer, lines_at, located_lines, located_object};
ghost use Rattle.dwv_addr.specs.Located.{located_text, object_at, unknown_text};

use crate::json::{frame_value, put_answer_object};
use crate::lines::{put_frame_lines, put_unknown_lines};
use dw_addresses::Frame;
use dw_lookup::{Known, column_of, line_of};
use serde_json::Value;
use std::alloc::{AllocError, Global};

/// The lines of a frame at an address of a unit.
fn put_frame(
    text: &mut Vec<u8>,
    known: &Known<'_, '_>,
    unit: usize,
    frame: &Frame,
    path: &mut Vec<u8>,
) -> Result<(), AllocError>
    ensures ok { OnOk result (text.new.items
        ≡ text.old.items ++ lines_at known.now unit frame.now) }
{
    let shown = known.path_of(unit, frame.place, path)?;
    let name = known.name_of(frame.function);
    put_frame_lines(
        text,
        name,
        shown,
        line_of(frame.place),
        column_of(frame.place),
    )
}

/// The object of a frame at an address of a unit.
fn object_of(
    alloc: Global,
    known: &Known<'_, '_>,
    unit: usize,
    frame: &Frame,
    path: &mut Vec<u8>,
) -> Result<Value, AllocError>
    ensures { IfOk result (λ value.
        view value ≡ object_at known.now unit frame.now) }
{
    let shown = known.path_of(unit, frame.place, path)?;
    let name = known.name_of(frame.function);
    frame_value(
        alloc,
        name,
        shown,
        line_of(frame.place),
        column_of(frame.place),
    )
}

/// The lines of frames at an address of a unit.
fn put_frames(
    text: &mut Vec<u8>,
    known: &Known<'_, '_>,
    unit: usize,
    frames: &[Frame],
    path: &mut Vec<u8>,
) -> Result<(), AllocError>
    ensures ok { OnOk result (text.new.items
        ≡ text.old.items ++ flat_map (lines_at known.now unit) frames.now) }
{
    for frame in frames {
        put_frame(text, known, unit, frame, path)?;
    }
    Ok(())
}

/// The lines of an address, by its unit and its frames.
fn put_lines(
    text: &mut Vec<u8>,
    known: &Known<'_, '_>,
    unit: usize,
    frames: &[Frame],
    path: &mut Vec<u8>,
) -> Result<(), AllocError>
    ensures ok { OnOk result (text.new.items
        ≡ text.old.items ++ located_lines known.now unit frames.now) }
{
    put_frames(text, known, unit, frames, path)?;
    text.extend_from_slice(b"\n")
}

/// The objects of frames at an address of a unit.
fn objects_of(
    alloc: Global,
    known: &Known<'_, '_>,
    unit: usize,
    frames: &[Frame],
    path: &mut Vec<u8>,
) -> Result<Vec<Value>, AllocError>
    ensures { IfOk result (λ values. map view values.items
        ≡ map (object_at known.now unit) frames.now) }
{
    let mut values = Vec::new(alloc);
    for frame in frames {
        values.push(object_of(alloc, known, unit, frame, path)?)?;
    }
    Ok(values)
}

/// The object of an address, by its unit and its frames.
fn put_object(
    text: &mut Vec<u8>,
    alloc: Global,
    known: &Known<'_, '_>,
    address: u64,
    unit: usize,
    frames: &[Frame],
    path: &mut Vec<u8>,
) -> Result<(), AllocError>
    ensures ok { OnOk result (text.new.items ≡ text.old.items
        ++ located_object known.now unit address frames.now) }
{
    let values = objects_of(alloc, known, unit, frames, path)?;
    put_answer_object(text, alloc, Some(address), values)
}

/// What is written for a word that is no address, and for an address that has no frames.
fn put_unknown(
    text: &mut Vec<u8>,
    alloc: Global,
    json: bool,
    address: Option<u64>,
) -> Result<(), AllocError>
    ensures ok { OnOk result (text.new.items ≡ text.old.items ++ unknown_text json address) }
{
    if json {
        return put_answer_object(text, alloc, address, Vec::new(alloc));
    }
    put_unknown_lines(text)
}

/// The answer for an address, by its unit and its frames.
fn put_located(
    text: &mut Vec<u8>,
    alloc: Global,
    json: bool,
    known: &Known<'_, '_>,
    address: u64,
    unit: Option<usize>,
    frames: &[Frame],
    path: &mut Vec<u8>,
) -> Result<(), AllocError>
    ensures ok { OnOk result (text.new.items ≡ text.old.items
        ++ located_text json known.now address unit frames.now) }
{
    let Some(unit) = unit else {
        return put_unknown(text, alloc, json, Some(address));
    };
    if frames.is_empty() {
        return put_unknown(text, alloc, json, Some(address));
    }
    if json {
        return put_object(text, alloc, known, address, unit, frames, path);
    }
    put_lines(text, known, unit, frames, path)
}

/// What is used again for one address after another.
#[derive(Drop)]
struct Room {
    functions: Vec<usize>,
    frames: Vec<Frame>,
    path: Vec<u8>,
}

/// The answer for an address, or for a word that is none.
fn put_answer(
    text: &mut Vec<u8>,
    alloc: Global,
    json: bool,
    known: &Known<'_, '_>,
    asked: Option<u64>,
    room: &mut Room,
) -> Result<(), AllocError>
    requires { IsIndex known.now.functions }
    ensures { OnOk result ((answer : List ℕ) × (text.new.items ≡ text.old.items ++ answer)
        × ((units : List KnownUnit) → IsIndexOf units known.now.functions
        → IsAnswer json known.now units asked answer)) }
{
    let Some(address) = asked else {
        return put_unknown(text, alloc, json, None);
    };
    let unit = known.frames_at(address, &mut room.functions, &mut room.frames)?;
    put_located(
        text,
        alloc,
        json,
        known,
        address,
        unit,
        &room.frames,
        &mut room.path,
    )
}

/// The answers for addresses, in their order.
pub fn put_answers(
    text: &mut Vec<u8>,
    alloc: Global,
    json: bool,
    known: &Known<'_, '_>,
    asked: &[Option<u64>],
) -> Result<(), AllocError>
    requires { IsIndex known.now.functions }
    ensures { OnOk result ((answer : List ℕ) × (text.new.items ≡ text.old.items ++ answer)
        × ((units : List KnownUnit) → IsIndexOf units known.now.functions
        → AreAnswers json known.now units asked.now answer)) }
{
    let functions = Vec::new(alloc);
    let frames = Vec::new(alloc);
    let path = Vec::new(alloc);
    let mut room = Room {
        functions,
        frames,
        path,
    };
    for question in asked {
        put_answer(text, alloc, json, known, *question, &mut room)?;
    }
    Ok(())
}
