//! The rows of frames at addresses, and the bytes of their names and paths.

ghost use Rattle.std.specs.Prelude.{◌≡◌, ◌++◌, [], IfOk, OnOk, length};
ghost use Rattle.std.specs.Option.{unwrap_or};
ghost use Rattle.dw_entries.specs.Lookups.{nth_of};
ghost use Rattle.dw_entries.specs.Views.{all_entries};
ghost use Rattle.std.specs.Prelude.{option_and_then};
ghost use Rattle.dw_lookup.specs.Places.{entries_of, name_at};
ghost use Rattle.dwv_c.specs.Frames.{frame_row as row_of_frame, frame_text, of_unit};
ghost use Rattle.dwv_c.specs.Tables.{row_of};

use crate::table_rows::{count_in, row_or_none};
use dw_addresses::Frame;
use dw_lookup::{Known, column_of, line_of};
use std::alloc::AllocError;

/// A frame at an address: a function that has it, and the place in it.
#[repr(C)]
#[derive(Clone, Copy, Debug)]
pub struct FrameRow {
    /// 0 if it is not known.
    pub line: u64,
    /// 0 if it is not known.
    pub column: u64,
    /// Where the function's name starts in the text.
    pub name: u64,
    /// How many bytes the name has, or 0 if it is not known.
    pub name_length: u64,
    /// Where the path of the source file starts in the text.
    pub path: u64,
    /// How many bytes the path has, or 0 if it is not known.
    pub path_length: u64,
    /// The row of the function's entry, or the greatest number where only the line is known.
    pub function: u32,
    /// The row of the unit.
    pub unit: u32,
}

/// Which rows the frames at an address have.
#[repr(C)]
#[derive(Clone, Copy, Debug)]
pub struct Located {
    pub first: u64,
    pub frames: u64,
}

/// How many rows of frames and bytes of text there are.
#[repr(C)]
#[derive(Clone, Copy, Debug)]
pub struct FrameCounts {
    pub frames: u64,
    pub text: u64,
}

/// The row of the entry of a function, or the word for none.
fn function_row(known: &Known<'_, '_>, function: Option<usize>) -> u32
    ensures { result ≡ row_of (option_and_then (nth_of (all_entries (entries_of known.now))) function) }
{
    match function {
        Some(number) => row_or_none(known.image.scanned().nth(number)),
        None => row_or_none(None),
    }
}

/// Appends the name of a function, if it is known.
fn push_name(
    known: &Known<'_, '_>,
    function: Option<usize>,
    text: &mut Vec<u8>,
) -> Result<(), AllocError>
    ensures ok { OnOk result (text.new.items ≡ text.old.items ++ unwrap_or (name_at known.now function) []) }
{
    match known.name_of(function) {
        Some(name) => text.extend_from_slice(name),
        None => Ok(()),
    }
}

/// Appends the text of a frame: the name of its function and the path of its place. Returns its row.
pub fn frame_row(
    known: &Known<'_, '_>,
    unit: usize,
    frame: &Frame,
    text: &mut Vec<u8>,
) -> Result<FrameRow, AllocError>
    ensures row { IfOk result (λ row.
        row ≡ row_of_frame known.now (length text.old.items) (of_unit unit frame.now)) }
    ensures text { OnOk result (text.new.items ≡ text.old.items ++ frame_text known.now (of_unit unit frame.now)) }
{
    let name = text.len();
    push_name(known, frame.function, text)?;
    let path = text.len();
    known.push_path(unit, frame.place, text)?;
    let end = text.len();
    Ok(FrameRow {
        line: line_of(frame.place),
        column: column_of(frame.place),
        name: name as u64,
        name_length: (path - name) as u64,
        path: path as u64,
        path_length: (end - path) as u64,
        function: function_row(known, frame.function),
        unit: count_in(unit),
    })
}
