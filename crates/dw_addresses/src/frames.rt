//! The frames at an address (DWARF 5, 3.3.8).

ghost use Rattle.std.specs.Prelude.{◌≡◌, ◌++◌, IfOk, OnOk, List};
ghost use Rattle.dw_entries.specs.Views.{all_entries};
ghost use Rattle.dw_ranges.specs.Files.{IsIndex, IsIndexOf};
ghost use Rattle.dw_ranges.specs.Functions.{Known as AnyKnown};
ghost use Rattle.dw_addresses.specs.Frames.{AreFramesAt, call_place as place_of_call, frames_at as all_frames};
ghost use Rattle.dw_addresses.specs.Frames.{frames_of, number_at as number_in_entry, place_of};
ghost use Rattle.dw_addresses.specs.Frames.{row_place as place_of_address};

use crate::files::number_of;
use crate::frame::{Frame, Place};
use crate::lines::FileLines;
use dw_entries::constants::DW_AT_call_file;
use dw_entries::{Attribute, Entries};
use dw_lines::Row;
use dw_ranges::FileFunctions;
use std::alloc::{AllocError, AllocFailed};

/// DW_AT_call_column
const DW_AT_CALL_COLUMN: Attribute = Attribute(0x57);
/// DW_AT_call_line
const DW_AT_CALL_LINE: Attribute = Attribute(0x59);

/// The place of a row.
fn place_of_row(row: Row) -> Place
    ensures { result ≡ place_of row }
{
    Place {
        file: Some(row.file),
        line: u64::from(row.line),
        column: u64::from(row.column),
    }
}

/// The number that is the value of an attribute of the entry with a number, if there is one.
fn number_at(entries: &Entries<'_>, number: usize, attribute: Attribute) -> Option<u64>
    ensures { result ≡ number_in_entry (all_entries entries.now) number attribute }
{
    let id = entries.nth(number)?;
    number_of(entries.value(id, attribute)?)
}

/// The place of the call of a function that is inlined.
fn call_place(entries: &Entries<'_>, function: usize) -> Place
    ensures { result ≡ place_of_call (all_entries entries.now) function }
{
    Place {
        file: number_at(entries, function, DW_AT_call_file),
        line: number_at(entries, function, DW_AT_CALL_LINE).unwrap_or(0),
        column: number_at(entries, function, DW_AT_CALL_COLUMN).unwrap_or(0),
    }
}

/// The place of an address by the line program of its unit.
fn row_place(lines: &FileLines<'_>, unit: Option<usize>, address: u64) -> Option<Place>
    ensures { result ≡ place_of_address lines.now address unit }
{
    let row = lines.row_at(unit?, address)?;
    Some(place_of_row(row))
}

/// Appends the frames of functions, each of which is inlined in the one before it, the innermost first. Its place is
/// that of the row.
fn push_functions(
    entries: &Entries<'_>,
    functions: &[usize],
    row: Option<Place>,
    frames: &mut Vec<Frame>,
) -> Result<(), AllocFailed<Frame>>
    ensures { OnOk result
        (frames.new.items ≡ frames.old.items ++ frames_of (all_entries entries.now) row functions.now) }
{
    let mut place = row;
    let count = functions.len();
    for k in 0..count {
        let function = functions[count - 1 - k];
        frames.push(Frame {
            function: Some(function),
            place,
        })?;
        place = Some(call_place(entries, function));
    }
    Ok(())
}

/// Appends the frames of functions, or that of the row if there is none.
fn push_frames(
    entries: &Entries<'_>,
    functions: &[usize],
    row: Option<Place>,
    frames: &mut Vec<Frame>,
) -> Result<(), AllocFailed<Frame>>
    ensures { OnOk result
        (frames.new.items ≡ frames.old.items ++ all_frames (all_entries entries.now) row functions.now) }
{
    if functions.is_empty() {
        if row.is_none() {
            return Ok(());
        }
        return frames.push(Frame {
            function: None,
            place: row,
        });
    }
    push_functions(entries, functions, row, frames)
}

/// Finds the frames at an address, the innermost first, and its unit. There are none if no unit has the address, or if
/// the unit has neither a function nor a row for it. Overwrites `functions`, which is there to be used again.
pub fn frames_at(
    lines: &FileLines<'_>,
    file: &FileFunctions,
    entries: &Entries<'_>,
    address: u64,
    functions: &mut Vec<usize>,
    frames: &mut Vec<Frame>,
) -> Result<Option<usize>, AllocError>
    requires { IsIndex file.now }
    ensures { IfOk result (λ unit. (units : List AnyKnown) → IsIndexOf units file.now
        → AreFramesAt lines.now (all_entries entries.now) units address unit frames.new.items) }
{
    frames.clear();
    let unit = file.functions_at(address, functions)?;
    let row = row_place(lines, unit, address);
    push_frames(entries, functions, row, frames)?;
    Ok(unit)
}
