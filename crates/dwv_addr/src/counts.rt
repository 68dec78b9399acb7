//! The counts of a sound file.

ghost use Rattle.std.specs.Prelude.{◌≡◌, ◌++◌, IfOk, OnOk, sum_by};
ghost use Rattle.serde_json.specs.View.{view};
ghost use Rattle.dw_report.specs.JsonObjects.{object_line};
ghost use Rattle.dwv_addr.specs.Sound.{at_most, counts_of as counts_of_file, function_count, inlined_counts};
ghost use Rattle.dwv_addr.specs.Sound.{row_counts, rows_in, sequence_count, sequences_in, sound_line, sound_object};

use dw_addresses::{FileLines, LineIndex};
use dw_cprint::put_decimal;
use dw_ranges::FileFunctions;
use dw_report::put_object_line;
use serde_json::{Value, json};
use std::alloc::{AllocError, Global};

/// How much a sound file has of what is looked up by address. A count that passes the greatest number stays there.
#[derive(Clone, Copy, Debug, PartialEq, Eq)]
pub struct Counts {
    /// The sequences of all line programs.
    pub sequences: u64,
    /// Their rows.
    pub rows: u64,
    /// The ranges of entries.
    pub ranges: u64,
    /// The functions with code that are not inlined.
    pub functions: u64,
    /// The inlined functions with code.
    pub inlined: u64,
    /// The ranges of entries not all of whose addresses are of the program's code.
    pub dead: u64,
}

/// How many sequences programs have.
fn sequences_of(programs: &[LineIndex<'_>]) -> u64
    ensures { result ≡ at_most (sum_by sequences_in programs.now) }
{
    let mut count = 0u64;
    for index in programs {
        count = count.saturating_add(index.sequence_count() as u64);
    }
    count
}

/// How many rows they have.
fn rows_of(programs: &[LineIndex<'_>]) -> u64
    ensures { result ≡ at_most (sum_by rows_in programs.now) }
{
    let mut count = 0u64;
    for index in programs {
        count = count.saturating_add(index.row_count() as u64);
    }
    count
}

/// The counts of a sound file.
pub fn counts_of(lines: &FileLines<'_>, functions: &FileFunctions) -> Counts
    ensures { result ≡ counts_of_file lines.now functions.now }
{
    let totals = functions.totals;
    Counts {
        sequences: sequences_of(&lines.programs),
        rows: rows_of(&lines.programs),
        ranges: totals.ranges as u64,
        functions: totals.functions as u64,
        inlined: totals.inlined as u64,
        dead: totals.dead as u64,
    }
}

/// `sound: S sequences`.
#[tactic(auto, unfolding(crate::specs::Sound::sequence_count))]
fn put_sequence_count(text: &mut Vec<u8>, sequences: u64) -> Result<(), AllocError>
    ensures ok { OnOk result (text.new.items ≡ text.old.items ++ sequence_count sequences) }
{
    text.extend_from_slice(b"sound: ")?;
    put_decimal(text, u128::from(sequences))?;
    text.extend_from_slice(b" sequences")
}

/// `, R rows, N ranges`.
#[tactic(auto, unfolding(crate::specs::Sound::row_counts))]
fn put_row_counts(text: &mut Vec<u8>, rows: u64, ranges: u64) -> Result<(), AllocError>
    ensures ok { OnOk result (text.new.items ≡ text.old.items ++ row_counts rows ranges) }
{
    text.extend_from_slice(b", ")?;
    put_decimal(text, u128::from(rows))?;
    text.extend_from_slice(b" rows, ")?;
    put_decimal(text, u128::from(ranges))?;
    text.extend_from_slice(b" ranges")
}

/// `, F functions`.
#[tactic(auto, unfolding(crate::specs::Sound::function_count))]
fn put_function_count(text: &mut Vec<u8>, functions: u64) -> Result<(), AllocError>
    ensures ok { OnOk result (text.new.items ≡ text.old.items ++ function_count functions) }
{
    text.extend_from_slice(b", ")?;
    put_decimal(text, u128::from(functions))?;
    text.extend_from_slice(b" functions")
}

/// `, I inlined, D dead`, and the end of the line.
#[tactic(auto, unfolding(crate::specs::Sound::inlined_counts))]
fn put_inlined_counts(text: &mut Vec<u8>, inlined: u64, dead: u64) -> Result<(), AllocError>
    ensures ok { OnOk result (text.new.items ≡ text.old.items ++ inlined_counts inlined dead) }
{
    text.extend_from_slice(b", ")?;
    put_decimal(text, u128::from(inlined))?;
    text.extend_from_slice(b" inlined, ")?;
    put_decimal(text, u128::from(dead))?;
    text.extend_from_slice(b" dead\n")
}

/// The counts on a line.
pub fn put_sound_line(text: &mut Vec<u8>, counts: Counts) -> Result<(), AllocError>
    ensures ok { OnOk result (text.new.items ≡ text.old.items ++ sound_line counts) }
{
    put_sequence_count(text, counts.sequences)?;
    put_row_counts(text, counts.rows, counts.ranges)?;
    put_function_count(text, counts.functions)?;
    put_inlined_counts(text, counts.inlined, counts.dead)
}

/// The counts as an object.
fn sound_value(alloc: Global, counts: Counts) -> Result<Value, AllocError>
    ensures { IfOk result (λ value. view value ≡ sound_object counts) }
{
    let dead = counts.dead;
    let functions = counts.functions;
    let inlined = counts.inlined;
    let ranges = counts.ranges;
    let rows = counts.rows;
    let sequences = counts.sequences;
    json!(in alloc; {"dead": dead, "functions": functions, "inlined": inlined, "ranges": ranges, "rows": rows,
        "sequences": sequences, "sound": true})
}

/// The counts as an object on a line.
pub fn put_sound_object(text: &mut Vec<u8>, alloc: Global, counts: Counts) -> Result<(), AllocError>
    ensures ok { OnOk result (text.new.items ≡ text.old.items ++ object_line (sound_object counts)) }
{
    let value = sound_value(alloc, counts)?;
    put_object_line(text, alloc, &value)
}
