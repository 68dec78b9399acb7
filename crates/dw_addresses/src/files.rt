//! The files that entries name (DWARF 5, 2.14 and 3.3.8.2).

ghost use Rattle.std.specs.Prelude.{◌≡◌, IfErr, OnOk, option_map};
ghost use Rattle.dw_forms.specs.Value.{view};
ghost use Rattle.dw_entries.specs.Views.{all_entries};
ghost use Rattle.dw_addresses.specs.Lines.{FilesFail, HasFiles, may_be_file, no_file as no_file_of};
ghost use Rattle.dw_addresses.specs.Lines.{no_file_in as no_file_of_unit, number_in};

use crate::fault::LinesFault;
use crate::line_index::LineIndex;
use crate::lines::FileLines;
use dw_entries::constants::{DW_AT_call_file, DW_AT_decl_file};
use dw_entries::{Attribute, Entries, EntryAt, Value};
use dw_lines::{Files, LineFault, LineRule};

/// The number that a value is.
pub(crate) fn number_of(value: Value<'_>) -> Option<u64>
    ensures { result ≡ number_in (view value.entry) }
{
    match value {
        Value::Unsigned(number) => Some(number),
        Value::Signed(number) => {
            if number >= 0 {
                Some(number as u64)
            } else {
                None
            }
        }
        _ => None,
    }
}

/// Whether the value of an attribute, if there is one, is the number of a file.
fn is_file(files: &Files<'_>, value: Option<Value<'_>>) -> bool
    ensures { result ≡ may_be_file files.now (option_map view value.entry) }
{
    let Some(value) = value else {
        return true;
    };
    match number_of(value) {
        // Before version 5 number 0 names no file.
        Some(number) => files.has(number) || (number == 0 && files.first == 1),
        None => false,
    }
}

/// The first attribute of an entry that names no file.
fn no_file(files: &Files<'_>, entry: &EntryAt<'_, '_>) -> Option<Attribute>
    ensures { result ≡ no_file_of files.now entry.now }
{
    if !is_file(files, entry.value(DW_AT_decl_file)) {
        return Some(DW_AT_decl_file);
    }
    if !is_file(files, entry.value(DW_AT_call_file)) {
        return Some(DW_AT_call_file);
    }
    None
}

/// The same by the program of its unit.
fn no_file_in(program: Option<&LineIndex<'_>>, entry: &EntryAt<'_, '_>) -> Option<Attribute>
    ensures { result ≡ no_file_of_unit (option_map (λ r. r.now) program.entry) entry.now }
{
    match program {
        Some(index) => no_file(&index.program.header.files, entry),
        None => None,
    }
}

/// Checks that each file that an entry names is one of its unit's program.
pub(crate) fn check_files(entries: &Entries<'_>, lines: &FileLines<'_>) -> Result<(), LinesFault>
    ensures files { OnOk result (HasFiles lines.now (all_entries entries.now)) }
    ensures fault { IfErr result (FilesFail lines.now (all_entries entries.now)) }
{
    for number in 0..entries.count() {
        let entry = entries.at(entries.id(number));
        let program = lines.program_of(entry.unit());
        if let Some(attribute) = no_file_in(program, &entry) {
            return Err(LinesFault {
                fault: LineFault {
                    rule: LineRule::NoFile,
                    at: entry.offset() as usize,
                },
                attribute,
            });
        }
    }
    Ok(())
}
