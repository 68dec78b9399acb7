//! Reads the line programs that the units of a file name, each once.

ghost use Rattle.std.specs.Prelude.{◌≡◌, ◌≢◌, ◌++◌, ◌∷◌, [], ◌<◌, ◌⊎◌, IfErr, IfOk, OnOk, length, ℕ, None, true, false};
ghost use Rattle.std.specs.Prelude.{slice_index_or};
ghost use Rattle.std.specs.List.{AllAdjacentBelow};
ghost use Rattle.dw_entries.specs.Views.{units_of};
ghost use Rattle.dw_forms.specs.Stops.{IfFault};
ghost use Rattle.dw_addresses.specs.Addresses.{AreAreas};
ghost use Rattle.dw_lines.specs.Programs.{program_end};
ghost use Rattle.dw_addresses.specs.declared.line_index.LineIndex.{LineIndex as AnyIndex};
ghost use Rattle.dw_addresses.specs.LinePrograms.{IsInvalid, ProgramsFail};
ghost use Rattle.dw_addresses.specs.Lines.{HasPrograms};
ghost use Rattle.dw_addresses.specs.Reading.{AllNamed, HasLast, IsAfter, IsNext, IsRead, IsUpTo, NextFails};

use crate::line_index::LineIndex;
use crate::lines::FileLines;
use crate::named::Named;
use dw_entries::{Entries, Stop};
use dw_lines::{LineFault, LineRule, LineSections, read_program};
use std::alloc::{AllocFailed, Global};

/// The program that was read last.
#[derive(Clone, Copy, Debug, PartialEq, Eq)]
pub(crate) struct Last {
    pub(crate) at: u32,
    /// How many bytes an address has. 0 if no program was read.
    pub(crate) size: u8,
    /// The offset after the program, in `.debug_line`.
    pub(crate) end: usize,
}

/// Whether a program at an offset starts inside the one that was read last.
fn starts_inside(last: Last, at: u32) -> bool
    ensures inside { result ≡ true → (last.at ≢ at) × (at < last.end) }
    ensures after { result ≡ false → IsAfter last at }
{
    at != last.at && (at as usize) < last.end
}

/// Whether a program is the one that was read last.
fn is_same(last: Last, one: Named) -> bool
    ensures same { result ≡ true → (last.at ≡ one.at) × (last.size ≡ one.size) }
{
    one.at == last.at && one.size == last.size
}

/// Reads a program and its rows.
fn read_index<'a>(
    alloc: Global,
    sections: &LineSections<'a>,
    code: &'a [(u64, u64)],
    at: u32,
    size: u8,
) -> Result<LineIndex<'a>, Stop<LineFault>>
    requires code { AreAreas code.now }
    requires size { (size ≡ 4) ⊎ (size ≡ 8) }
    ensures found { IfOk result (IsRead sections.now code.now at size) }
    ensures fault { IfErr result (IfFault (IsInvalid sections.now at size)) }
{
    let program = read_program(alloc, sections, at as usize, size)?;
    LineIndex::new(alloc, program, code)
}

/// Reads a program, and keeps it as the last one.
fn read_new<'a>(
    alloc: Global,
    sections: &LineSections<'a>,
    code: &'a [(u64, u64)],
    one: Named,
    last: &mut Last,
    lines: &mut FileLines<'a>,
) -> Result<(), Stop<LineFault>>
    requires code { AreAreas code.now }
    requires size { (one.size ≡ 4) ⊎ (one.size ≡ 8) }
    ensures fault { IfErr result (IfFault (IsInvalid sections.now one.at one.size)) }
    ensures found { OnOk result ((index : AnyIndex) × IsRead sections.now code.now one.at one.size index
        × (lines.new.programs.items ≡ lines.old.programs.items ++ index ∷ [])) }
    ensures last { OnOk result (last.new
        ≡ record { at = one.at; size = one.size; end = program_end sections.now one.at }) }
    ensures of_unit { lines.new.of_unit ≡ lines.old.of_unit }
{
    let index = read_index(alloc, sections, code, one.at, one.size)?;
    last.at = one.at;
    last.size = one.size;
    last.end = index.program.opcodes_at + index.program.opcodes.len();
    lines.programs.push(index)?;
    Ok(())
}

/// Reads the program that is next in order, unless it is the last one, and keeps it for its unit.
fn read_next<'a>(
    alloc: Global,
    sections: &LineSections<'a>,
    code: &'a [(u64, u64)],
    one: Named,
    last: &mut Last,
    lines: &mut FileLines<'a>,
) -> Result<(), Stop<LineFault>>
    requires code { AreAreas code.now }
    requires size { (one.size ≡ 4) ⊎ (one.size ≡ 8) }
    requires unit { one.unit < length lines.old.of_unit.items }
    requires last { HasLast sections.now code.now lines.old last.old }
    ensures next { OnOk result (IsNext sections.now code.now one last.old lines.old last.new lines.new) }
    ensures fault { IfErr result (IfFault (NextFails sections.now one last.old)) }
{
    if starts_inside(*last, one.at) {
        return Err(Stop::Fault(LineFault {
            rule: LineRule::ProgramsMeet,
            at: one.at as usize,
        }));
    }
    if !is_same(*last, one) {
        match read_new(alloc, sections, code, one, last, lines) {
            Ok(()) => {}
            Err(stop) => return Err(stop),
        }
    }
    lines.of_unit[one.unit] = Some(lines.programs.len() - 1);
    Ok(())
}

/// The lines of so many units without programs.
fn no_lines<'a>(alloc: Global, count: usize) -> Result<FileLines<'a>, AllocFailed<Option<usize>>>
    ensures count { IfOk result (λ lines. length lines.of_unit.items ≡ count) }
    ensures none { IfOk result (λ lines. (unit : ℕ) → slice_index_or lines.of_unit.items unit None ≡ None) }
    ensures programs { IfOk result (λ lines. lines.programs.items ≡ []) }
{
    let mut of_unit = Vec::new(alloc);
    for _unit in 0..count {
        of_unit.push(None)?;
    }
    Ok(FileLines {
        programs: Vec::new(alloc),
        of_unit,
    })
}

/// Reads the programs that units name, which are in order. A program that several units name is read once.
pub(crate) fn read_programs<'a>(
    alloc: Global,
    sections: &LineSections<'a>,
    code: &'a [(u64, u64)],
    entries: &Entries<'_>,
    named: &[Named],
) -> Result<FileLines<'a>, Stop<LineFault>>
    requires code { AreAreas code.now }
    requires named { AllNamed entries.now (length (units_of entries.now)) named.now }
    requires sorted { AllAdjacentBelow IsUpTo named.now (length named.now) }
    ensures found { IfOk result (HasPrograms sections.now code.now entries.now) }
    ensures fault { IfErr result (IfFault (ProgramsFail sections.now entries.now)) }
{
    let mut lines = no_lines(alloc, entries.unit_count())?;
    let mut last = Last {
        at: 0,
        size: 0,
        end: 0,
    };
    for one in named {
        match read_next(alloc, sections, code, *one, &mut last, &mut lines) {
            Ok(()) => {}
            Err(stop) => return Err(stop),
        }
    }
    Ok(lines)
}
