//! The rows of a line program, one after another, and the machine that makes them (DWARF 5, 6.2.2).

ghost use Rattle.std.specs.Prelude.{◌≡◌, ◌≤◌, true, false, All, None, Some};
ghost use Rattle.dw_forms.specs.Formats.{nothing};
ghost use Rattle.dw_forms.specs.ValueReading.{Gives};
ghost use Rattle.dw_lines.specs.Machine.{row_turn};
ghost use Rattle.dw_lines.specs.Opcodes.{Other, Special, count_in, extended_opcode, opcode_after, operands};
ghost use Rattle.dw_lines.specs.Rows.{Yields, program_run};
ghost use Rattle.dw_lines.specs.Sequences.{HasFile, Ascend, AllEnd};
ghost use Rattle.dw_lines.specs.declared.program.Program.{Program as AnyProgram};

use crate::program::{LineHeader, Program};
use crate::row::Row;
use crate::rule::LineRule::{ExtendedLength, OpcodeCut, OpcodeNumber};
use crate::rule::{LineFault, LineRule};
use dw_forms::{take_bytes, take_number, take_sleb, take_uleb};

/// Skips the operands of an opcode that the standard does not define: as many as `standard_opcode_lengths` says.
#[cold]
fn skip_others<'a>(lengths: &[u8], code: u8, bytes: &'a [u8]) -> Result<&'a [u8], LineRule>
    requires { 1 ≤ code }
    ensures { Gives (λ x. (Other, x.now)) result ((operands (count_in lengths.now code)).read bytes.now) }
{
    let mut rest = bytes;
    for _ in 0..lengths.get(usize::from(code) - 1).copied().unwrap_or(0) {
        take_uleb(OpcodeCut, OpcodeNumber, &mut rest)?;
    }
    Ok(rest)
}

/// The rows of a line program that are left. It runs the program opcode by opcode and allocates nothing.
#[derive(Drop)]
pub struct Rows<'p, 'a> {
    pub(crate) header: &'p LineHeader<'a>,
    /// After an opcode that appends a row they are that row, until it is taken.
    pub(crate) registers: Row,
    /// The address of the last row of the sequence.
    pub(crate) last: Option<u64>,
    /// The opcodes that are left.
    pub(crate) rest: &'a [u8],
    /// The offset of the program's end in `.debug_line`.
    pub(crate) end: usize,
}

impl<'a> Rows<'_, 'a> {
    ghost use Rattle.dw_lines.specs.RowsLeft.{run_left};
    ghost use Rattle.dw_lines.specs.Turns.{Runs, Turns, turn_to};

    /// Appends a row, after which these opcodes are left.
    #[inline(always)]
    fn append(&mut self, row: Row, rest: &'a [u8]) -> Result<bool, LineRule>
        ensures { Turns result (row_turn self.old.header.now self.old.last row rest.now) self.old self.new }
    {
        if row.address < self.last.unwrap_or(0) {
            return Err(LineRule::RowDescends);
        }
        if row.end_sequence || self.header.files.has(row.file) {
            self.registers = row;
            self.rest = rest;
            return Ok(true);
        }
        Err(LineRule::RowFile)
    }

    /// Takes the row that was appended, and clears the registers.
    #[inline(always)]
    fn take_row(&mut self) -> Row
        ensures row { turn_to true self.old ≡ record (turn_to false self.new) { row = Some result } }
        ensures header { self.new.header ≡ self.old.header }
        ensures end { self.new.end ≡ self.old.end }
    {
        let row = self.registers;
        if row.end_sequence {
            self.registers = Row::start(self.header.parameters.default_is_stmt);
            self.last = None;
            return row;
        }
        self.registers.discriminator = 0;
        self.registers.basic_block = false;
        self.registers.prologue_end = false;
        self.registers.epilogue_begin = false;
        self.last = Some(row.address);
        row
    }

    /// Runs a special opcode, whose code is this much above the opcode base.
    #[inline(always)]
    fn run_special(&mut self, adjusted: u8, rest: &'a [u8]) -> Result<bool, LineRule>
        ensures { Runs (nothing (Special adjusted)) rest.now result self.old self.new }
    {
        let parameters = &self.header.parameters;
        let mut row = self.registers;
        row.advance(parameters, u64::from(adjusted / parameters.line_range))?;
        let lines = adjusted % parameters.line_range;
        row.add_lines(i64::from(parameters.line_base) + i64::from(lines))?;
        self.append(row, rest)
    }

    /// Runs an extended opcode after its zero byte (DWARF 5, 6.2.5.3). One that the standard does not define does
    /// nothing.
    #[inline(always)]
    fn run_extended(&mut self, bytes: &'a [u8]) -> Result<bool, LineRule>
        ensures { Runs (extended_opcode self.old.header.now.parameters.address_size) bytes.now result
            self.old self.new }
    {
        let mut rest = bytes;
        let len = take_uleb(OpcodeCut, OpcodeNumber, &mut rest)?;
        let content = take_bytes(OpcodeCut, len, &mut rest)?;
        let [code, operands @ ..] = content else {
            return Err(ExtendedLength);
        };
        let mut left = operands;
        let mut row = self.registers;
        match *code {
            // DW_LNE_end_sequence
            1 => row.end_sequence = true,
            // DW_LNE_set_address
            2 => {
                let size = self.header.parameters.address_size;
                row.address = take_number(ExtendedLength, size, &mut left)?;
                row.op_index = 0;
            }
            // DW_LNE_set_discriminator
            4 => row.discriminator = take_uleb(ExtendedLength, OpcodeNumber, &mut left)?,
            _ => left = &[],
        }
        if !left.is_empty() {
            return Err(ExtendedLength);
        }
        if *code == 1 {
            return self.append(row, rest);
        }
        self.registers = row;
        self.rest = rest;
        Ok(false)
    }

    /// Runs the opcode with this first byte, after which these bytes follow (DWARF 5, 6.2.5). Returns whether it
    /// appends a row.
    #[inline(always)]
    fn run_next(&mut self, code: u8, bytes: &'a [u8]) -> Result<bool, LineRule>
        ensures { Runs (opcode_after self.old.header.now code) bytes.now result self.old self.new }
    {
        let parameters = &self.header.parameters;
        if parameters.opcode_base <= code {
            return self.run_special(code - parameters.opcode_base, bytes);
        }
        let row = &mut self.registers;
        let mut rest = bytes;
        match code {
            0 => return self.run_extended(bytes),
            // DW_LNS_copy
            1 => return self.append(self.registers, bytes),
            // DW_LNS_advance_pc
            2 => row.advance(parameters, take_uleb(OpcodeCut, OpcodeNumber, &mut rest)?)?,
            // DW_LNS_advance_line
            3 => row.add_lines(take_sleb(OpcodeCut, OpcodeNumber, &mut rest)?)?,
            // DW_LNS_set_file
            4 => row.file = take_uleb(OpcodeCut, OpcodeNumber, &mut rest)?,
            // DW_LNS_set_column
            5 => {
                let column = take_uleb(OpcodeCut, OpcodeNumber, &mut rest)?;
                row.column = u32::try_from(column).map_err(|_| LineRule::RowLine)?;
            }
            // DW_LNS_negate_stmt
            6 => row.is_stmt = !row.is_stmt,
            // DW_LNS_set_basic_block
            7 => row.basic_block = true,
            // DW_LNS_const_add_pc
            8 => {
                let adjusted = 255 - parameters.opcode_base;
                row.advance(parameters, u64::from(adjusted / parameters.line_range))?;
            }
            // DW_LNS_fixed_advance_pc
            9 => row.add_bytes(u128::from(take_number(OpcodeCut, 2, &mut rest)?), 0)?,
            // DW_LNS_set_prologue_end
            10 => row.prologue_end = true,
            // DW_LNS_set_epilogue_begin
            11 => row.epilogue_begin = true,
            // DW_LNS_set_isa
            12 => row.isa = take_uleb(OpcodeCut, OpcodeNumber, &mut rest)?,
            // One that the standard does not define does nothing.
            _ => rest = skip_others(self.header.standard_opcode_lengths, code, rest)?,
        }
        self.rest = rest;
        Ok(false)
    }

    /// The next row, or none after the last. Returns the first rule that the program violates, at its place; the rows
    /// before that place are returned first.
    #[inline(always)]
    pub fn next(&mut self) -> Result<Option<Row>, LineFault>
        ensures { Yields result (run_left self.old) (run_left self.new) }
    {
        while let Some((code, bytes)) = self.rest.split_first() {
            match self.run_next(*code, bytes) {
                Ok(false) => {}
                Ok(true) => return Ok(Some(self.take_row())),
                Err(rule) => {
                    let at = self.end.saturating_sub(self.rest.len());
                    return Err(LineFault { rule, at });
                }
            }
        }
        let Some(_last) = self.last else {
            return Ok(None);
        };
        let (rule, at) = (LineRule::NotEnded, self.end);
        Err(LineFault { rule, at })
    }
}

impl<'a> Program<'a> {
    ghost use Rattle.dw_lines.specs.RowsLeft.{run_left};

    /// The rows of the program.
    pub fn rows(&self) -> Rows<'_, 'a>
        ensures { run_left result ≡ program_run self.now }
    {
        Rows {
            header: &self.header,
            registers: Row::start(self.header.parameters.default_is_stmt),
            last: None,
            rest: self.opcodes,
            end: self.opcodes_at + self.opcodes.len(),
        }
    }
}

/// The rows of a program up to its first fault: the file of each is one of the program's, addresses ascend within a
/// sequence, and without a fault each sequence has an end.
pub fn rows_obey_the_rules()
    ensures files { (p : AnyProgram) → All (HasFile p.header.files) (program_run p).rows }
    ensures ascend { (p : AnyProgram) → Ascend None (program_run p).rows }
    ensures ended { (p : AnyProgram) → (program_run p).fault ≡ None → AllEnd None (program_run p).rows }
{}
