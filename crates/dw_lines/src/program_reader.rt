//! Reading a line program: its header, and the bytes of its opcodes (DWARF 5, 6.2.4; DWARF 4, 6.2.4).

ghost use Rattle.std.specs.Prelude.{◌≡◌, ◌+◌, ◌++◌, ◌≤◌, ◌<◌, ◌⊎◌, ℕ, List, length, take, drop, IfOk, IfErr};
ghost use Rattle.dw_forms.specs.Front.{BeginsWith, BeginsWithNone};
ghost use Rattle.dw_forms.specs.Stops.{IfFault, GivesOrMemory};
ghost use Rattle.dw_forms.specs.ValueReading.{Gives};
ghost use Rattle.dw_lines.specs.Header as spec;
ghost use Rattle.dw_lines.specs.Programs.{fields_of, header as header_format, program_alone as alone, program_view};
ghost use Rattle.dw_lines.specs.Programs.{HeaderFields, program_from, program_end, SpellsProgram, ProgramFails};
ghost use Rattle.dw_lines.specs.declared.program.LineSections.{LineSections as AnyLineSections};
ghost use Rattle.dw_lines.specs.declared.rule.LineFault.{LineFault as AnyLineFault};

use crate::program::{Files, LineHeader, LineSections, Parameters, Program};
use crate::rule::LineRule::LineCut;
use crate::rule::{LineFault, LineRule, Reading};
use dw_forms::{Stop, take_byte, take_bytes, take_number};
use std::alloc::Global;

/// The version. After it, only headers of version 5 have address_size, which is that of the unit, and
/// segment_selector_size, which is 0.
fn version(size: u8, bytes: &mut &[u8]) -> Result<u16, LineRule>
    ensures { Gives (λ x. (x, bytes.new.now)) result ((spec.version size).read bytes.old.now) }
{
    let version = take_number(LineCut, 2, bytes)?;
    if version < 2 || version > 5 {
        return Err(LineRule::LineVersion);
    }
    if version == 5 && (take_byte(LineCut, bytes)?, take_byte(LineCut, bytes)?) != (size, 0) {
        return Err(LineRule::LineAddressSize);
    }
    Ok(version as u16)
}

/// The fields that say what opcodes mean.
fn parameters(version: u16, size: u8, bytes: &mut &[u8]) -> Result<Parameters, LineRule>
    requires { (size ≡ 4) ⊎ (size ≡ 8) }
    ensures { Gives (λ x. (spec.numbers_of x, bytes.new.now)) result
        ((spec.parameters version size).read bytes.old.now) }
{
    let minimum_instruction_length = take_byte(LineCut, bytes)?;
    let maximum_operations_per_instruction = match version {
        0..4 => 1,
        _ => take_byte(LineCut, bytes)?,
    };
    let default_is_stmt = take_byte(LineCut, bytes)?;
    let line_base = take_byte(LineCut, bytes)?.cast_signed();
    let line_range = take_byte(LineCut, bytes)?;
    let opcode_base = take_byte(LineCut, bytes)?;
    let zero = maximum_operations_per_instruction == 0 || line_range == 0 || opcode_base == 0;
    if zero || 1 < default_is_stmt {
        return Err(LineRule::LineParameter);
    }
    Ok(Parameters {
        address_size: size,
        minimum_instruction_length,
        maximum_operations_per_instruction,
        default_is_stmt: default_is_stmt == 1,
        line_base,
        line_range,
        opcode_base,
    })
}

/// The counts of operands of the opcodes 1 to 12 (DWARF 5, 6.2.5.2).
const OPERAND_COUNTS: [u8; 12] = [0, 1, 1, 1, 1, 0, 0, 0, 1, 0, 0, 1];

impl<'a> LineSections<'a> {
    /// The header of a program that has these bytes after its length.
    fn header(&self, alloc: Global, size: u8, bytes: &mut &'a [u8]) -> Reading<LineHeader<'a>>
        requires { (size ≡ 4) ⊎ (size ≡ 8) }
        ensures { GivesOrMemory (λ x. (fields_of x, bytes.new.now)) result
            ((header_format self.now size).read bytes.old.now) }
    {
        let version = version(size, bytes)?;
        let header_length = take_number(LineCut, 4, bytes)?;
        let fields = *bytes;
        let parameters = parameters(version, size, bytes)?;
        let count = parameters.opcode_base - 1;
        let lengths = take_bytes(LineCut, u64::from(count), bytes)?;
        if !OPERAND_COUNTS.starts_with(&lengths[..12_usize.min(lengths.len())]) {
            return Err(Stop::Fault(LineRule::OpcodeLength));
        }
        let directories = self.entries(alloc, version, None, bytes)?;
        let entries = self.entries(alloc, version, Some(directories.len()), bytes)?;
        let first = u8::from(version < 5);
        if (fields.len() - bytes.len()) as u64 != header_length {
            return Err(Stop::Fault(LineRule::LineHeaderLength));
        }
        Ok(LineHeader {
            version,
            parameters,
            standard_opcode_lengths: lengths,
            directories,
            files: Files { entries, first },
        })
    }

    /// The program at an offset of `.debug_line`.
    #[tactic(auto, unfolding(crate::specs::Programs::line_program))]
    fn program(&self, alloc: Global, offset: usize, size: u8) -> Reading<Program<'a>>
        requires { (size ≡ 4) ⊎ (size ≡ 8) }
        ensures place { IfOk result (λ p.
            take (length p.opcodes.now) (drop p.opcodes_at self.now.line.now) ≡ p.opcodes.now) }
        ensures exact { GivesOrMemory program_view result (alone self.now size offset) }
        ensures end { IfOk result (λ p. p.opcodes_at + length p.opcodes.now ≡ program_end self.now offset) }
    {
        if self.line.len() <= offset {
            return Err(Stop::Fault(LineRule::LineOffset));
        }
        let mut bytes = &self.line[offset..];
        let len = take_number(LineCut, 4, &mut bytes)?;
        if len >= 0xfffffff0 {
            return Err(Stop::Fault(LineRule::Line64));
        }
        let content = take_bytes(LineCut, len, &mut bytes)?;
        let mut opcodes = content;
        let header = self.header(alloc, size, &mut opcodes)?;
        let opcodes_at = offset + 4 + (content.len() - opcodes.len());
        Ok(Program {
            header,
            opcodes_at,
            opcodes,
        })
    }
}

/// Reads the line program at an offset of `.debug_line`, up to its opcodes. The address size is that of the unit that
/// names the program. A header may be as long as the section, so a program that many units name should be read once.
pub fn read_program<'a>(
    alloc: Global,
    sections: &LineSections<'a>,
    offset: usize,
    address_size: u8,
) -> Result<Program<'a>, Stop<LineFault>>
    requires { (address_size ≡ 4) ⊎ (address_size ≡ 8) }
    // Some bytes from the offset on are this program, and no others there are any.
    ensures found { IfOk result (λ p. (len : ℕ) × BeginsWith (SpellsProgram sections.now address_size)
        (drop offset sections.now.line.now) (program_view p) len) }
    ensures none { IfErr result (IfFault (λ _.
        BeginsWithNone (SpellsProgram sections.now address_size) (drop offset sections.now.line.now))) }
    ensures fault { IfErr result (IfFault (ProgramFails sections.now address_size offset)) }
    ensures place { IfOk result (λ p.
        take (length p.opcodes.now) (drop p.opcodes_at sections.now.line.now) ≡ p.opcodes.now) }
    // The opcodes end where the program does.
    ensures end { IfOk result (λ p. p.opcodes_at + length p.opcodes.now ≡ program_end sections.now offset) }
    // For callers that reason by steps.
    ensures exact { GivesOrMemory program_view result (program_from sections.now address_size offset) }
{
    match sections.program(alloc, offset, address_size) {
        Ok(program) => Ok(program),
        Err(Stop::Memory) => Err(Stop::Memory),
        Err(Stop::Fault(rule)) => Err(Stop::Fault(LineFault { rule, at: offset })),
    }
}

/// No line program begins another, and there is one fault where no program is at an offset.
pub fn programs_are_apart()
    ensures apart { (sections : AnyLineSections) (size : ℕ) (a b x y : List ℕ) (p q : HeaderFields × List ℕ)
        → SpellsProgram sections size a p → SpellsProgram sections size b q → a ++ x ≡ b ++ y → (a ≡ b) × (p ≡ q) }
    ensures one_fault { (sections : AnyLineSections) (size offset : ℕ) (f g : AnyLineFault)
        → ProgramFails sections size offset f → ProgramFails sections size offset g → f ≡ g }
{}
