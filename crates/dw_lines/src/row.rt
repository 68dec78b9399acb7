//! The registers of the machine that a line program runs on, which are a row of the line number table (DWARF 5, 6.2.2),
//! and what an opcode does to them (6.2.5).

ghost use Rattle.std.specs.Prelude.{◌≡◌, ◌<◌, ◌^◌, ◌/◌, ◌%◌};
ghost use Rattle.dw_lines.specs.Machine.{start, moved, advanced, with_line};
ghost use Rattle.dw_lines.specs.Turns.{Changes};

use crate::program::Parameters;
use crate::rule::LineRule;

/// A row of the line number table, which is what the machine's registers hold when the row is appended. The fields have
/// the names of the registers (DWARF 5, 6.2.2). The widest come first, so that no bytes between them are copied.
#[derive(Clone, Copy, Debug, PartialEq, Eq)]
pub struct Row {
    pub address: u64,
    pub file: u64,
    pub isa: u64,
    pub discriminator: u64,
    pub line: u32,
    pub column: u32,
    pub op_index: u8,
    pub is_stmt: bool,
    pub basic_block: bool,
    /// Whether the row ends its sequence: its address is the first after the sequence, and its other fields mean
    /// nothing.
    pub end_sequence: bool,
    pub prologue_end: bool,
    pub epilogue_begin: bool,
}

impl Row {
    /// The registers at the start of each sequence.
    pub(crate) fn start(default_is_stmt: bool) -> Row
        ensures { result ≡ start default_is_stmt }
    {
        Row {
            address: 0,
            op_index: 0,
            file: 1,
            line: 1,
            column: 0,
            is_stmt: default_is_stmt,
            basic_block: false,
            end_sequence: false,
            prologue_end: false,
            epilogue_begin: false,
            isa: 0,
            discriminator: 0,
        }
    }

    /// Makes the address this many bytes greater. A tombstone stays where that has more than 64 bits.
    #[inline(always)]
    pub(crate) fn add_bytes(&mut self, bytes: u128, op_index: u8) -> Result<(), LineRule>
        requires { bytes < 2 ^ 80 }
        ensures { Changes result (moved bytes op_index self.old) self.old self.new }
    {
        if let Ok(address) = u64::try_from(u128::from(self.address) + bytes) {
            self.address = address;
            self.op_index = op_index;
        } else if self.address < u64::MAX - 1 {
            return Err(LineRule::RowAddress);
        }
        Ok(())
    }

    /// An operation advance.
    #[inline(always)]
    pub(crate) fn advance(&mut self, parameters: &Parameters, advance: u64) -> Result<(), LineRule>
        ensures { Changes result (advanced parameters.now advance self.old) self.old self.new }
    {
        let least = u128::from(parameters.minimum_instruction_length);
        let sum = u128::from(self.op_index) + u128::from(advance);
        let most = u128::from(parameters.maximum_operations_per_instruction);
        if most == 1 {
            return self.add_bytes(least * sum, 0);
        }
        self.add_bytes(least * (sum / most), (sum % most) as u8)
    }

    /// Makes the line this much greater.
    #[inline(always)]
    pub(crate) fn add_lines(&mut self, lines: i64) -> Result<(), LineRule>
        ensures { Changes result (with_line lines self.old) self.old self.new }
    {
        let line = i128::from(self.line) + i128::from(lines);
        self.line = u32::try_from(line).map_err(|_| LineRule::RowLine)?;
        Ok(())
    }
}
