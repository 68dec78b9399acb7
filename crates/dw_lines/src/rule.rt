//! The rules on line programs, each with its code and its name, and why a line program is not read.
//! Its variants, and the arms of its table, are made by docs/make-rules.py from docs/rules.tsv.

ghost use Rattle.std.specs.Prelude.{◌≡◌};
ghost use Rattle.dw_forms.specs.declared.fault.Stop.TheVariants.{Fault};
ghost use Rattle.dw_lines.specs.Files.{value_rule_of};
ghost use Rattle.dw_lines.specs.LineRules.{code_text, name_text};

use dw_forms::{Stop, ValueFault};

/// A rule on a line program.
#[derive(Clone, Copy, Debug, PartialEq, Eq)]
pub enum LineRule {
    /// L1: no byte of .debug_line is at the offset.
    LineOffset,
    /// L2: a part of the header passes the program's end, or the program passes the section's.
    LineCut,
    /// L3: the length means 64-bit DWARF or is reserved.
    Line64,
    /// L4: the version is not one of 2 to 5.
    LineVersion,
    /// L5: an address has another size than in the unit, or a segment selector has bytes.
    LineAddressSize,
    /// L6: the tables do not end where the header's length says that the opcodes start.
    LineHeaderLength,
    /// L7: a field has a number that it may not have.
    LineParameter,
    /// L8: a standard opcode has another count of operands.
    OpcodeLength,
    /// L9: a format has a content twice or in a form that it may not have, or lacks a path where there are entries.
    LineForm,
    /// L10: a string starts outside its section, or no zero byte ends it there.
    LineString,
    /// L11: a file is in a directory that the program does not have.
    LineDirectory,
    /// L12: a number has more than 10 bytes or more than 64 bits.
    LineNumber,
    /// L13: the program starts inside another one that a unit names.
    ProgramsMeet,
    /// M1: an opcode passes the program's end.
    OpcodeCut,
    /// M2: an operand has more than 10 bytes or more than 64 bits.
    OpcodeNumber,
    /// M3: the length of an extended opcode is not that of its operands.
    ExtendedLength,
    /// M4: the program does not have the file of a row.
    RowFile,
    /// M5: a row has a smaller address than the row before it in its sequence.
    RowDescends,
    /// M6: an address is too great.
    RowAddress,
    /// M7: a line or a column is below 0 or too great.
    RowLine,
    /// M8: the last sequence has no end.
    NotEnded,
    /// F1: an attribute that names a file has a value that is no file of the unit's program.
    NoFile,
}

impl LineRule {
    /// The code of the rule, and its name.
    #[tactic(auto, unfolding(crate::specs::LineRules::code_text, crate::specs::LineRules::name_text))]
    fn texts(self) -> (&'static str, &'static str)
        ensures code { result.0.now ≡ code_text self }
        ensures name { result.1.now ≡ name_text self }
    {
        match self {
            LineRule::LineOffset => ("L1", "LineOffset"),
            LineRule::LineCut => ("L2", "LineCut"),
            LineRule::Line64 => ("L3", "Line64"),
            LineRule::LineVersion => ("L4", "LineVersion"),
            LineRule::LineAddressSize => ("L5", "LineAddressSize"),
            LineRule::LineHeaderLength => ("L6", "LineHeaderLength"),
            LineRule::LineParameter => ("L7", "LineParameter"),
            LineRule::OpcodeLength => ("L8", "OpcodeLength"),
            LineRule::LineForm => ("L9", "LineForm"),
            LineRule::LineString => ("L10", "LineString"),
            LineRule::LineDirectory => ("L11", "LineDirectory"),
            LineRule::LineNumber => ("L12", "LineNumber"),
            LineRule::ProgramsMeet => ("L13", "ProgramsMeet"),
            LineRule::OpcodeCut => ("M1", "OpcodeCut"),
            LineRule::OpcodeNumber => ("M2", "OpcodeNumber"),
            LineRule::ExtendedLength => ("M3", "ExtendedLength"),
            LineRule::RowFile => ("M4", "RowFile"),
            LineRule::RowDescends => ("M5", "RowDescends"),
            LineRule::RowAddress => ("M6", "RowAddress"),
            LineRule::RowLine => ("M7", "RowLine"),
            LineRule::NotEnded => ("M8", "NotEnded"),
            LineRule::NoFile => ("F1", "NoFile"),
        }
    }

    /// The letter of the rule's group and a number.
    pub fn code(self) -> &'static str
        ensures { result.now ≡ code_text self }
    {
        self.texts().0
    }

    /// The name of the rule's variant.
    pub fn name(self) -> &'static str
        ensures { result.now ≡ name_text self }
    {
        self.texts().1
    }
}

/// The first rule that a line program violates, and where.
#[derive(Clone, Copy, Debug, PartialEq, Eq)]
pub struct LineFault {
    pub rule: LineRule,
    /// The offset in `.debug_line` of the program's first byte for the rules L, of the opcode's for the rules M, and in
    /// `.debug_info` of the entry for the rule F1.
    pub at: usize,
}

impl From<ValueFault> for LineRule {
    ghost from_gives = { λ f e. e ≡ value_rule_of f };

    fn from(fault: ValueFault) -> LineRule {
        match fault {
            ValueFault::Cut => LineRule::LineCut,
            ValueFault::BadNumber => LineRule::LineNumber,
            ValueFault::BadIndirect => LineRule::LineForm,
        }
    }
}

impl From<LineRule> for Stop<LineRule> {
    ghost from_gives = { λ rule e. e ≡ Fault rule };

    fn from(rule: LineRule) -> Stop<LineRule> {
        Stop::Fault(rule)
    }
}

/// What reading gives: a value, or the rule that is violated, or no memory.
pub(crate) type Reading<T> = Result<T, Stop<LineRule>>;
