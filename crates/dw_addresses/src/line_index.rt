//! The row that a line program has for an address (DWARF 5, 6.2.2 and 6.2.5.3).

ghost use Rattle.std.specs.Prelude.{◌≡◌, IfErr, IfOk, None, Some};
ghost use Rattle.dw_forms.specs.Stops.{IfFault};
ghost use Rattle.dw_addresses.specs.Index.{IsIndex};
ghost use Rattle.dw_lines.specs.Rows.{program_run};

use crate::sequence::{
    Sequence, live_sequences, order, reaches_of, row_up_to, rows_of, sequence_with,
};
use dw_forms::Stop;
use dw_lines::{LineFault, Program, Row};
use std::alloc::Global;

/// All rows of a program, if it violates no rule.
fn all_rows(alloc: Global, program: &Program<'_>) -> Result<Vec<Row>, Stop<LineFault>>
    ensures rows { IfOk result (λ rows. program_run program.now ≡ record { rows = rows.items; fault = None }) }
    ensures fault { IfErr result (IfFault (λ fault. (program_run program.now).fault ≡ Some fault)) }
{
    let mut left = program.rows();
    let mut rows = Vec::new(alloc);
    loop {
        match left.next() {
            Ok(Some(row)) => rows.push(row)?,
            Ok(None) => return Ok(rows),
            Err(fault) => return Err(Stop::Fault(fault)),
        }
    }
}

/// A line program whose rows are found by address.
#[derive(Drop)]
pub struct LineIndex<'a> {
    pub program: Program<'a>,
    /// The areas of the code.
    pub code: &'a [(u64, u64)],
    rows: Vec<Row>,
    /// The sequences of the code, in the order of their addresses.
    sequences: Vec<Sequence>,
    reaches: Vec<u64>,
    ghost rows_are: { rows.items ≡ (program_run program).rows },
    ghost indexed: { IsIndex code.now rows.items sequences.items reaches.items },
}

impl<'a> LineIndex<'a> {
    ghost use Rattle.std.specs.Prelude.{length, OnOk};
    ghost use Rattle.std.specs.List.{count_by};
    ghost use Rattle.dw_addresses.specs.Addresses.{AreAreas, row_at as row_of_address};

    /// The rows of a program, to be found by address. The areas of code are those of the file. Returns the first rule
    /// that the program's opcodes violate.
    pub fn new(
        alloc: Global,
        program: Program<'a>,
        code: &'a [(u64, u64)],
    ) -> Result<LineIndex<'a>, Stop<LineFault>>
        requires { AreAreas code.now }
        ensures program { IfOk result (λ index. index.program ≡ program.entry) }
        ensures code { IfOk result (λ index. index.code ≡ code.entry) }
        ensures sound { OnOk result ((program_run program.entry).fault ≡ None) }
        ensures fault { IfErr result (IfFault (λ fault. (program_run program.entry).fault ≡ Some fault)) }
    {
        let rows = all_rows(alloc, &program)?;
        let mut sequences = live_sequences(alloc, &rows, code)?;
        order(sequences.as_mut_slice());
        let reaches = reaches_of(alloc, &sequences)?;
        Ok(LineIndex {
            program,
            code,
            rows,
            sequences,
            reaches,
        })
    }

    /// The row of an address. None if the address is in no sequence of the code.
    pub fn row_at(&self, address: u64) -> Option<Row>
        ensures { result ≡ row_of_address self.now.code.now (program_run self.now.program).rows address }
    {
        let sequence = sequence_with(&self.sequences, &self.reaches, address)?;
        row_up_to(rows_of(&self.rows, sequence), address)
    }

    /// How many rows the program has.
    pub fn row_count(&self) -> usize
        ensures { result ≡ length (program_run self.now.program).rows }
    {
        self.rows.len()
    }

    /// How many sequences the program has: each is ended by one of its rows.
    pub fn sequence_count(&self) -> usize
        ensures { result ≡ count_by (λ row. row.end_sequence) (program_run self.now.program).rows }
    {
        self.rows.iter().filter(|row| row.end_sequence).count()
    }
}
