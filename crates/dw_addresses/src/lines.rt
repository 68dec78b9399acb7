//! The line programs of the units of a file.

ghost use Rattle.std.specs.Prelude.{◌≡◌, ◌++◌, [], IfOk, OnErr, OnOk, option_map};
ghost use Rattle.std.specs.Option.{is_some, unwrap_or};
ghost use Rattle.dw_addresses.specs.Lines.{path_in, program_of as program_of_unit, row_in};

use crate::file_path::push_path;
use crate::line_index::LineIndex;
use dw_lines::Row;
use std::alloc::AllocError;

/// The line programs that the units of a file name.
#[derive(Drop)]
pub struct FileLines<'a> {
    /// The programs in rising offset.
    pub programs: Vec<LineIndex<'a>>,
    /// For each unit the number of its program, if it names one.
    pub of_unit: Vec<Option<usize>>,
}

impl<'a> FileLines<'a> {
    /// The program of the unit with a number. None if it names none.
    pub fn program_of(&self, unit: usize) -> Option<&LineIndex<'a>>
        ensures { option_map (λ r. r.now) result ≡ program_of_unit self.now unit }
    {
        if unit >= self.of_unit.len() {
            return None;
        }
        let number = self.of_unit[unit]?;
        if number >= self.programs.len() {
            return None;
        }
        Some(&self.programs[number])
    }

    /// The row of an address in the program of the unit with a number. None if the unit names no program, or if the
    /// address is in no sequence of the code.
    pub fn row_at(&self, unit: usize, address: u64) -> Option<Row>
        ensures { result ≡ row_in self.now unit address }
    {
        self.program_of(unit)?.row_at(address)
    }

    /// Appends the path of a file of the program of the unit with a number, and returns whether there is such a file.
    /// `comp_dir` is the directory of the compilation that the unit names, or empty.
    pub fn push_path(
        &self,
        unit: usize,
        file: u64,
        comp_dir: &[u8],
        text: &mut Vec<u8>,
    ) -> Result<bool, AllocError>
        ensures there { IfOk result (λ there. there ≡ is_some (path_in self.now unit file comp_dir.now)) }
        ensures path { OnOk result
            (text.new.items ≡ text.old.items ++ unwrap_or (path_in self.now unit file comp_dir.now) []) }
        ensures err { OnErr result (text.new.items ≡ text.old.items) }
    {
        let Some(index) = self.program_of(unit) else {
            return Ok(false);
        };
        if !index.program.header.files.has(file) {
            return Ok(false);
        }
        push_path(&index.program.header, comp_dir, file, text)?;
        Ok(true)
    }
}
