//! Reads the lines of a file: the line programs of its units, and the files that its entries name.

ghost use Rattle.std.specs.Prelude.{IfErr, IfOk};
ghost use Rattle.dw_forms.specs.Stops.{IfFault};
ghost use Rattle.dw_addresses.specs.Addresses.{AreAreas};
ghost use Rattle.dw_addresses.specs.Lines.{HasLines, LinesFail};

use crate::fault::LinesFault;
use crate::files::check_files;
use crate::lines::FileLines;
use crate::named::named_in_order;
use crate::programs::read_programs;
use dw_entries::{Attribute, Entries, Stop};
use dw_lines::LineSections;
use std::alloc::Global;

/// Reads the lines of a file, where `code` are the areas of the program's code. Each program that units name is read
/// once for each size of an address in these units. Returns the first rule that is violated: first those on programs,
/// in rising offset, and then F1, in the order of the entries.
pub fn lines_of_file<'a>(
    alloc: Global,
    sections: &LineSections<'a>,
    code: &'a [(u64, u64)],
    entries: &Entries<'_>,
) -> Result<FileLines<'a>, Stop<LinesFault>>
    requires { AreAreas code.now }
    ensures found { IfOk result (HasLines sections.now code.now entries.now) }
    ensures fault { IfErr result (IfFault (LinesFail sections.now code.now entries.now)) }
{
    let named = named_in_order(alloc, entries)?;
    let lines = match read_programs(alloc, sections, code, entries, &named) {
        Ok(lines) => lines,
        Err(Stop::Memory) => return Err(Stop::Memory),
        Err(Stop::Fault(fault)) => {
            return Err(Stop::Fault(LinesFault {
                fault,
                attribute: Attribute(0),
            }));
        }
    };
    match check_files(entries, &lines) {
        Ok(()) => Ok(lines),
        Err(fault) => Err(Stop::Fault(fault)),
    }
}
