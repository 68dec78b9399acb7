//! Reads the functions of all units of a file.

ghost use Rattle.std.specs.Prelude.{◌≡◌, ◌++◌, ◌<◌, ◌∷◌, [], IfErr, IfOk, OnOk, length, map};
ghost use Rattle.dw_entries.specs.Views.{units_of};
ghost use Rattle.dw_forms.specs.Stops.{IfFault};
ghost use Rattle.dw_ranges.specs.Areas.{AreAreas};
ghost use Rattle.dw_ranges.specs.Files.{AreRead, FileViolates, HasFile, IsIndex};
ghost use Rattle.dw_ranges.specs.Functions.{AreInside, scope_at, scopes_of};
ghost use Rattle.dw_ranges.specs.UnitRanges.{range_of};

use crate::bounds::RangeSections;
use crate::fault::RangeFault;
use crate::file::{FileFunctions, UnitSpans, push_areas};
use crate::functions::{Buffers, UnitFunctions, inside_at};
use crate::range::Range;
use crate::spans::Span;
use crate::totals::Totals;
use crate::unit_functions::functions_of_unit;
use crate::unit_ranges::{UnitRange, first_units};
use dw_entries::{Entries, Stop};
use std::alloc::{AllocError, Global};

/// What is kept of the units of a file, up to one of them.
#[derive(Drop)]
struct UnitTables {
    /// The areas of the units.
    all: Vec<UnitRange>,
    /// The spans of their functions.
    spans: Vec<Span>,
    /// For each unit, where its spans are.
    parts: Vec<UnitSpans>,
}

/// Adds a unit.
fn add_unit(tables: &mut UnitTables, known: &UnitFunctions, number: usize) -> Result<(), AllocError>
    requires { AreInside known.now }
    ensures all { OnOk result (tables.new.all.items
        ≡ tables.old.all.items ++ map (range_of number) (scope_at (scopes_of known.now) 0).areas) }
    ensures spans { OnOk result (tables.new.spans.items ≡ tables.old.spans.items ++ known.now.spans.items) }
    ensures parts { OnOk result (tables.new.parts.items ≡ tables.old.parts.items
        ++ record {
          first = length tables.old.spans.items;
          end = length (tables.old.spans.items ++ known.now.spans.items);
        } ∷ []) }
{
    let inside = inside_at(known, 0);
    push_areas(
        &mut tables.all,
        &known.areas[inside.first..inside.end],
        number,
    )?;
    let first = tables.spans.len();
    tables.spans.extend_from_slice(&known.spans)?;
    let end = tables.spans.len();
    tables.parts.push(UnitSpans { first, end })?;
    Ok(())
}

/// Reads the units in their order.
fn read_units(
    alloc: Global,
    sections: &RangeSections<'_>,
    code: &[Range],
    entries: &Entries<'_>,
    budget: usize,
    tables: &mut UnitTables,
) -> Result<Totals, Stop<RangeFault>>
    requires code { AreAreas code.now }
    requires all { tables.old.all.items ≡ [] }
    requires parts { tables.old.parts.items ≡ [] }
    ensures found { IfOk result (λ totals. AreRead sections.now code.now entries.now budget
        (length (units_of entries.now)) totals tables.new.all.items tables.new.spans.items tables.new.parts.items) }
    ensures fault { IfErr result (IfFault (FileViolates sections.now code.now entries.now budget)) }
{
    let mut known = UnitFunctions::new(alloc, budget);
    let mut buffers = Buffers::new(alloc);
    for number in 0..entries.unit_count() {
        match functions_of_unit(sections, code, entries, number, &mut known, &mut buffers) {
            Ok(()) => {}
            Err(stop) => return Err(stop),
        }
        add_unit(tables, &known, number)?;
    }
    Ok(known.totals)
}

/// Reads the functions of a file, one unit after another, where `code` are the areas of the program's code. A range
/// list takes its bytes from `budget` each time that an entry names it: apart from sorting and binary searches, the
/// time is linear in it and in the entries. Of the rules that are violated the first one of the first unit is returned.
pub fn functions_of_file(
    alloc: Global,
    sections: &RangeSections<'_>,
    code: &[Range],
    entries: &Entries<'_>,
    budget: usize,
) -> Result<FileFunctions, Stop<RangeFault>>
    requires { AreAreas code.now }
    ensures found { IfOk result (HasFile sections.now code.now entries.now budget) }
    ensures index { IfOk result IsIndex }
    ensures fault { IfErr result (IfFault (FileViolates sections.now code.now entries.now budget)) }
{
    let mut tables = UnitTables {
        all: Vec::new(alloc),
        spans: Vec::new(alloc),
        parts: Vec::new(alloc),
    };
    let totals = match read_units(alloc, sections, code, entries, budget, &mut tables) {
        Ok(totals) => totals,
        Err(stop) => return Err(stop),
    };
    let UnitTables {
        mut all,
        spans,
        parts,
    } = tables;
    let mut units = Vec::new(alloc);
    first_units(alloc, all.as_mut_slice(), &mut units)?;
    Ok(FileFunctions {
        units,
        spans,
        parts,
        totals,
    })
}
