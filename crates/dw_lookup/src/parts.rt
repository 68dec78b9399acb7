//! What a file has beside its six sections: line programs, range lists, and the areas of its code.

ghost use Rattle.std.specs.Prelude.{◌≡◌, ◌↔◌, ◌⊎◌, ℕ, map, IfErr, IfOk, OnOk};
ghost use Rattle.dw_elf.specs.Checks.{HasHeaders};
ghost use Rattle.dw_addresses.specs.Addresses.{AreAreas as ArePairs};
ghost use Rattle.dw_ranges.specs.Areas.{AreAreas, Has};
ghost use Rattle.dw_lookup.specs.Parts.{AreCodeAreas, HasParts, IsCodeAt, PartsFail, budget_of, pair_of};

use dw_elf::{ElfFault, OtherSection, Sections, code_at, find_other, header_count};
use dw_lines::LineSections;
use dw_ranges::{Range, RangeSections, join};
use std::alloc::{AllocError, Global};

/// The sections that line programs and range lists are read from.
#[derive(Clone, Copy)]
pub struct Parts<'a> {
    pub lines: LineSections<'a>,
    pub lists: RangeSections<'a>,
}

/// Finds the sections that line programs and range lists are read from.
pub fn parts_of<'a>(file: &'a [u8], sections: &Sections<'a>) -> Result<Parts<'a>, ElfFault>
    ensures headers { OnOk result (HasHeaders file.now) }
    ensures parts { IfOk result (HasParts file.now sections.now) }
    ensures fault { IfErr result (PartsFail file.now) }
{
    let line = match find_other(file, OtherSection::Line) {
        Ok(line) => line,
        Err(fault) => return Err(fault),
    };
    let rnglists = match find_other(file, OtherSection::RngLists) {
        Ok(rnglists) => rnglists,
        Err(fault) => return Err(fault),
    };
    let ranges = match find_other(file, OtherSection::Ranges) {
        Ok(ranges) => ranges,
        Err(fault) => return Err(fault),
    };
    Ok(Parts {
        lines: LineSections::new(line, sections.line_str, sections.str),
        lists: RangeSections { rnglists, ranges },
    })
}

/// Adds the addresses of a section, if it is code.
fn push_code(areas: &mut Vec<Range>, file: &[u8], k: u16) -> Result<(), AllocError>
    requires { HasHeaders file.now }
    ensures { OnOk result ((a : ℕ) → Has areas.new.items a ↔ (Has areas.old.items a ⊎ IsCodeAt file.now a k)) }
{
    let Some(code) = code_at(file, k) else {
        return Ok(());
    };
    let low = code.address;
    let high = low.saturating_add(code.size);
    areas.push(Range { low, high })?;
    Ok(())
}

/// The areas of a file's code, in rising order.
pub fn code_areas(alloc: Global, file: &[u8]) -> Result<Vec<Range>, AllocError>
    requires { HasHeaders file.now }
    ensures { IfOk result (λ areas. AreCodeAreas file.now areas.items) }
{
    let mut areas = Vec::new(alloc);
    for k in 0..header_count(file) {
        push_code(&mut areas, file, k)?;
    }
    join(&mut areas);
    Ok(areas)
}

/// Areas as pairs of their first address and the one after their last.
pub fn pairs_of(alloc: Global, areas: &[Range]) -> Result<Vec<(u64, u64)>, AllocError>
    requires { AreAreas areas.now }
    ensures pairs { IfOk result (λ pairs. pairs.items ≡ map pair_of areas.now) }
    ensures areas { IfOk result (λ pairs. ArePairs pairs.items) }
{
    let mut pairs = Vec::new(alloc);
    for area in areas {
        pairs.push((area.low, area.high))?;
    }
    Ok(pairs)
}

/// How many bytes of range lists may be read: as many as the sections have that name them and that they are in.
pub fn list_budget(sections: &Sections<'_>, lists: &RangeSections<'_>) -> usize
    ensures { result ≡ budget_of sections.now lists.now }
{
    let named = sections.info.len();
    named
        .saturating_add(lists.rnglists.len())
        .saturating_add(lists.ranges.len())
}
