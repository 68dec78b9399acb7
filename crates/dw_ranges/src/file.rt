//! The functions of a file by address.

ghost use Rattle.std.specs.Prelude.{◌≡◌, ◌++◌, List, ℕ, IfOk, IfSome, IfNone, OnOk, map};
ghost use Rattle.dw_ranges.specs.Files.{AreFunctionsAt, HasAt, IsIndex, IsIndexOf, IsUnitAt};
ghost use Rattle.dw_ranges.specs.Functions.{Known as AnyKnown};
ghost use Rattle.dw_ranges.specs.UnitRanges.{range_of};

use crate::functions::{UnitFunctions, inside_at};
use crate::range::Range;
use crate::spans::{Span, functions_at};
use crate::totals::Totals;
use crate::unit_ranges::{UnitRange, unit_at};
use std::alloc::AllocFailed;

/// Where the spans of a unit are.
#[derive(Clone, Copy, Debug, PartialEq, Eq)]
pub struct UnitSpans {
    pub first: usize,
    /// The number after that of the last one.
    pub end: usize,
}

/// The functions of a file by address.
#[derive(Drop)]
pub struct FileFunctions {
    /// The ranges of the first unit of each address, in rising order.
    pub units: Vec<UnitRange>,
    /// The spans of the functions of all units.
    pub spans: Vec<Span>,
    /// For each unit, where its spans are.
    pub parts: Vec<UnitSpans>,
    /// What was counted.
    pub totals: Totals,
}

impl FileFunctions {
    /// The unit of an address: the first one that has it.
    pub fn unit_at(&self, address: u64) -> Option<usize>
        requires { IsIndex self.now }
        ensures found { (units : List AnyKnown) → IsIndexOf units self.now → IfSome result (IsUnitAt units address) }
        ensures none { (units : List AnyKnown) → IsIndexOf units self.now
            → IfNone result ((number : ℕ) → ¬ (HasAt units address number)) }
    {
        unit_at(&self.units, address)
    }

    /// The functions that have an address, each inlined in the one before it, and its unit.
    pub fn functions_at(
        &self,
        address: u64,
        functions: &mut Vec<usize>,
    ) -> Result<Option<usize>, AllocFailed<usize>>
        requires { IsIndex self.now }
        ensures { IfOk result (λ unit. (units : List AnyKnown) → IsIndexOf units self.now
            → AreFunctionsAt units address unit functions.new.items) }
    {
        let Some(unit) = self.unit_at(address) else {
            functions.clear();
            return Ok(None);
        };
        let part = self.parts[unit];
        functions_at(&self.spans[part.first..part.end], address, functions)?;
        Ok(Some(unit))
    }
}

/// Appends the areas of a unit.
pub(crate) fn push_areas(
    all: &mut Vec<UnitRange>,
    areas: &[Range],
    unit: usize,
) -> Result<(), AllocFailed<UnitRange>>
    ensures { OnOk result (all.new.items ≡ all.old.items ++ map (range_of unit) areas.now) }
{
    for area in areas {
        all.push(UnitRange {
            low: area.low,
            high: area.high,
            unit,
        })?;
    }
    Ok(())
}
