//! The units of the entries.

ghost use Rattle.std.specs.List.Sorted.{IsNonDecreasingBy, IsPartitionPoint};
ghost use Rattle.std.specs.Prelude.{IfNone, IfSome, length, map, ℕ, ◌+◌, ◌<◌, ◌≡◌, ◌≤◌};
ghost use Rattle.dw_entries.specs.ByNumber.{end_in, entry_of, placed_of};
ghost use Rattle.dw_entries.specs.Lookups.{unit_head};
ghost use Rattle.dw_entries.specs.EntriesAt.{ReachesInUnit};
ghost use Rattle.dw_entries.specs.UnitsLeft.{units_left};
ghost use Rattle.dw_entries.specs.Views.{all_entries, all_units, sections_of, units_of};

use crate::entries::Entries;
use crate::header::{UnitHeader, UnitType};
use crate::id::EntryId;
use crate::records::UnitRecord;

/// A unit without its entries.
#[derive(Clone, Copy, Debug, PartialEq, Eq)]
pub struct UnitHead {
    /// Where the unit's header begins in .debug_info.
    pub offset: u32,
    pub header: UnitHeader,
    /// In version 4 it is told by the tag of the first entry.
    pub unit_type: UnitType,
    pub first: EntryId,
}

/// How many units begin with this entry or an earlier one.
fn units_up_to(units: &[UnitRecord], id: EntryId) -> usize
    requires { IsNonDecreasingBy (λ u. u.first) units.now }
    ensures within { result ≤ length units.now }
    ensures up_to { IsPartitionPoint (λ u. u.first ≤ id) (λ u. id < u.first) units.now result }
{
    units.partition_point(|unit| unit.first as usize <= id.number())
}

/// The number of an entry's unit.
pub fn unit_number(entries: &Entries<'_>, id: EntryId) -> usize
    requires { id < length (all_entries entries.now) }
    ensures within { result < length (units_of entries.now) }
    ensures number { result ≡ (entry_of (all_entries entries.now) id).unit }
{
    units_up_to(&entries.units, id) - 1
}

/// The number of the entry after the last one of a unit.
pub fn end_of(entries: &Entries<'_>, number: usize) -> usize
    requires { number < length (units_of entries.now) }
    ensures { result ≡ end_in (all_units entries.now) number }
{
    let next = number + 1;
    if next < entries.units.len() {
        entries.units[next].first as usize
    } else {
        entries.records.len()
    }
}

impl<'a> Entries<'a> {
    /// How many units there are.
    pub fn unit_count(&self) -> usize
        ensures { result ≡ length (units_of self.now) }
    {
        self.units.len()
    }

    /// The unit with this number. Units are numbered in rising offset, from 0.
    pub fn unit(&self, number: usize) -> UnitHead
        requires { number < length (units_of self.now) }
        ensures { result ≡ unit_head (placed_of (all_units self.now) number) }
    {
        let unit = self.units[number];
        let first = EntryId::new(unit.first);
        UnitHead {
            offset: unit.at,
            header: unit.header,
            unit_type: unit.header.kind.unit_type(self.decl(first).tag()),
            first,
        }
    }

    /// The number of an entry's unit.
    pub fn unit_of(&self, id: EntryId) -> usize
        requires { id < length (all_entries self.now) }
        ensures { result ≡ (entry_of (all_entries self.now) id).unit }
    {
        unit_number(self, id)
    }

    /// The number of the first entry of a unit, and the number after that of its last entry.
    pub fn range(&self, unit: usize) -> (usize, usize)
        requires { unit < length (units_of self.now) }
        ensures first { result.0 ≡ (placed_of (all_units self.now) unit).first }
        ensures end { result.1 ≡ end_in (all_units self.now) unit }
    {
        (self.units[unit].first as usize, end_of(self, unit))
    }

    /// The entry of a unit that begins so far after the first byte of the unit's header.
    #[inline(always)]
    pub fn find_in_unit(&self, unit: usize, offset: u64) -> Option<EntryId>
        requires { unit < length (units_of self.now) }
        ensures found { IfSome result (ReachesInUnit (all_entries self.now) (all_units self.now) unit offset) }
        ensures none { IfNone result ((id : ℕ)
            → ReachesInUnit (all_entries self.now) (all_units self.now) unit offset id → ⊥) }
    {
        self.find_in_range(unit, self.past_base(unit), self.range(unit), offset)
    }

    /// How many bytes after the base the header of a unit starts.
    #[inline(always)]
    pub fn past_base(&self, unit: usize) -> u32
        requires { unit < length (units_of self.now) }
        ensures { (sections_of self.now).base + result ≡ (placed_of (all_units self.now) unit).at }
    {
        self.units[unit].at - self.sections.base
    }

    /// The same, where the unit's header is so many bytes after the base, and these are the number of its first entry
    /// and the number after that of its last entry. The unit is not looked up.
    #[inline(always)]
    pub fn find_in_range(
        &self,
        unit: usize,
        past: u32,
        range: (usize, usize),
        offset: u64,
    ) -> Option<EntryId>
        requires unit { unit < length (units_of self.now) }
        requires past { (sections_of self.now).base + past ≡ (placed_of (all_units self.now) unit).at }
        requires first { range.0 ≡ (placed_of (all_units self.now) unit).first }
        requires end { range.1 ≡ end_in (all_units self.now) unit }
        ensures found { IfSome result (ReachesInUnit (all_entries self.now) (all_units self.now) unit offset) }
        ensures none { IfNone result ((id : ℕ)
            → ReachesInUnit (all_entries self.now) (all_units self.now) unit offset id → ⊥) }
    {
        let id = self.find_past(offset.checked_add(u64::from(past))?)?;
        if id.number() < range.0 || id.number() >= range.1 {
            return None;
        }
        Some(id)
    }

    /// The units in rising offset.
    pub fn units(&self) -> Units<'_, 'a>
        ensures { units_left result ≡ map unit_head (all_units self.now) }
    {
        Units {
            entries: self,
            number: 0,
        }
    }
}

/// The units that are left, in rising offset.
#[derive(Drop)]
pub struct Units<'e, 'a> {
    pub(crate) entries: &'e Entries<'a>,
    pub(crate) number: usize,
}

impl<'e, 'a> Iterator for Units<'e, 'a> {
    type Item = UnitHead;

    ghost use Rattle.std.specs.Iterator.{YieldsFirst, item_count};

    ghost next_gives = { YieldsFirst units_left };

    ghost remaining = { item_count units_left };

    fn next(&mut self) -> Option<UnitHead> {
        if self.number < self.entries.unit_count() {
            let unit = self.entries.unit(self.number);
            self.number += 1;
            Some(unit)
        } else {
            None
        }
    }
}
