//! What sound sections say, as rows in three arrays of the caller.

ghost use Rattle.std.specs.Prelude.{◌≡◌, ◌+◌, ◌<◌, ◌≤◌, length, drop, unwrap_or};
ghost use Rattle.std.specs.Bool.{OnTrue, OnFalse};
ghost use Rattle.dw_entries.specs.EntryRules.{values_of};
ghost use Rattle.dw_entries.specs.ByNumber.{entry_of};
ghost use Rattle.dw_image.specs.Images.{entries_in, entry_count, name_in, name_place_in};
ghost use Rattle.dw_image.specs.Images.{unit_count};
ghost use Rattle.dwv_c.specs.Meanings.{AreThere};
ghost use Rattle.dwv_c.specs.SectionPlaces.{IsNameSpan, nowhere};
ghost use Rattle.dwv_c.specs.Tables.{AreHolders, AreTable, HasRoom, HaveEntries, HaveUnits, HaveValues, IsEntryRow};
ghost use Rattle.dwv_c.specs.Tables.{PutsTable, arrays, counts_of, value_count, values_before};
ghost use Rattle.dwv_c.specs.TableState.{AreBefore, IsUnitOf};
ghost use Rattle.dwv_c.specs.Verdicts.{Given, IsSound, of_image};

use crate::meaning::{ValueRow, named_after, value_row};
use crate::places::{Holders, Span};
use crate::table_rows::{EntryRow, Links, TableCounts, UnitRow, depth_by_rows, row_with, unit_row};
use crate::values::Resolver;
use crate::verdict::{NO_MEMORY, SOUND, TOO_SHORT, Verdict, verdict_of_counts};
use dw_entries::{Cursor, EntryId};
use dw_image::Image;
use dw_report::size_of_entry;
use dw_units::Counts;
use std::alloc::Global;

impl<'i, 'a> Resolver<'i, 'a> {
    /// Writes the rows of an entry's values from a row on. Returns which row follows them, and where the entry's name
    /// is.
    #[tactic(auto, unfolding(dw_image::specs::Images::units_in, dw_image::specs::Images::sections_in))]
    fn put_values(
        &self,
        unit: usize,
        values: &mut [ValueRow],
        from: usize,
        id: EntryId,
    ) -> (usize, Option<Span>)
        requires unit { IsUnitOf self.now.image.now unit id }
        requires room { value_count self.now.image.now ≤ length values.old }
        requires from { from ≡ values_before self.now.image.now id }
        requires before { HaveValues self.now.holders self.now.image.now from values.old }
        ensures next { result.0 ≡ values_before self.now.image.now (id + 1) }
        ensures name { IsNameSpan self.now.holders
            (name_in self.now.image.now (entry_of (entries_in self.now.image.now) id))
            (name_place_in self.now.image.now (entry_of (entries_in self.now.image.now) id))
            (unwrap_or result.1 nowhere) }
        ensures rows { HaveValues self.now.holders self.now.image.now result.0 values.new }
        ensures rest { drop result.0 values.new ≡ drop result.0 values.old }
    {
        let mut left = self.image.scanned().placed(id, unit);
        let mut at = from;
        let mut named = None;
        'items: while let Some((attribute, value, end)) = left.next_placed() {
            let meaning = self.meaning(unit, &value, end);
            values[at] = value_row(id.number() as u32, attribute, meaning);
            named = named_after(named, attribute, meaning);
            at += 1;
        }
        (at, named.flatten())
    }

    /// The row of an entry, after the rows of all entries before it.
    #[tactic(auto, unfolding(dw_image::specs::Images::units_in))]
    fn entry_row(
        &self,
        unit: usize,
        entries: &[EntryRow],
        from: usize,
        next: usize,
        name: Option<Span>,
        id: EntryId,
    ) -> EntryRow
        requires unit { IsUnitOf self.now.image.now unit id }
        requires room { id ≤ length entries.now }
        requires before { HaveEntries self.now.holders self.now.image.now id entries.now }
        requires from { from ≡ values_before self.now.image.now id }
        requires next { next ≡ values_before self.now.image.now (id + 1) }
        requires name { IsNameSpan self.now.holders
            (name_in self.now.image.now (entry_of (entries_in self.now.image.now) id))
            (name_place_in self.now.image.now (entry_of (entries_in self.now.image.now) id)) (unwrap_or name nowhere) }
        ensures { IsEntryRow self.now.holders self.now.image.now id
            (entry_of (entries_in self.now.image.now) id) result }
    {
        let image = self.image;
        let depth = depth_by_rows(entries, image.parent(id));
        let size = size_of_entry(image, id);
        let links = Links {
            first_value: from,
            values: next - from,
            unit,
            parent: image.parent(id),
            next_sibling: image.scanned().next_sibling(id),
        };
        row_with(image.offset(id), depth, image.tag(id), size, name, links)
    }

    /// Writes the rows of an entry and of its values, and says which row follows these.
    #[tactic(auto, unfolding(dw_image::specs::Images::units_in))]
    fn put_entry(
        &self,
        cursor: &mut Cursor<'i, 'a>,
        entries: &mut [EntryRow],
        values: &mut [ValueRow],
        number: usize,
        from: usize,
    ) -> usize
        requires cursor { cursor.old.entries.now ≡ self.now.image.now.entries }
        requires number { number < entry_count self.now.image.now }
        requires room { number < length entries.old }
        requires value_room { value_count self.now.image.now ≤ length values.old }
        requires from { from ≡ values_before self.now.image.now number }
        requires before { AreBefore self.now.holders self.now.image.now number from entries.old
            values.old }
        ensures cursor { cursor.new.entries.now ≡ self.now.image.now.entries }
        ensures next { result ≡ values_before self.now.image.now (number + 1) }
        ensures rows { AreBefore self.now.holders self.now.image.now (number + 1) result entries.new
            values.new }
        ensures rest { (drop (number + 1) entries.new ≡ drop (number + 1) entries.old)
            × (drop result values.new ≡ drop result values.old) }
    {
        let id = self.image.scanned().id(number);
        let unit = cursor.at(id).unit();
        let (next, name) = self.put_values(unit, values, from, id);
        entries[number] = self.entry_row(unit, entries, from, next, name, id);
        next
    }

    /// Writes the rows of all entries and values.
    #[tactic(auto, unfolding(dw_image::specs::Images::units_in))]
    fn put_entries(&self, entries: &mut [EntryRow], values: &mut [ValueRow])
        requires room { entry_count self.now.image.now ≤ length entries.old }
        requires value_room { value_count self.now.image.now ≤ length values.old }
        ensures rows { AreBefore self.now.holders self.now.image.now
            (entry_count self.now.image.now) (value_count self.now.image.now) entries.new values.new }
        ensures rest { (drop (entry_count self.now.image.now) entries.new
            ≡ drop (entry_count self.now.image.now) entries.old)
            × (drop (value_count self.now.image.now) values.new ≡ drop (value_count self.now.image.now) values.old) }
    {
        let mut cursor = self.image.scanned().cursor();
        let mut at = 0;
        for number in 0..self.image.entries() {
            at = self.put_entry(&mut cursor, entries, values, number, at);
        }
    }
}

/// Writes the rows of all units.
#[tactic(auto, unfolding(dw_image::specs::Images::units_in))]
fn put_units(image: &Image<'_>, units: &mut [UnitRow])
    requires { unit_count image.now ≤ length units.old }
    ensures rows { HaveUnits image.now (unit_count image.now) units.new }
    ensures rest { drop (unit_count image.now) units.new ≡ drop (unit_count image.now) units.old }
{
    for number in 0..image.units() {
        units[number] = unit_row(image, number);
    }
}

/// How many values an entry has.
#[tactic(auto, unfolding(dw_image::specs::Images::units_in))]
fn count_entry(image: &Image<'_>, id: EntryId) -> u32
    requires { id < length (entries_in image.now) }
    ensures { result ≡ length (values_of (entry_of (entries_in image.now) id).head) }
{
    image.scanned().decl(id).attributes().count()
}

/// How many values the entries have.
#[tactic(auto, unfolding(dw_image::specs::Images::units_in))]
fn count_values(image: &Image<'_>) -> usize
    ensures { result ≡ value_count image.now }
{
    let mut count = 0;
    for number in 0..image.entries() {
        count += count_entry(image, image.scanned().id(number)) as usize;
    }
    count
}

/// Writes how many rows there are, and the verdict.
fn put_counts(image: &Image<'_>, values: usize, counts: &mut TableCounts, verdict: &mut Verdict)
    requires { values ≡ value_count image.now }
    ensures counts { counts.new ≡ counts_of image.now }
    ensures verdict { verdict.new ≡ of_image image.now }
{
    let found = Counts::of(image);
    *counts = TableCounts {
        units: found.units as u64,
        entries: found.entries as u64,
        values: values as u64,
    };
    *verdict = verdict_of_counts(found);
}

/// Whether each array has room for its rows.
fn is_room(
    image: &Image<'_>,
    count: usize,
    units: &[UnitRow],
    entries: &[EntryRow],
    values: &[ValueRow],
) -> bool
    requires { count ≡ value_count image.now }
    ensures room { OnTrue result (HasRoom image.now (arrays units.now entries.now values.now)) }
    ensures none { OnFalse result (¬ HasRoom image.now (arrays units.now entries.now values.now)) }
{
    image.units() <= units.len() && image.entries() <= entries.len() && count <= values.len()
}

/// Writes all rows, for which there is room. False if an allocation failed: then nothing is written.
fn put_rows<'a>(
    alloc: Global,
    holders: Holders<'a>,
    image: &Image<'a>,
    units: &mut [UnitRow],
    entries: &mut [EntryRow],
    values: &mut [ValueRow],
) -> bool
    requires there { AreThere image.now holders }
    requires room { HasRoom image.now (arrays units.old entries.old values.old) }
    ensures whole { OnTrue result (AreTable holders.entry image.now (arrays units.old entries.old values.old)
        (arrays units.new entries.new values.new)) }
    ensures none { OnFalse result ((units.new ≡ units.old) × (entries.new ≡ entries.old) × (values.new ≡ values.old)) }
{
    let Ok(resolver) = Resolver::read(alloc, holders, image) else {
        return false;
    };
    put_units(image, units);
    resolver.put_entries(entries, values);
    true
}

/// Writes all rows if there is room for them, how many there are, and the verdict.
pub fn put_table<'a>(
    alloc: Global,
    holders: Holders<'a>,
    image: &Image<'a>,
    units: &mut [UnitRow],
    entries: &mut [EntryRow],
    values: &mut [ValueRow],
    counts: &mut TableCounts,
    verdict: &mut Verdict,
) -> u32
    requires { AreThere image.now holders }
    ensures { (g : Given) → IsSound g image.now → AreHolders g image.now holders.entry
        → PutsTable g (arrays units.old entries.old values.old) counts.old verdict.old
        result (arrays units.new entries.new values.new) counts.new verdict.new }
{
    let count = count_values(image);
    if !is_room(image, count, units, entries, values) {
        put_counts(image, count, counts, verdict);
        return TOO_SHORT;
    }
    if !put_rows(alloc, holders, image, units, entries, values) {
        return NO_MEMORY;
    }
    put_counts(image, count, counts, verdict);
    SOUND
}
