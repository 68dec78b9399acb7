//! Look-ups of one entry after another, with the unit of the last at hand.

ghost use Rattle.std.specs.Prelude.{length, ◌<◌, ◌≡◌};
ghost use Rattle.dw_entries.specs.ByNumber.{entry_of};
ghost use Rattle.dw_entries.specs.Cursors.{HasEntries};
ghost use Rattle.dw_entries.specs.Views.{all_entries};

use crate::entries::Entries;
use crate::entry::EntryAt;
use crate::id::EntryId;
use crate::units::{end_of, unit_number};

/// Looks up one entry after another. The unit of the last is kept at hand, so that the entries of one unit are found
/// sooner.
#[derive(Drop)]
pub struct Cursor<'e, 'a> {
    /// The entries that are looked up.
    pub entries: &'e Entries<'a>,
    /// The number of the unit at hand, whose entries are those from the first one on, and before the end.
    unit: usize,
    first: usize,
    end: usize,
    ghost its: { HasEntries (all_entries entries.now) unit first end },
}

impl<'a> Entries<'a> {
    /// Looks up one entry after another, sooner than `at` where they are of one unit.
    pub fn cursor(&self) -> Cursor<'_, 'a>
        ensures { result.entries.now ≡ self.now }
    {
        Cursor {
            entries: self,
            unit: 0,
            first: 0,
            end: 0,
        }
    }
}

impl<'e, 'a> Cursor<'e, 'a> {
    /// The entry with this number. Its declaration is looked up once.
    #[inline(always)]
    pub fn at(&mut self, id: EntryId) -> EntryAt<'e, 'a>
        requires { id < length (all_entries self.old.entries.now) }
        ensures same { self.new.entries.now ≡ self.old.entries.now }
        ensures found { result ≡ entry_of (all_entries self.old.entries.now) id }
    {
        let number = id.number();
        if self.first <= number && number < self.end {
            return EntryAt::new(self.entries, id, self.unit);
        }
        let unit = unit_number(self.entries, id);
        self.unit = unit;
        self.first = self.entries.units[unit].first as usize;
        self.end = end_of(self.entries, unit);
        EntryAt::new(self.entries, id, unit)
    }
}
