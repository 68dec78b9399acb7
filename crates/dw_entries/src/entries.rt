//! The entries of .debug_info, by their numbers and by their offsets.

ghost use Rattle.std.specs.Prelude.{◌<◌, length};
ghost use Rattle.dw_entries.specs.Scanned.{tables_among, Scanned};
ghost use Rattle.dw_entries.specs.OneProof.{scanned_unique};
ghost use Rattle.dw_entries.specs.Starts.{AreStarts};

use crate::id::{EntryId, id_of};
use crate::records::{Record, UnitRecord};
use crate::starts::{Block, number_from};
use dw_elf::Sections;
use dw_forms::{DeclAt, Decls, Tag};

/// The entries of sections whose .debug_info is a row of units, numbered in rising offset.
#[derive(Drop)]
pub struct Entries<'a> {
    pub(crate) sections: Sections<'a>,
    pub(crate) decls: Decls,
    pub(crate) units: Vec<UnitRecord>,
    pub(crate) records: Vec<Record>,
    /// Where the entries start, by blocks of .debug_info from the base on.
    pub(crate) blocks: Vec<Block>,
    pub ghost scanned: { Scanned sections.base sections.«abbrev».now sections.info.now (tables_among decls)
        units.items records.items } by { scanned_unique sections.base sections.«abbrev».now sections.info.now
            (tables_among decls) units.items records.items },
    pub ghost starts: { AreStarts records.items sections.base blocks.items },
}

impl<'a> Entries<'a> {
    ghost use Rattle.std.specs.Prelude.{◌≡◌, ◌≢◌, ◌+◌, ℕ, All, slice_get, IfSome, IfNone, Some};
    ghost use Rattle.dw_forms.specs.KeptDecls.{decl_view};
    ghost use Rattle.dw_entries.specs.ByNumber.{entry_of};
    ghost use Rattle.dw_entries.specs.Entries.{Entry};
    ghost use Rattle.dw_entries.specs.Lookups.{IsKeptIn, HasSpecsIn, nth_of};
    ghost use Rattle.dw_entries.specs.EntriesAt.{IsEntryAt};
    ghost use Rattle.dw_entries.specs.Views.{all_entries, sections_of};

    /// The sections that were scanned.
    pub fn sections(&self) -> &Sections<'a>
        ensures { result.now ≡ sections_of self.now }
    {
        &self.sections
    }

    /// How many entries there are.
    pub fn count(&self) -> usize
        ensures { result ≡ length (all_entries self.now) }
    {
        self.records.len()
    }

    /// The entry with this number.
    pub fn id(&self, number: usize) -> EntryId
        requires { number < length (all_entries self.now) }
        ensures { result ≡ number }
    {
        EntryId::new(number as u32)
    }

    /// The entry with this number. Entries are numbered from 0 in rising offset.
    pub fn nth(&self, k: usize) -> Option<EntryId>
        ensures { result ≡ nth_of (all_entries self.now) k }
    {
        if k < self.count() {
            Some(EntryId::new(k as u32))
        } else {
            None
        }
    }

    /// The declarations of the units' abbreviation tables. Each is there once, for speed: no clause says so.
    pub fn decls(&self) -> &Decls
        ensures kept { (id : ℕ) (e : Entry) → slice_get (all_entries self.now) id ≡ Some e
            → IsKeptIn result.now e.head.decl }
        ensures specs { (id : ℕ) (e : Entry) → slice_get (all_entries self.now) id ≡ Some e
            → HasSpecsIn result.now e.head.decl }
    {
        &self.decls
    }

    /// What is kept of an entry.
    pub(crate) fn record(&self, id: EntryId) -> Record
        requires { id < length (all_entries self.now) }
        ensures { slice_get self.now.records.items id ≡ Some result }
    {
        self.records[id.number()]
    }

    /// The entry that starts so many bytes after the base.
    #[inline(always)]
    pub(crate) fn find_past(&self, past: u64) -> Option<EntryId>
        ensures found { IfSome result (IsEntryAt (all_entries self.now) ((sections_of self.now).base + past)) }
        ensures none { IfNone result ((id : ℕ)
            → IsEntryAt (all_entries self.now) ((sections_of self.now).base + past) id → ⊥) }
    {
        Some(EntryId::new(number_from(&self.blocks, past)?))
    }

    /// The entry whose first byte is at this offset of .debug_info.
    pub fn find(&self, offset: u32) -> Option<EntryId>
        ensures found { IfSome result (λ id. (entry_of (all_entries self.now) id).at ≡ offset) }
        ensures within { IfSome result (λ id. id < length (all_entries self.now)) }
        ensures none { IfNone result (All (λ e. e.at ≢ offset) (all_entries self.now)) }
    {
        let past = offset.checked_sub(self.sections.base)?;
        self.find_past(u64::from(past))
    }

    /// The declaration of an entry. Its unit is not looked up.
    pub fn decl(&self, id: EntryId) -> DeclAt<'_>
        requires { id < length (all_entries self.now) }
        ensures { decl_view result ≡ (entry_of (all_entries self.now) id).head.decl }
    {
        let kept = self.record(id);
        self.decls.decl(kept.decl)
    }

    /// The tag of an entry, as its declaration says it. Its unit is not looked up.
    pub fn tag(&self, id: EntryId) -> Tag
        requires { id < length (all_entries self.now) }
        ensures { result ≡ (entry_of (all_entries self.now) id).head.decl.tag }
    {
        self.decl(id).tag()
    }

    /// The offset of an entry in .debug_info, in bytes. Its unit is not looked up.
    pub fn offset(&self, id: EntryId) -> u32
        requires { id < length (all_entries self.now) }
        ensures { result ≡ (entry_of (all_entries self.now) id).at }
    {
        self.record(id).at
    }

    /// The parent of an entry. None at the first entry of a unit. Its unit is not looked up.
    pub fn parent(&self, id: EntryId) -> Option<EntryId>
        requires { id < length (all_entries self.now) }
        ensures { result ≡ (entry_of (all_entries self.now) id).parent }
    {
        id_of(self.record(id).parent)
    }

    /// The next sibling of an entry. Its unit is not looked up.
    #[inline(always)]
    pub fn next_sibling(&self, id: EntryId) -> Option<EntryId>
        requires { id < length (all_entries self.now) }
        ensures { result ≡ (entry_of (all_entries self.now) id).next }
    {
        id_of(self.record(id).next)
    }

    /// How many entries are above an entry. Each of them is looked at, and no unit is.
    pub fn depth(&self, id: EntryId) -> usize
        requires { id < length (all_entries self.now) }
        ensures { result ≡ (entry_of (all_entries self.now) id).depth }
    {
        let mut depth = 0;
        let mut above = self.record(id).parent.get();
        while let Some(parent) = above {
            depth += 1;
            above = self.records[parent as usize].parent.get();
        }
        depth
    }
}
