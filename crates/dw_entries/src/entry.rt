//! One entry, whose declaration and unit are looked up once.

ghost use Rattle.std.specs.Prelude.{Some, length, option_map, slice_get, ◌<◌, ◌≡◌};
ghost use Rattle.dw_forms.specs.Codes.{is_type_tag};
ghost use Rattle.dw_forms.specs.KeptDecls.{decl_view};
ghost use Rattle.dw_forms.specs.Suffixes.{numbered, specs_in};
ghost use Rattle.dw_forms.specs.Value.{view};
ghost use Rattle.dw_entries.specs.EntryRules.{values_of};
ghost use Rattle.dw_entries.specs.ByNumber.{entry_of, unit_of};
ghost use Rattle.dw_entries.specs.Entries.{Entry};
ghost use Rattle.dw_entries.specs.Leading.{leading_left};
ghost use Rattle.dw_entries.specs.Lookups.{entry_head, full_head, value_at_entry};
ghost use Rattle.dw_entries.specs.ValuesLeft.{values_left};
ghost use Rattle.dw_entries.specs.Views.{all_entries, units_of};

use crate::entries::Entries;
use crate::header::UnitHeader;
use crate::id::{EntryId, id_of};
use crate::leads::Leading;
use crate::records::Record;
use crate::units::unit_number;
use crate::values::Values;
use dw_forms::{Attribute, Attributes, DeclAt, Tag, Value};
use std::marker::Model;

/// An entry without its attributes and its depth, as it is read from its record, its declaration and its unit.
#[derive(Clone, Copy, Debug, PartialEq, Eq)]
pub struct EntryHead {
    /// Where the entry begins in .debug_info.
    pub offset: u32,
    pub tag: Tag,
    /// The number of its unit.
    pub unit: usize,
    pub parent: Option<EntryId>,
    pub next_sibling: Option<EntryId>,
}

/// An entry without its attributes.
#[derive(Clone, Copy, Debug, PartialEq, Eq)]
pub struct Head {
    /// Where the entry begins in .debug_info.
    pub offset: u32,
    pub tag: Tag,
    /// The number of its unit.
    pub unit: usize,
    /// How many entries are above it.
    pub depth: usize,
    pub parent: Option<EntryId>,
    pub next_sibling: Option<EntryId>,
}

/// One entry, with its declaration and its unit's header at hand.
#[derive(Drop)]
pub struct EntryAt<'e, 'a> {
    entries: &'e Entries<'a>,
    id: EntryId,
    kept: Record,
    decl: DeclAt<'e>,
    /// The number of its unit.
    unit: usize,
    header: UnitHeader,
}

impl<'e, 'a> Model for EntryAt<'e, 'a> {
    ghost Value = { Entry };

    ghost view = { λ it. entry_of (all_entries it.entries.now) it.id };

    ghost invariant = { λ it. (it.id < length (all_entries it.entries.now))
        × (slice_get it.entries.now.records.items it.id ≡ Some it.kept)
        × (decl_view it.decl ≡ (entry_of (all_entries it.entries.now) it.id).head.decl)
        × (it.header ≡ (unit_of (units_of it.entries.now) (entry_of (all_entries it.entries.now) it.id).unit).header)
        × (it.unit ≡ (entry_of (all_entries it.entries.now) it.id).unit) };
}

impl<'a> Entries<'a> {
    /// The entry with this number. Its declaration and its unit are looked up once.
    #[inline(always)]
    pub fn at(&self, id: EntryId) -> EntryAt<'_, 'a>
        requires { id < length (all_entries self.now) }
        ensures { result ≡ entry_of (all_entries self.now) id }
    {
        EntryAt::new(self, id, unit_number(self, id))
    }

    /// The entry with this number, which is one of this unit, whose header this is. The unit is not looked up.
    #[inline(always)]
    pub fn at_with(&self, id: EntryId, unit: usize, header: UnitHeader) -> EntryAt<'_, 'a>
        requires id { id < length (all_entries self.now) }
        requires unit { unit ≡ (entry_of (all_entries self.now) id).unit }
        requires header { header ≡ (unit_of (units_of self.now) (entry_of (all_entries self.now) id).unit).header }
        ensures { result ≡ entry_of (all_entries self.now) id }
    {
        let kept = self.record(id);
        EntryAt {
            entries: self,
            id,
            kept,
            decl: self.decls.decl(kept.decl),
            unit,
            header,
        }
    }

    /// What is told of an entry besides its attributes. Its depth is counted: each entry above it is looked at.
    pub fn head(&self, id: EntryId) -> Head
        requires { id < length (all_entries self.now) }
        ensures { result ≡ full_head (entry_of (all_entries self.now) id) }
    {
        let head = self.at(id).head();
        Head {
            offset: head.offset,
            tag: head.tag,
            unit: head.unit,
            depth: self.depth(id),
            parent: head.parent,
            next_sibling: head.next_sibling,
        }
    }

    /// The attributes of an entry in their order, each value decoded on demand.
    pub fn values(&self, id: EntryId) -> Values<'_, 'a>
        requires { id < length (all_entries self.now) }
        ensures { values_left result ≡ values_of (entry_of (all_entries self.now) id).head }
    {
        self.at(id).values()
    }

    /// The value of an entry's attribute, if it has that attribute. Its unit is looked up only where its declaration
    /// has the attribute.
    #[inline(always)]
    pub fn value(&self, id: EntryId, attribute: Attribute) -> Option<Value<'a>>
        requires { id < length (all_entries self.now) }
        ensures { option_map view result ≡ value_at_entry (entry_of (all_entries self.now) id) attribute }
    {
        if self.decl(id).lacks(attribute) {
            return None;
        }
        self.at(id).find_value(attribute)
    }
}

impl<'e, 'a> EntryAt<'e, 'a> {
    /// An entry of the unit with this number.
    #[inline(always)]
    pub(crate) fn new(entries: &'e Entries<'a>, id: EntryId, unit: usize) -> EntryAt<'e, 'a>
        requires id { id < length (all_entries entries.now) }
        requires unit { unit ≡ (entry_of (all_entries entries.now) id).unit }
        ensures { result ≡ entry_of (all_entries entries.now) id }
    {
        entries.at_with(id, unit, entries.units[unit].header)
    }

    /// Its offset in .debug_info, in bytes.
    pub fn offset(&self) -> u32
        ensures { result ≡ self.now.at }
    {
        self.kept.at
    }

    /// Its tag, as its declaration says it.
    pub fn tag(&self) -> Tag
        ensures { result ≡ self.now.head.decl.tag }
    {
        self.decl.tag()
    }

    /// Whether it is a type, as `Tag::is_type` says.
    pub fn is_type(&self) -> bool
        ensures { result ≡ is_type_tag self.now.head.decl.tag }
    {
        self.decl.is_type()
    }

    /// The number of its unit. Units are numbered in rising offset, from 0.
    pub fn unit(&self) -> usize
        ensures { result ≡ self.now.unit }
    {
        self.unit
    }

    /// Its parent. None at the first entry of a unit.
    pub fn parent(&self) -> Option<EntryId>
        ensures { result ≡ self.now.parent }
    {
        id_of(self.kept.parent)
    }

    /// What is told of the entry besides its attributes and its depth.
    #[inline(always)]
    pub fn head(&self) -> EntryHead
        ensures { result ≡ entry_head self.now }
    {
        EntryHead {
            offset: self.kept.at,
            tag: self.decl.tag(),
            unit: self.unit,
            parent: id_of(self.kept.parent),
            next_sibling: id_of(self.kept.next),
        }
    }

    /// These attributes, which are all that its declaration has.
    #[inline(always)]
    fn values_in(&self, attributes: Attributes<'e>) -> Values<'e, 'a>
        requires { specs_in attributes ≡ self.now.head.decl.attributes }
        ensures left { values_left result ≡ values_of self.now.head }
        ensures attributes { numbered result.attributes ≡ numbered attributes.entry }
    {
        let entries = self.entries;
        entries.values_with(self.id, self.kept, self.header, attributes)
    }

    /// Its attributes in their order, each value decoded on demand.
    pub fn values(&self) -> Values<'e, 'a>
        ensures { values_left result ≡ values_of self.now.head }
    {
        self.values_in(self.decl.attributes())
    }

    /// Its attributes whose values may lead elsewhere, in their order, each value decoded on demand.
    #[inline(always)]
    pub fn leading(&self) -> Leading<'e, 'a>
        ensures { leading_left result ≡ values_of self.now.head }
    {
        Leading {
            values: self.values_in(self.decl.attributes()),
            step: self.decl.step(),
        }
    }

    /// The value of its attribute, if it has that attribute.
    #[inline(always)]
    pub fn value(&self, attribute: Attribute) -> Option<Value<'a>>
        ensures { option_map view result ≡ value_at_entry self.now attribute }
    {
        if self.decl.lacks(attribute) {
            return None;
        }
        self.find_value(attribute)
    }

    /// The same, without asking first whether its declaration has the attribute.
    #[inline(always)]
    pub(crate) fn find_value(&self, attribute: Attribute) -> Option<Value<'a>>
        ensures { option_map view result ≡ value_at_entry self.now attribute }
    {
        let version = self.header.kind.version();
        let size = self.header.address_size;
        let entries = self.entries;
        let bytes = entries.value_bytes(self.id, self.kept);
        match self.decl.value(version, size, attribute, bytes) {
            Ok(value) => value,
            Err(_) => unreachable!(),
        }
    }
}
