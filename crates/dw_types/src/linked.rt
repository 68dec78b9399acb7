//! Entries with what they refer to, looked up by number.

ghost use Rattle.std.specs.Option.{ForSome};
ghost use Rattle.dw_entries.specs.Views.{units_of};
ghost use Rattle.dw_links.specs.Tables.{AreTables};
ghost use Rattle.dw_types.specs.StoredFlags.{TellMembers};

use crate::children::Children;
use crate::flags::Flags;
use crate::kind::{has_members, is_container, is_declared};
use dw_entries::constants::*;
use dw_entries::{Cursor, Entries, EntryAt, EntryId, Fault, PlainFault, Rule, Section, Stop};
use dw_forms::DeclAt;
use dw_links::{Constant, LinkTables};
use std::alloc::{AllocError, Global};

/// The entries of .debug_info, with the targets of their references and the languages of their units. Of entries that
/// are looked up one after another, those of one unit are found sooner.
#[derive(Drop)]
pub(crate) struct LinkedEntries<'r, 'a> {
    cursor: Cursor<'r, 'a>,
    tables: &'r LinkTables,
    /// Which entries are structures or unions that are not declared, once the value of one had to be read for that.
    members: Option<Flags>,
    ghost tables_are: { AreTables cursor.entries.now tables.now },
    ghost members_are: { ForSome members (TellMembers (units_of cursor.entries.now)) },
}

impl<'r, 'a> LinkedEntries<'r, 'a> {
    ghost use Rattle.std.specs.Prelude.{◌≡◌, ◌^◌, ◌<◌, length, IfOk, IfSome, OnOk};
    ghost use Rattle.dw_forms.specs.KeptDecls.{decl_view};
    ghost use Rattle.dw_entries.specs.Stopped.{IfPlainFault};
    ghost use Rattle.dw_entries.specs.Entries.{placed};
    ghost use Rattle.dw_entries.specs.Views.{units_of};
    ghost use Rattle.dw_links.specs.Constants.{language_at};
    ghost use Rattle.dw_links.specs.References.{is_declared};
    ghost use Rattle.dw_links.specs.Tables.{AreTables};
    ghost use Rattle.dw_types.specs.Children.{children_of};
    ghost use Rattle.dw_types.specs.ChildrenLeft.{children_left};
    ghost use Rattle.dw_types.specs.Entries.{unit_address_size, entry_in, signature_target, type_target};
    ghost use Rattle.dw_types.specs.Held.{entries_held, units_held};
    ghost use Rattle.dw_types.specs.Kinds.{has_members, is_array, parent_is};
    ghost use Rattle.dw_types.specs.TypeFailures.{plain_fault_at};

    /// Entries and their tables.
    pub(crate) fn new(entries: &'r Entries<'a>, tables: &'r LinkTables) -> Self
        requires { AreTables entries.now tables.now }
        ensures same { units_held result ≡ units_of entries.now }
        ensures few { length (entries_held result) < 2 ^ 32 }
    {
        LinkedEntries {
            cursor: entries.cursor(),
            tables,
            members: None,
        }
    }

    /// How many entries there are.
    pub(crate) fn count(&self) -> usize
        ensures { result ≡ length (entries_held self.now) }
    {
        self.cursor.entries.count()
    }

    /// The entry with a number.
    pub(crate) fn id(&self, node: usize) -> EntryId
        requires { node < length (entries_held self.now) }
        ensures { result ≡ node }
    {
        self.cursor.entries.id(node)
    }

    /// The fault of a rule that an entry violates.
    pub(crate) fn fault(&self, alloc: Global, id: EntryId, rule: Rule) -> Stop<Fault>
        requires { id < length (entries_held self.now) }
        ensures { IfPlainFault (λ broken. broken ≡ plain_fault_at rule (entry_in (units_held self.now) id).at) result }
    {
        let broken = PlainFault {
            rule,
            section: Section::Info,
            at: self.cursor.entries.offset(id),
            attribute: 0,
        };
        Stop::Fault(broken.into_fault(alloc))
    }

    /// The declaration of an entry. Its unit is not looked up.
    #[inline(always)]
    pub(crate) fn decl(&self, id: EntryId) -> DeclAt<'r>
        requires { id < length (entries_held self.now) }
        ensures { decl_view result ≡ (entry_in (units_held self.now) id).head.decl }
    {
        self.cursor.entries.decl(id)
    }

    /// The parent of an entry. Its unit is not looked up.
    pub(crate) fn parent(&self, id: EntryId) -> Option<EntryId>
        requires { id < length (entries_held self.now) }
        ensures parent { result ≡ (entry_in (units_held self.now) id).parent }
        ensures earlier { IfSome result (λ above. above < id) }
    {
        self.cursor.entries.parent(id)
    }

    /// The children of an entry.
    #[inline(always)]
    pub(crate) fn children(&self, id: EntryId) -> Children<'r, 'a>
        requires { id < length (entries_held self.now) }
        ensures { children_left result ≡ children_of (entries_held self.now) id }
    {
        Children::of(self.cursor.entries, id)
    }

    /// The entry.
    #[inline(always)]
    pub(crate) fn at(&mut self, id: EntryId) -> EntryAt<'r, 'a>
        requires { id < length (entries_held self.old) }
        ensures same { units_held self.new ≡ units_held self.old }
        ensures found { result ≡ entry_in (units_held self.old) id }
    {
        self.cursor.at(id)
    }

    /// The entry, whose unit is looked up: for what is asked seldom, so that the unit at hand stays.
    pub(crate) fn look_up(&self, id: EntryId) -> EntryAt<'r, 'a>
        requires { id < length (entries_held self.now) }
        ensures { result ≡ entry_in (units_held self.now) id }
    {
        self.cursor.entries.at(id)
    }

    /// The entry that DW_AT_type of an entry refers to, which is kept since the links were made.
    #[inline(always)]
    pub(crate) fn type_target(&self, id: EntryId) -> Option<EntryId>
        requires { id < length (entries_held self.now) }
        ensures target { result ≡ type_target (units_held self.now) id }
        ensures within { IfSome result (λ to. to < length (entries_held self.now)) }
    {
        self.tables.target(self.cursor.entries, id, DW_AT_type)
    }

    /// The entry that DW_AT_signature of an entry refers to.
    #[inline(always)]
    pub(crate) fn signature_target(&self, id: EntryId) -> Option<EntryId>
        requires { id < length (entries_held self.now) }
        ensures target { result ≡ signature_target (units_held self.now) id }
        ensures within { IfSome result (λ to. to < length (entries_held self.now)) }
    {
        self.tables.target(self.cursor.entries, id, DW_AT_signature)
    }

    /// How many bytes an address has in the unit of an entry.
    pub(crate) fn address_size(&self, id: EntryId, entry: &EntryAt<'_, '_>) -> u8
        requires id { id < length (entries_held self.now) }
        requires entry { entry.now ≡ entry_in (units_held self.now) id }
        ensures { result ≡ unit_address_size (units_held self.now) id }
    {
        self.cursor.entries.unit(entry.unit()).header.address_size
    }

    /// DW_AT_language of the first entry of the unit of an entry.
    pub(crate) fn language(&self, entry: &EntryAt<'_, '_>) -> Constant
        ensures { result ≡ language_at (placed (units_held self.now)) entry.now.unit }
    {
        self.tables.language(entry.unit())
    }

    /// Whether DW_AT_declaration of an entry is true. Its value is read only if its declaration does not tell.
    #[inline(always)]
    pub(crate) fn is_declared(&mut self, id: EntryId) -> bool
        requires { id < length (entries_held self.old) }
        ensures same { units_held self.new ≡ units_held self.old }
        ensures is { result ≡ is_declared (entry_in (units_held self.old) id) }
    {
        match self.decl(id).declared() {
            Some(declared) => declared,
            None => is_declared(&self.at(id)),
        }
    }

    /// Which entries are structures or unions that are not declared.
    fn find_members(&mut self, alloc: Global) -> Result<Flags, AllocError>
        ensures same { OnOk result (units_held self.new ≡ units_held self.old) }
        ensures found { IfOk result (TellMembers (units_held self.old)) }
    {
        let count = self.count();
        let mut flags = Flags::none(alloc, count)?;
        for node in 0..count {
            let id = self.id(node);
            flags.set_if(node, has_members(&self.at(id)));
        }
        Ok(flags)
    }

    /// Whether an entry is a structure or union that is not declared, by its value of DW_AT_declaration. That is found
    /// once, for all entries, so that no value is read again for each child.
    fn has_members_by_value(&mut self, alloc: Global, id: EntryId) -> Result<bool, AllocError>
        requires { id < length (entries_held self.old) }
        ensures same { OnOk result (units_held self.new ≡ units_held self.old) }
        ensures is { IfOk result (λ is. is ≡ has_members (entry_in (units_held self.old) id)) }
    {
        if let Some(flags) = &self.members {
            return Ok(flags.get(id.number()));
        }
        let flags = self.find_members(alloc)?;
        let has_members = flags.get(id.number());
        self.members = Some(flags);
        Ok(has_members)
    }

    /// Whether an entry is a structure or union that is not declared.
    fn has_members(&mut self, alloc: Global, id: EntryId) -> Result<bool, AllocError>
        requires { id < length (entries_held self.old) }
        ensures same { OnOk result (units_held self.new ≡ units_held self.old) }
        ensures is { IfOk result (λ is. is ≡ has_members (entry_in (units_held self.old) id)) }
    {
        let decl = self.decl(id);
        if !is_container(decl.tag()) {
            return Ok(false);
        }
        if decl.declared().is_none() {
            return self.has_members_by_value(alloc, id);
        }
        Ok(!self.is_declared(id))
    }

    /// Whether the parent of an entry is a structure or union that is not declared.
    pub(crate) fn is_in_members(&mut self, alloc: Global, id: EntryId) -> Result<bool, AllocError>
        requires { id < length (entries_held self.old) }
        ensures same { OnOk result (units_held self.new ≡ units_held self.old) }
        ensures is { IfOk result (λ is. is ≡ parent_is has_members (units_held self.old) id) }
    {
        match self.parent(id) {
            Some(parent) => self.has_members(alloc, parent),
            None => Ok(false),
        }
    }

    /// Whether the parent of an entry is an array.
    pub(crate) fn is_in_array(&self, id: EntryId) -> bool
        requires { id < length (entries_held self.now) }
        ensures { result ≡ parent_is is_array (units_held self.now) id }
    {
        match self.parent(id) {
            Some(parent) => self.decl(parent).tag() == DW_TAG_array_type,
            None => false,
        }
    }
}
