//! The image of valid sections, how much it holds, and look-ups of its entries.

ghost use Rattle.std.specs.Prelude.{◌≡◌, ◌<◌, length, IfSome, option_map, option_copied};
ghost use Rattle.dw_entries.specs.Failures.{HasNone};
ghost use Rattle.dw_entries.specs.ByNumber.{entry_of};
ghost use Rattle.dw_entries.specs.Views.{sections_of, units_of};
ghost use Rattle.dw_links.specs.Classes.{ClassFailures};
ghost use Rattle.dw_links.specs.Strings.{StringFailures};
ghost use Rattle.dw_links.specs.References.{ReferenceFailures};
ghost use Rattle.dw_links.specs.Tables.{AreTables};
ghost use Rattle.dw_types.specs.Orders.{IsOrderOf};
ghost use Rattle.dw_types.specs.Steps.{by_value};
ghost use Rattle.dw_image.specs.StepsAndSizes.{AreMeasures, AreSteps};
ghost use Rattle.dw_forms.specs.Value.{view};
ghost use Rattle.dw_entries.specs.Lookups.{nth_of, full_head, value_at_entry};
ghost use Rattle.dw_entries.specs.Entries.{placed};
ghost use Rattle.dw_links.specs.Slots.{BeginsString, IfShared, IsTextPlace};
ghost use Rattle.dw_links.specs.Targets.{target_of};
ghost use Rattle.dw_links.specs.ValueTexts.{text_of_string};
ghost use Rattle.dw_types.specs.Children.{children_of};

use dw_elf::Sections;
use dw_entries::constants::DW_AT_name;
use dw_entries::{Attribute, Entries, EntryId, Head, Tag, Value};
use dw_links::{LinkTables, StringValue};
use dw_types::{ByValue, Children, Order, SizeTable};

/// The image of valid sections. Only `verify` and `verify_scanned` make one.
#[derive(Drop)]
pub struct Image<'a> {
    pub(crate) entries: Entries<'a>,
    pub(crate) tables: LinkTables,
    /// What each entry holds by value.
    pub(crate) steps: ByValue,
    /// Each entry after those that it holds by value.
    pub(crate) order: Order,
    pub(crate) sizes: SizeTable,
    ghost linked: { AreTables entries tables },
    ghost classes: { HasNone (ClassFailures (units_of entries)) },
    ghost strings: { HasNone (StringFailures (sections_of entries) (units_of entries)) },
    ghost references: { HasNone (ReferenceFailures (units_of entries)) },
    ghost stepped: { AreSteps (units_of entries) steps },
    ghost ordered: { IsOrderOf (by_value (units_of entries)) order },
    ghost measured: { AreMeasures (units_of entries) sizes },
}

#[tactic(auto, unfolding(crate::specs::Images::units_in, crate::specs::Images::sections_in, crate::specs::Images::type_count, crate::specs::Images::name_in, crate::specs::Images::name_place_in))]
impl<'a> Image<'a> {
    ghost use Rattle.dw_image.specs.Images.{sections_in, units_in, unit_count, entries_in, entry_count, type_count};
    ghost use Rattle.dw_image.specs.Images.{name_in, name_place_in};
    ghost use Rattle.dw_image.specs.Lookups.{entry_at};
    ghost use Rattle.dw_types.specs.ChildrenLeft.{children_left};

    /// The sections that were verified.
    pub fn sections(&self) -> &Sections<'a>
        ensures { result.now ≡ sections_in self.now }
    {
        self.entries.sections()
    }

    /// How many units there are.
    pub fn units(&self) -> usize
        ensures { result ≡ unit_count self.now }
    {
        self.entries.unit_count()
    }

    /// How many entries there are.
    pub fn entries(&self) -> usize
        ensures { result ≡ entry_count self.now }
    {
        self.entries.count()
    }

    /// How many entries are types, by their tags.
    pub fn types(&self) -> usize
        ensures { result ≡ type_count self.now }
    {
        self.steps.types()
    }

    /// The entries of the image, as they were scanned.
    pub fn scanned(&self) -> &Entries<'a>
        ensures { result.now ≡ self.now.entries }
    {
        &self.entries
    }

    /// What was found of references, strings and addresses.
    pub fn links(&self) -> &LinkTables
        ensures { result.now ≡ self.now.tables }
    {
        &self.tables
    }

    /// The entry that starts at this offset of .debug_info.
    pub fn entry(&self, offset: u32) -> Option<EntryId>
        ensures exact { result ≡ entry_at (entries_in self.now) offset }
        ensures within { IfSome result (λ id. id < length (entries_in self.now)) }
    {
        self.entries.find(offset)
    }

    /// The entry with this number. Entries are numbered from 0 in rising offset.
    pub fn nth(&self, k: usize) -> Option<EntryId>
        ensures exact { result ≡ nth_of (entries_in self.now) k }
        ensures within { IfSome result (λ id. id < length (entries_in self.now)) }
    {
        self.entries.nth(k)
    }

    /// What is known of an entry besides its attributes. Its depth is counted: each entry above it is looked at.
    pub fn head(&self, id: EntryId) -> Head
        requires { id < length (entries_in self.now) }
        ensures { result ≡ full_head (entry_of (entries_in self.now) id) }
    {
        self.entries.head(id)
    }

    /// The offset of an entry in .debug_info, in bytes.
    pub fn offset(&self, id: EntryId) -> u32
        requires { id < length (entries_in self.now) }
        ensures { result ≡ (entry_of (entries_in self.now) id).at }
    {
        self.entries.offset(id)
    }

    /// The tag of an entry.
    pub fn tag(&self, id: EntryId) -> Tag
        requires { id < length (entries_in self.now) }
        ensures { result ≡ (entry_of (entries_in self.now) id).head.decl.tag }
    {
        self.entries.tag(id)
    }

    /// How many entries are above an entry. Each of them is looked at.
    pub fn depth(&self, id: EntryId) -> usize
        requires { id < length (entries_in self.now) }
        ensures { result ≡ (entry_of (entries_in self.now) id).depth }
    {
        self.entries.depth(id)
    }

    /// The parent of an entry. None at the first entry of a unit.
    pub fn parent(&self, id: EntryId) -> Option<EntryId>
        requires { id < length (entries_in self.now) }
        ensures { result ≡ (entry_of (entries_in self.now) id).parent }
    {
        self.entries.parent(id)
    }

    /// The value of an entry's attribute, if it has that attribute.
    #[inline(always)]
    pub fn value(&self, id: EntryId, attribute: Attribute) -> Option<Value<'a>>
        requires { id < length (entries_in self.now) }
        ensures { option_map view result ≡ value_at_entry (entry_of (entries_in self.now) id) attribute }
    {
        self.entries.value(id, attribute)
    }

    /// The entry that an entry's attribute refers to. None if the attribute is absent or not a reference.
    pub fn target(&self, id: EntryId, attribute: Attribute) -> Option<EntryId>
        requires { id < length (entries_in self.now) }
        ensures exact { result ≡ target_of (entries_in self.now) (placed (units_in self.now))
            (entry_of (entries_in self.now) id) attribute }
        ensures within { IfSome result (λ to. to < length (entries_in self.now)) }
    {
        self.tables.target(&self.entries, id, attribute)
    }

    /// The string that an entry's DW_AT_name has. None if the entry has no name.
    #[inline(always)]
    pub fn name_string(&self, id: EntryId) -> Option<StringValue<'a>>
        requires { id < length (entries_in self.now) }
        ensures text { option_map (text_of_string (sections_in self.now)) result
            ≡ name_in self.now (entry_of (entries_in self.now) id) }
        ensures place { IfSome result (IfShared (λ place.
            name_place_in self.now (entry_of (entries_in self.now) id) ≡ Some place)) }
        ensures within { IfSome result (IfShared (IsTextPlace (sections_in self.now))) }
        ensures begins { IfSome result (IfShared (BeginsString (sections_in self.now))) }
    {
        self.tables.string(&self.entries, id, DW_AT_name)
    }

    /// The text of an entry's DW_AT_name, without its closing zero byte. None if the entry has no name.
    pub fn name_of(&self, id: EntryId) -> Option<&'a [u8]>
        requires { id < length (entries_in self.now) }
        ensures { option_copied result ≡ name_in self.now (entry_of (entries_in self.now) id) }
    {
        self.tables.text(&self.entries, id, DW_AT_name)
    }

    /// The children of an entry, in rising offset.
    pub fn children(&self, id: EntryId) -> Children<'_, 'a>
        requires { id < length (entries_in self.now) }
        ensures { children_left result ≡ children_of (entries_in self.now) id }
    {
        Children::of(&self.entries, id)
    }
}
