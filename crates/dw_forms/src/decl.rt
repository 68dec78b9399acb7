//! Abbreviation declarations (DWARF 5, 7.5.3).

ghost use Rattle.std.specs.Prelude.{◌≡◌, ◌≢◌, ◌<◌, ◌≤◌, ◌⊎◌, ◌↔◌, Some, All, IsTrue, length, map, slice_get};
ghost use Rattle.std.specs.Int.{bit_at};
ghost use Rattle.dw_forms.specs.ValueReading.{Gives};
ghost use Rattle.dw_forms.specs.AttributeBits.{bit_of, own_bits};
ghost use Rattle.dw_forms.specs.AttributeLists.{numbered_in, spec_of};
ghost use Rattle.dw_forms.specs.DeclaredLists.{HasList, HavePlaces, IsPlaced};
ghost use Rattle.dw_forms.specs.Codes.{is_type_tag};

use crate::abbrev::AttributeSpec;
use crate::attribute_bits::{OWN_BITS, bit_of, count_below, mask_of};
use crate::attribute_lists::AttributeLists;
use crate::attributes::{Attributes, cut_at};
use crate::code::{Attribute, Tag};
use crate::form::Form;
use crate::known_places::KnownPlace;
use crate::leading_steps::Step;
use crate::value::{Value, ValueFault};

/// A declaration that is kept.
#[derive(Clone, Copy, Debug)]
pub struct KeptDecl {
    pub(crate) code: u64,
    pub(crate) tag: Tag,
    pub(crate) has_children: bool,
    /// Whether entries with the tag are types.
    pub(crate) is_type: bool,
    /// Whether DW_AT_declaration of each entry is true. None if that depends on the entry's value.
    pub(crate) declared: Option<bool>,
    /// The size of all values of an entry together, in bytes, where addresses have 8. None if one of them has no one
    /// size.
    pub(crate) whole: Option<u32>,
    /// The step to the first of its attributes at which a walk over values that may lead elsewhere stops.
    pub(crate) step: Step,
    /// The list of its attributes.
    pub(crate) first: u32,
    /// The table after it.
    pub(crate) rest: u32,
    /// The bits of its attributes.
    pub(crate) bits: u32,
    /// Where the places of those with bits of their own begin among the places of all declarations. They are in the
    /// order of the bits.
    pub(crate) first_place: usize,
    ghost type_tag: { is_type ≡ is_type_tag tag },
}

/// What the entries with one code have in common.
#[derive(Clone, Copy, Debug)]
pub struct DeclAt<'a> {
    pub(crate) kept: &'a KeptDecl,
    pub(crate) lists: &'a AttributeLists,
    /// The places of the attributes of all declarations.
    pub(crate) places: &'a [KnownPlace],
    ghost list: { HasList lists.now.nodes.items kept.now.first kept.now.step kept.now.bits kept.now.declared
        kept.now.whole },
    ghost placed: { HavePlaces (numbered_in lists.now.nodes.items kept.now.first) kept.now.bits kept.now.first_place
        places.now },
}

/// The declarations of the tables of a section, each once. They are numbered from 1.
#[derive(Debug, Drop)]
pub struct Decls {
    pub(crate) kept: Vec<KeptDecl>,
    pub(crate) lists: AttributeLists,
    /// The places of their attributes.
    pub(crate) places: Vec<KnownPlace>,
    ghost all: { All (λ k. HasList lists.nodes.items k.first k.step k.bits k.declared k.whole) kept.items },
    ghost placed: { All (λ k. HavePlaces (numbered_in lists.nodes.items k.first) k.bits k.first_place places.items)
        kept.items },
}

impl Decls {
    ghost use Rattle.dw_forms.specs.KeptDecls.{decl_of, decl_view};

    /// The declaration of a number.
    pub fn decl(&self, number: u32) -> DeclAt<'_>
        requires some { 0 < number }
        requires within { number ≤ length self.now.kept.items }
        ensures { decl_of self.now.lists.nodes.items self.now.kept.items number ≡ Some (decl_view result) }
    {
        DeclAt::new(&self.kept[(number - 1) as usize], &self.lists, &self.places)
    }

    /// How many attributes the declarations have, each counted once.
    pub fn spec_count(&self) -> usize
        ensures { result ≡ length self.now.lists.nodes.items }
    {
        self.lists.nodes.len()
    }

    /// The attribute with this number, from 0.
    pub fn spec(&self, number: usize) -> AttributeSpec
        requires { number < length self.now.lists.nodes.items }
        ensures { slice_get (map spec_of self.now.lists.nodes.items) number ≡ Some result }
    {
        self.lists.nodes[number].spec()
    }
}

impl<'a> DeclAt<'a> {
    ghost use Rattle.dw_forms.specs.KeptDecls.{decl_view};
    ghost use Rattle.dw_forms.specs.Codes.{DW_AT_declaration};
    ghost use Rattle.dw_forms.specs.KnownValues.{flag_in, values_end};
    ghost use Rattle.dw_forms.specs.Sizes.{are_allowed};
    ghost use Rattle.dw_forms.specs.Suffixes.{numbered, numbered_of, specs_in};
    ghost use Rattle.dw_forms.specs.FirstPlaces.{AnswersFirst};
    ghost use Rattle.dw_forms.specs.LeadingWalks.{IsFirstStep};

    /// A declaration with the lists of its attributes.
    pub(crate) fn new(
        kept: &'a KeptDecl,
        lists: &'a AttributeLists,
        places: &'a [KnownPlace],
    ) -> DeclAt<'a>
        requires list { HasList lists.now.nodes.items kept.now.first kept.now.step kept.now.bits kept.now.declared
            kept.now.whole }
        requires placed { HavePlaces (numbered_in lists.now.nodes.items kept.now.first) kept.now.bits
            kept.now.first_place places.now }
        ensures kept { result.kept.now ≡ kept.now }
        ensures lists { result.lists.now ≡ lists.now }
    {
        DeclAt {
            kept,
            lists,
            places,
        }
    }

    /// The number by which entries name the declaration, at least 1.
    pub fn code(&self) -> u64
        ensures { result ≡ (decl_view self.now).code }
    {
        self.kept.code
    }

    pub fn tag(&self) -> Tag
        ensures { result ≡ (decl_view self.now).tag }
    {
        self.kept.tag
    }

    /// Whether a list of children follows each entry.
    pub fn has_children(&self) -> bool
        ensures { result ≡ (decl_view self.now).has_children }
    {
        self.kept.has_children
    }

    /// In the order of their values in an entry. No attribute is there twice.
    pub fn attributes(&self) -> Attributes<'a>
        ensures specs { specs_in result ≡ (decl_view self.now).attributes }
        ensures numbered { numbered result ≡ numbered_of self.now }
    {
        Attributes::new(self.lists, self.kept.first)
    }

    /// The step to the first attribute at which a walk over the values that may lead elsewhere stops.
    pub fn step(&self) -> &'a Step
        ensures { IsFirstStep (numbered_of self.now) result.now }
    {
        &self.kept.step
    }

    /// Whether no attribute has this code. That takes one test for the attributes that rules and declarations look for.
    #[inline(always)]
    pub fn lacks(&self, attribute: Attribute) -> bool
        ensures { IsTrue result ↔ All (λ spec. spec.attribute ≢ attribute) (decl_view self.now).attributes }
    {
        if self.kept.bits & mask_of(attribute) == 0 {
            return true;
        }
        if bit_of(attribute) < OWN_BITS {
            return false;
        }
        self.attributes().lacks(attribute)
    }

    /// The place of an attribute that the declaration has, and which has a bit of its own.
    #[inline(always)]
    fn place(&self, attribute: Attribute) -> KnownPlace
        requires own { bit_of attribute < own_bits }
        requires some { bit_at self.now.kept.now.bits (bit_of attribute) ≡ 1 }
        ensures { IsPlaced (numbered_of self.now) attribute result }
    {
        let before = count_below(self.kept.bits, attribute);
        self.places[self.kept.first_place + before as usize]
    }

    /// The value of the attribute with this code, if one is declared, in an entry whose values begin with the bytes.
    /// The work is bounded by the bytes before it.
    #[inline(always)]
    pub fn value<'b>(
        &self,
        version: u16,
        address_size: u8,
        attribute: Attribute,
        bytes: &'b [u8],
    ) -> Result<Option<Value<'b>>, ValueFault>
        requires { (address_size ≡ 4) ⊎ (address_size ≡ 8) }
        ensures { AnswersFirst version address_size (decl_view self.now).attributes attribute bytes.now result }
    {
        let attributes = Attributes::new(self.lists, self.kept.first);
        if bit_of(attribute) >= OWN_BITS {
            return attributes.value(version, address_size, attribute, bytes);
        }
        if self.kept.bits & mask_of(attribute) == 0 {
            return Ok(None);
        }
        let place = self.place(attribute);
        let found = Attributes::new(self.lists, place.list);
        match place.at {
            Some(at) if address_size == 8 => {
                attributes.value_at(version, attribute, found, at, bytes)
            }
            _ => attributes.value_of(version, address_size, attribute, found, bytes),
        }
    }

    /// Whether the entries are types, as `Tag::is_type` says.
    pub fn is_type(&self) -> bool
        ensures { result ≡ is_type_tag (decl_view self.now).tag }
    {
        self.kept.is_type
    }

    /// Whether DW_AT_declaration of each entry is true: if it has the form DW_FORM_flag_present, it is, and if it is
    /// absent, it is not (DWARF 5, section 7.5.5). None if that depends on the entry's value.
    pub fn declared(&self) -> Option<bool>
        ensures { result ≡ flag_in DW_AT_declaration (decl_view self.now).attributes }
    {
        self.kept.declared
    }

    /// The bytes after all values of an entry. They are passed together if each has one size.
    #[inline(always)]
    pub fn pass_all<'b>(
        &self,
        version: u16,
        address_size: u8,
        bytes: &'b [u8],
    ) -> Result<&'b [u8], ValueFault>
        requires { (address_size ≡ 4) ⊎ (address_size ≡ 8) }
        ensures { Gives (λ rest. rest.now) result
            (values_end version address_size (decl_view self.now).attributes bytes.now) }
    {
        if address_size == 8 {
            if let Some(size) = self.kept.whole {
                return cut_at(bytes, size as usize);
            }
        }
        self.attributes().pass_all(version, address_size, bytes)
    }

    /// Whether a unit of this version may have all forms of the declaration.
    #[tactic(auto, using(crate::proofs::OwnBits::all_allowed))]
    pub fn allows(&self, version: u16) -> bool
        requires { (version ≡ 4) ⊎ (version ≡ 5) }
        ensures { result ≡ are_allowed version (decl_view self.now).attributes }
    {
        if version != 4 {
            return true;
        }
        self.attributes().in_version_4()
    }
}
