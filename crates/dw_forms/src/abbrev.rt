//! Abbreviation tables (DWARF 5, 7.5.3).

ghost use Rattle.std.specs.Prelude.{◌≡◌, ◌==◌, ◌<◌, [], ◌∷◌, ◌++◌, length, false, find, option_map, option_copied};
ghost use Rattle.std.specs.Prelude.{option_and_then, slice_get, IfSome, IfNone, OnOk, All, ◌≢◌, Some};
ghost use Rattle.dw_forms.specs.Abbrev.{table_view};
ghost use Rattle.dw_forms.specs.Places.{StandsAt};
ghost use Rattle.dw_forms.specs.AbbrevReading.{has_code};

use crate::constants::{Attribute, Tag};
use crate::form::Form;
use std::alloc::{AllocError, Global};
use std::collections::BTreeMap;
use std::marker::Model;

/// An attribute specification: an attribute, and the form of its values.
#[derive(Clone, Copy, Debug, PartialEq, Eq)]
pub struct AttributeSpec {
    pub attribute: Attribute,
    pub form: Form,
}

/// A declaration as its table has it.
#[derive(Debug, Drop)]
pub struct Decl {
    /// The number by which entries name the declaration, at least 1.
    pub code: u64,
    pub tag: Tag,
    /// Whether a list of children follows each entry.
    pub has_children: bool,
    /// In the order of their values in an entry. No attribute is there twice.
    pub attributes: Vec<AttributeSpec>,
}

/// The declarations of one table, in their order.
#[derive(Debug, Drop)]
pub struct AbbrevTable {
    decls: Vec<Decl>,
    /// The place, from 0, of the declaration of each code.
    places: BTreeMap<u64, usize>,
}

impl Model for AbbrevTable {
    ghost use Rattle.std.specs.Prelude.{List};
    ghost use Rattle.dw_forms.specs.Abbrev.{Declaration, views};
    ghost use Rattle.dw_forms.specs.Places.{IsIndex};

    ghost Value = { List Declaration };

    ghost view = { λ t. views t.decls.items };

    ghost invariant = { λ t. IsIndex t.decls.items t.places };
}

impl AbbrevTable {
    /// A table without declarations.
    pub(crate) fn new(alloc: Global) -> Self
        ensures { result ≡ [] }
    {
        AbbrevTable {
            decls: Vec::new(alloc),
            places: BTreeMap::new(alloc),
        }
    }

    /// Whether a declaration has this code.
    pub(crate) fn has_code(&self, code: u64) -> bool
        ensures { result ≡ has_code code self.now }
    {
        self.places.contains_key(&code)
    }

    /// Adds a declaration with a new code.
    pub(crate) fn push(&mut self, decl: Decl) -> Result<(), AllocError>
        requires { has_code decl.code self.old ≡ false }
        ensures { OnOk result (self.new ≡ self.old ++ table_view decl ∷ []) }
    {
        self.decls.reserve(1)?;
        self.places.insert(decl.code, self.decls.len())?;
        self.decls.push_reserved(decl);
        Ok(())
    }

    /// How many declarations there are.
    pub fn len(&self) -> usize
        ensures { result ≡ length self.now }
    {
        self.decls.len()
    }

    /// The place of the declaration with this code among the declarations, from 0.
    pub fn place(&self, code: u64) -> Option<usize>
        ensures within { IfSome result (λ place. place < length self.now) }
        ensures found { IfSome result (λ place. StandsAt self.now place code) }
        ensures none { IfNone result (All (λ d. d.code ≢ code) self.now) }
        // The same declaration as `get` finds.
        ensures exact { find (λ d. d.code == code) self.now ≡ option_and_then (slice_get self.now) result }
    {
        self.places.get(&code).copied()
    }

    /// The declaration at this place, from 0.
    pub fn decl(&self, place: usize) -> &Decl
        requires { place < length self.now }
        ensures { slice_get self.now place ≡ Some (table_view result.now) }
    {
        &self.decls[place]
    }

    /// The declaration with this code.
    pub fn get(&self, code: u64) -> Option<&Decl>
        ensures { option_map table_view (option_copied result) ≡ find (λ d. d.code == code) self.now }
    {
        match self.place(code) {
            Some(place) => Some(self.decl(place)),
            None => None,
        }
    }
}
