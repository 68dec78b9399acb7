//! The named types of an image: their names, and what each is.

ghost use Rattle.std.specs.Prelude.{◌≡◌, ◌<◌, [], ◌++◌, ◌&&◌, length, is_some, IfOk, IfSome, OnOk};
ghost use Rattle.std.specs.List.{cons_option};
ghost use Rattle.dw_image.specs.Images.{entries_in};
ghost use Rattle.dw_cprint.specs.EntryShapes.{subject_in};
ghost use Rattle.dw_cprint.specs.Judgements.{AreKinds, AreNames, IsKindOf};
ghost use Rattle.dw_cprint.specs.Listings.{AreNamedTypes, is_named_type, named_number, named_steps};
ghost use Rattle.dw_cprint.specs.LookUps.{name_at};
ghost use Rattle.dw_cprint.specs.Steps.{entries_among, types_declared};

use crate::reaching::put_types_of_members;
use crate::shape_reader::tag_word;
use crate::source::{Source, TypeAt, flag_at, tag_at, type_at};
use crate::words::TagKeyword::OfAggregate;
use crate::words::{TagKeyword, Text};
use dw_entries::constants::*;
use dw_image::{EntryId, Image};
use std::alloc::{AllocError, Global};

/// What a named type is, by its tag.
#[derive(Clone, Copy, Debug)]
pub enum NamedKind {
    /// A typedef of a type.
    Typedef(TypeAt),
    /// A structure, union or enumeration that is not only declared.
    Defined(TagKeyword),
}

/// What an entry is, if it is a named type once it has a name.
#[inline]
#[tactic(auto, using(crate::proofs::NamedLemmas::named_by_tag))]
fn kind_at(image: &Image<'_>, id: EntryId) -> Option<NamedKind>
    requires { id < length (entries_in image.now) }
    ensures named { is_named_type (subject_in image.now id) ≡ (is_some result && is_some (name_at image.now id)) }
    ensures kind { IfSome result (IsKindOf image.now id) }
{
    match tag_at(image, id) {
        DW_TAG_typedef => Some(NamedKind::Typedef(type_at(image, id))),
        tag => {
            let word = tag_word(tag)?;
            if flag_at(image, id, DW_AT_declaration) {
                return None;
            }
            Some(NamedKind::Defined(word))
        }
    }
}

/// The named types of an image, in rising offset.
#[derive(Drop)]
pub struct Named<'a> {
    pub ids: Vec<EntryId>,
    /// The name of each.
    pub names: Vec<Text<'a>>,
    /// What each is.
    pub kinds: Vec<NamedKind>,
}

impl<'a> Named<'a> {
    /// Adds the entry with a number, if it is a named type.
    #[tactic(auto, using(crate::proofs::NamedLemmas::names_more, crate::proofs::NamedLemmas::kinds_more))]
    fn add(&mut self, source: &Source<'a>, k: usize) -> Result<(), AllocError>
        requires names { AreNames source.now.image.now self.old.ids.items self.old.names.items }
        requires kinds { AreKinds source.now.image.now self.old.ids.items self.old.kinds.items }
        ensures ids { OnOk result
            (self.new.ids.items ≡ self.old.ids.items ++ cons_option (named_number source.now.image.now k) []) }
        ensures names { OnOk result (AreNames source.now.image.now self.new.ids.items self.new.names.items) }
        ensures kinds { OnOk result (AreKinds source.now.image.now self.new.ids.items self.new.kinds.items) }
    {
        let Some(id) = source.image.nth(k) else {
            return Ok(());
        };
        let Some(kind) = kind_at(source.image, id) else {
            return Ok(());
        };
        let Some(name) = source.name(id) else {
            return Ok(());
        };
        self.ids.push(id)?;
        self.names.push(name)?;
        self.kinds.push(kind)?;
        Ok(())
    }
}

/// The named types, in rising offset.
#[tactic(auto, using(crate::proofs::NamedLemmas::none_kept, crate::proofs::NamedLemmas::named_all))]
pub fn named_types<'a>(alloc: Global, source: &Source<'a>) -> Result<Named<'a>, AllocError>
    ensures named { IfOk result (λ named. AreNamedTypes source.now.image.now named.ids.items) }
    ensures names { IfOk result (λ named. AreNames source.now.image.now named.ids.items named.names.items) }
    ensures kinds { IfOk result (λ named. AreKinds source.now.image.now named.ids.items named.kinds.items) }
{
    let mut named = Named {
        ids: Vec::new(alloc),
        names: Vec::new(alloc),
        kinds: Vec::new(alloc),
    };
    for k in 0..source.image.entries() {
        named.add(source, k)?;
    }
    Ok(named)
}

/// Appends the types that a named type leads to where it is declared. Of the others nothing is read.
fn put_types_of(
    types: &mut Vec<TypeAt>,
    image: &Image<'_>,
    id: EntryId,
    kind: &NamedKind,
) -> Result<(), AllocError>
    requires id { id < length (entries_in image.now) }
    requires kind { IsKindOf image.now id kind.now }
    ensures { OnOk result (types.new.items ≡ types.old.items ++ types_declared (subject_in image.now id)) }
{
    match kind {
        NamedKind::Typedef(at) => types.push(*at)?,
        NamedKind::Defined(OfAggregate(_)) => put_types_of_members(types, image, id)?,
        NamedKind::Defined(TagKeyword::Enum) => {}
    }
    Ok(())
}

/// The types that named types lead to.
pub fn all_types(
    alloc: Global,
    image: &Image<'_>,
    named: &Named<'_>,
) -> Result<Vec<TypeAt>, AllocError>
    requires named { AreNamedTypes image.now named.now.ids.items }
    requires kinds { AreKinds image.now named.now.ids.items named.now.kinds.items }
    ensures { IfOk result (λ types. entries_among types.items ≡ named_steps image.now named.now.ids.items) }
{
    let mut types = Vec::new(alloc);
    for k in 0..named.ids.len() {
        let id = named.ids[k];
        let kind = &named.kinds[k];
        put_types_of(&mut types, image, id, kind)?;
    }
    Ok(types)
}
