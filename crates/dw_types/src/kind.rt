//! The kinds of entries that types, counts and sizes tell apart (DWARF 5, chapter 5).

ghost use Rattle.std.specs.Prelude.{◌≡◌};
ghost use Rattle.dw_links.specs.Classes.{is_one_of};
ghost use Rattle.dw_links.specs.References.{is_declared};
ghost use Rattle.dw_types.specs.Kinds.{container_tags, declarable_tags, has_members, is_array, is_declared_type};
ghost use Rattle.dw_types.specs.Kinds.{is_enumeration, is_subrange, kind_of, passing_tags};

use dw_entries::constants::*;
use dw_entries::{EntryAt, Value};

/// The kinds of type entries that the size table tells apart.
#[derive(Clone, Copy, Debug, PartialEq, Eq)]
pub enum Kind {
    /// A declared structure, union or enumeration: its definition has the size.
    Declared,
    /// A base type, a structure, a union, an unspecified type, or a type of another language.
    OwnSized,
    Pointer,
    /// A typedef, const, volatile, restrict or atomic type.
    Alias,
    Enumeration,
    Array,
    Subroutine,
    /// No type.
    NoType,
}

/// Whether DW_AT_declaration is true.
#[inline(always)]
pub(crate) fn is_declared(entry: &EntryAt<'_, '_>) -> bool
    ensures { result ≡ is_declared entry.now }
{
    match entry.value(DW_AT_declaration) {
        Some(Value::Flag(flag)) => flag,
        _ => false,
    }
}

/// The kind of an entry.
#[inline(always)]
pub(crate) fn kind_of(entry: &EntryAt<'_, '_>) -> Kind
    ensures { result ≡ kind_of entry.now }
{
    if is_declared_type(entry) {
        return Kind::Declared;
    }
    match entry.tag() {
        DW_TAG_pointer_type => Kind::Pointer,
        DW_TAG_typedef
        | DW_TAG_const_type
        | DW_TAG_volatile_type
        | DW_TAG_restrict_type
        | DW_TAG_atomic_type => Kind::Alias,
        DW_TAG_enumeration_type => Kind::Enumeration,
        DW_TAG_array_type => Kind::Array,
        DW_TAG_subroutine_type => Kind::Subroutine,
        _ if entry.is_type() => Kind::OwnSized,
        _ => Kind::NoType,
    }
}

/// Whether entries with this tag are typedefs, const, volatile, restrict or atomic types, arrays or enumerations.
#[inline(always)]
pub(crate) fn passes_type_on(tag: Tag) -> bool
    ensures { result ≡ is_one_of passing_tags tag }
{
    matches!(
        tag,
        DW_TAG_typedef
            | DW_TAG_const_type
            | DW_TAG_volatile_type
            | DW_TAG_restrict_type
            | DW_TAG_atomic_type
            | DW_TAG_array_type
            | DW_TAG_enumeration_type
    )
}

/// Whether entries with this tag are structures or unions.
#[inline(always)]
pub(crate) fn is_container(tag: Tag) -> bool
    ensures { result ≡ is_one_of container_tags tag }
{
    matches!(tag, DW_TAG_structure_type | DW_TAG_union_type)
}

/// Whether it is a structure or union that is not declared.
#[inline(always)]
pub(crate) fn has_members(entry: &EntryAt<'_, '_>) -> bool
    ensures { result ≡ has_members entry.now }
{
    is_container(entry.tag()) && !is_declared(entry)
}

/// Whether entries with this tag are structures, unions or enumerations.
#[inline(always)]
pub(crate) fn is_declarable(tag: Tag) -> bool
    ensures { result ≡ is_one_of declarable_tags tag }
{
    matches!(
        tag,
        DW_TAG_structure_type | DW_TAG_union_type | DW_TAG_enumeration_type
    )
}

/// Whether it is a declared structure, union or enumeration.
#[inline(always)]
fn is_declared_type(entry: &EntryAt<'_, '_>) -> bool
    ensures { result ≡ is_declared_type entry.now }
{
    is_declarable(entry.tag()) && is_declared(entry)
}

/// Whether it is an array.
pub(crate) fn is_array(entry: &EntryAt<'_, '_>) -> bool
    ensures { result ≡ is_array entry.now }
{
    matches!(entry.tag(), DW_TAG_array_type)
}

/// Whether it is a subrange.
pub(crate) fn is_subrange(entry: &EntryAt<'_, '_>) -> bool
    ensures { result ≡ is_subrange entry.now }
{
    matches!(entry.tag(), DW_TAG_subrange_type)
}

/// Whether it is an enumeration that is not declared.
#[inline(always)]
pub(crate) fn is_enumeration(entry: &EntryAt<'_, '_>) -> bool
    ensures { result ≡ is_enumeration entry.now }
{
    matches!(entry.tag(), DW_TAG_enumeration_type) && !is_declared(entry)
}
