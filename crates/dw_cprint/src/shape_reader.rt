//! The shapes of entries, and the entry that is declared, read from an image.

ghost use Rattle.std.specs.Prelude.{◌≡◌, ◌<◌, ◌≤◌, ℕ, length, map, IfOk, Some, option_map};
ghost use Rattle.dw_image.specs.Images.{entries_in};
ghost use Rattle.dw_cprint.specs.Children.{AreKept, TellsAny};
ghost use Rattle.dw_types.specs.Sizes.{has_stride};
ghost use Rattle.dw_cprint.specs.EntryShapes.{body_in, dimension_counts, is_odd, is_strange, is_strange_child};
ghost use Rattle.dw_cprint.specs.EntryShapes.{member_at, members_in, parameter_at, parameters_in, shape_in, subject_in};
ghost use Rattle.dw_cprint.specs.EntryShapes.{tag_in, tag_shape, tag_word};
ghost use Rattle.dw_cprint.specs.LookUps.{children_at, entry_by, name_at, type_at};
ghost use Rattle.dw_cprint.specs.Shapes.{array, function, view_body, view_member, view_shape, view_subject};

use crate::dimensions::Dimensions;
use crate::enumerators::Enumerators;
use crate::shape::{Body, Member, Parameter, Shape, Subject};
use crate::source::{Source, bits_at, flag_at, tag_at, type_at};
use crate::words::AggregateKeyword::{Struct, Union};
use crate::words::TagKeyword::OfAggregate;
use crate::words::{Qualifier, TagKeyword};
use dw_entries::Tag;
use dw_entries::constants::*;
use dw_image::{EntryId, Image};
use std::alloc::{AllocError, Global};

/// For how many children there is room before the first is read.
const FEW: usize = 16;

/// Whether one of the children of an entry passes a test.
fn any_child<F: Fn(EntryId) -> bool>(image: &Image<'_>, id: EntryId, test: F) -> bool
    requires within { id < length (entries_in image.now) }
    requires callable { (child : ℕ) → child < length (entries_in image.now) → F.pre test child }
    ensures { TellsAny (F.post test) (length (entries_in image.now)) (children_at image.now id) result }
{
    for child in image.children(id) {
        if test(child) {
            return true;
        }
    }
    false
}

/// How many children an entry has, counted up to a few.
fn count_few(image: &Image<'_>, id: EntryId) -> usize
    requires { id < length (entries_in image.now) }
    ensures { result ≤ 16 }
{
    let mut count = 0;
    for _child in image.children(id) {
        if count >= FEW {
            return FEW;
        }
        count += 1;
    }
    count
}

/// What is read of the children of an entry, in rising offset. Of some nothing is read.
fn read_children<T: Drop, F: Fn(EntryId) -> Option<T>>(
    alloc: Global,
    image: &Image<'_>,
    id: EntryId,
    read: F,
) -> Result<Vec<T>, AllocError>
    requires within { id < length (entries_in image.now) }
    requires callable { (child : ℕ) → child < length (entries_in image.now) → F.pre read child }
    ensures { IfOk result (λ kept. AreKept (F.post read) (children_at image.now id) kept.items) }
{
    let mut kept = Vec::with_capacity(alloc, count_few(image, id))?;
    for child in image.children(id) {
        if let Some(one) = read(child) {
            kept.push(one)?;
        }
    }
    kept.shrink_to_fit();
    Ok(kept)
}

/// Whether an entry has a stride.
fn has_stride(image: &Image<'_>, id: EntryId) -> bool
    requires { id < length (entries_in image.now) }
    ensures { result ≡ has_stride (entry_by image.now id) }
{
    image.value(id, DW_AT_bit_stride).is_some() || image.value(id, DW_AT_byte_stride).is_some()
}

/// Whether a child of an array is an index of another kind than a dimension, or a dimension with a stride.
#[tactic(auto, unfolding(crate::specs::LookUps::tag_at))]
fn is_strange_child(image: &Image<'_>, id: EntryId) -> bool
    requires { id < length (entries_in image.now) }
    ensures { result ≡ is_strange_child image.now id }
{
    match tag_at(image, id) {
        DW_TAG_enumeration_type | DW_TAG_generic_subrange => true,
        DW_TAG_subrange_type => has_stride(image, id),
        _ => false,
    }
}

/// The shape of an array.
fn array_shape<'a>(
    alloc: Global,
    image: &'a Image<'a>,
    id: EntryId,
) -> Result<Shape<'a>, AllocError>
    requires { id < length (entries_in image.now) }
    ensures { IfOk result (λ shape. view_shape shape
        ≡ array (dimension_counts image.now id) (is_strange image.now id) (type_at image.now id)) }
{
    let strange_child = any_child(image, id, |child| is_strange_child(image, child));
    Ok(Shape::Array {
        dimensions: Dimensions::read(alloc, image, id)?,
        strange: has_stride(image, id) || strange_child,
        element: type_at(image, id),
    })
}

/// A child that is a parameter, or unspecified parameters.
fn parameter_at(image: &Image<'_>, id: EntryId) -> Option<Parameter>
    requires { id < length (entries_in image.now) }
    ensures { result ≡ parameter_at image.now id }
{
    match tag_at(image, id) {
        DW_TAG_formal_parameter => Some(Parameter::Typed(type_at(image, id))),
        DW_TAG_unspecified_parameters => Some(Parameter::More),
        _ => None,
    }
}

/// The shape of a subroutine.
fn function_shape<'a>(
    alloc: Global,
    image: &Image<'a>,
    id: EntryId,
) -> Result<Shape<'a>, AllocError>
    requires { id < length (entries_in image.now) }
    ensures { IfOk result (λ shape. view_shape shape ≡ function (type_at image.now id) (parameters_in image.now id)) }
{
    if !flag_at(image, id, DW_AT_prototyped) {
        return Ok(Shape::Function(type_at(image, id), None));
    }
    let parameters = read_children(alloc, image, id, |child| parameter_at(image, child))?;
    Ok(Shape::Function(type_at(image, id), Some(parameters)))
}

/// A child that is a plain member: one that is not declared.
#[tactic(auto, unfolding(crate::specs::LookUps::tag_at))]
fn member_at<'a>(source: &Source<'a>, id: EntryId) -> Option<Member<'a>>
    requires { id < length (entries_in source.now.image.now) }
    ensures { option_map view_member result ≡ member_at source.now.image.now id }
{
    let image = source.image;
    if tag_at(image, id) != DW_TAG_member || flag_at(image, id, DW_AT_declaration) {
        return None;
    }
    Some(Member {
        name: source.name(id),
        type_at: type_at(image, id),
        bits: bits_at(image, id),
    })
}

/// The plain members of a structure or union.
pub fn members_at<'a>(
    alloc: Global,
    source: &Source<'a>,
    id: EntryId,
) -> Result<Vec<Member<'a>>, AllocError>
    requires { id < length (entries_in source.now.image.now) }
    ensures { IfOk result (λ members. map view_member members.items ≡ members_in source.now.image.now id) }
{
    read_children(alloc, source.image, id, |child| member_at(source, child))
}

/// Whether a child is an inheritance or a variant part: neither can be in a body of C.
fn is_odd(image: &Image<'_>, id: EntryId) -> bool
    requires { id < length (entries_in image.now) }
    ensures { result ≡ is_odd image.now id }
{
    any_child(image, id, |child| {
        matches!(
            tag_at(image, child),
            DW_TAG_inheritance | DW_TAG_variant_part
        )
    })
}

/// The body of a structure, union or enumeration.
#[inline(always)]
pub fn body_at<'a>(
    alloc: Global,
    source: &'a Source<'a>,
    id: EntryId,
    word: TagKeyword,
) -> Result<Body<'a>, AllocError>
    requires { id < length (entries_in source.now.image.now) }
    ensures { IfOk result (λ body. view_body body ≡ body_in source.now.image.now id word) }
{
    let odd = is_odd(source.image, id);
    match word {
        OfAggregate(word) => Ok(Body::Aggregate {
            word,
            odd,
            members: members_at(alloc, source, id)?,
        }),
        TagKeyword::Enum => Ok(Body::Enumeration {
            odd,
            enumerators: Enumerators::read(source, id),
        }),
    }
}

/// A structure, union or enumeration by its name; without one as it is declared, or with its body.
fn tag_shape<'a>(
    alloc: Global,
    source: &'a Source<'a>,
    id: EntryId,
    word: TagKeyword,
) -> Result<Shape<'a>, AllocError>
    requires { id < length (entries_in source.now.image.now) }
    ensures { IfOk result (λ shape. view_shape shape
        ≡ tag_shape source.now.image.now id word (name_at source.now.image.now id)) }
{
    if let Some(name) = source.name(id) {
        return Ok(Shape::Tagged(word, name));
    }
    if flag_at(source.image, id, DW_AT_declaration) {
        return Ok(Shape::Nameless(word));
    }
    let body = body_at(alloc, source, id, word)?;
    Ok(Shape::Body(body.kept(alloc)?))
}

/// The shape of an entry that is reached.
#[tactic(auto, unfolding(crate::specs::EntryShapes::shape_in))]
pub fn shape_of<'a>(
    alloc: Global,
    source: &'a Source<'a>,
    id: EntryId,
) -> Result<Shape<'a>, AllocError>
    requires { id < length (entries_in source.now.image.now) }
    ensures { IfOk result (λ shape. view_shape shape ≡ shape_in source.now.image.now id) }
{
    let image = source.image;
    let tag = tag_at(image, id);
    match tag {
        DW_TAG_base_type => Ok(Shape::Base(source.name(id))),
        DW_TAG_typedef => Ok(Shape::Typedef(source.name(id))),
        DW_TAG_const_type => Ok(Shape::Qualified(Qualifier::Const, type_at(image, id))),
        DW_TAG_volatile_type => Ok(Shape::Qualified(Qualifier::Volatile, type_at(image, id))),
        DW_TAG_restrict_type => Ok(Shape::Qualified(Qualifier::Restrict, type_at(image, id))),
        DW_TAG_atomic_type => Ok(Shape::Qualified(Qualifier::Atomic, type_at(image, id))),
        DW_TAG_pointer_type => Ok(Shape::Pointer(type_at(image, id))),
        DW_TAG_array_type => array_shape(alloc, image, id),
        DW_TAG_subroutine_type => function_shape(alloc, image, id),
        DW_TAG_structure_type => tag_shape(alloc, source, id, OfAggregate(Struct)),
        DW_TAG_union_type => tag_shape(alloc, source, id, OfAggregate(Union)),
        DW_TAG_enumeration_type => tag_shape(alloc, source, id, TagKeyword::Enum),
        _ => Ok(if tag.is_type() {
            Shape::Foreign
        } else {
            Shape::Other
        }),
    }
}

/// A structure, union or enumeration: only declared, or with its body.
fn tag_subject<'a>(
    alloc: Global,
    source: &'a Source<'a>,
    id: EntryId,
    word: TagKeyword,
) -> Result<Subject<'a>, AllocError>
    requires { id < length (entries_in source.now.image.now) }
    ensures { IfOk result (λ subject. view_subject subject ≡ tag_in source.now.image.now id (Some word)) }
{
    let name = source.name(id);
    if flag_at(source.image, id, DW_AT_declaration) {
        return Ok(Subject::Declared(word, name));
    }
    Ok(Subject::Defined(name, body_at(alloc, source, id, word)?))
}

/// The word of a structure, union or enumeration, by the tag.
#[inline(always)]
pub fn tag_word(tag: Tag) -> Option<TagKeyword>
    ensures { result ≡ tag_word tag }
{
    match tag {
        DW_TAG_structure_type => Some(OfAggregate(Struct)),
        DW_TAG_union_type => Some(OfAggregate(Union)),
        DW_TAG_enumeration_type => Some(TagKeyword::Enum),
        _ => None,
    }
}

/// What is declared at an entry.
#[tactic(auto, unfolding(crate::specs::EntryShapes::subject_in))]
pub fn subject_of<'a>(
    alloc: Global,
    source: &'a Source<'a>,
    id: EntryId,
) -> Result<Subject<'a>, AllocError>
    requires { id < length (entries_in source.now.image.now) }
    ensures { IfOk result (λ subject. view_subject subject ≡ subject_in source.now.image.now id) }
{
    match tag_at(source.image, id) {
        DW_TAG_typedef => Ok(Subject::Typedef(source.name(id), type_at(source.image, id))),
        DW_TAG_variable => Ok(Subject::Variable(source.name(id), type_at(source.image, id))),
        tag => match tag_word(tag) {
            Some(word) => tag_subject(alloc, source, id, word),
            None => Ok(Subject::Other),
        },
    }
}
