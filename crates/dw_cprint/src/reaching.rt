//! The entries that are reached by spelling steps.

ghost use Rattle.std.specs.Prelude.{◌≡◌, ◌++◌, ◌^◌, ◌<◌, [], ◌∷◌, length, map, All, IfOk, OnOk, option_map};
ghost use Rattle.dw_cprint.specs.Reach.{AddsRow, AreMarks, ArePlaces, FindsAll, FindsMarked, FindsRoots, HasReached};
ghost use Rattle.dw_image.specs.Images.{entries_in};
ghost use Rattle.dw_cprint.specs.EntryShapes.{member_at, members_in, shape_in};
ghost use Rattle.dw_cprint.specs.Shapes.{view_member, view_shape, view_subject};
ghost use Rattle.dw_cprint.specs.Steps.{entries_among, member_types, parameter_types, types_declared, types_reached};

use crate::shape::{Body, Member, Parameter, Shape, Subject};
use crate::shape_reader::shape_of;
use crate::source::{Source, TypeAt, flag_at, tag_at, type_at};
use crate::survey::Survey;
use dw_entries::constants::*;
use dw_image::{EntryId, Image};
use dw_types::{Numbers, Packed, StepGraph};
use std::alloc::{AllocError, Global};

/// The place of an entry, the next one if it was not found before.
#[inline(always)]
fn place_of(places: &mut Vec<u32>, found: &mut Numbers, entry: usize) -> Result<usize, AllocError>
    requires placed { ArePlaces places.old.items found.old }
    requires within { entry < length places.old.items }
    requires few { length places.old.items < 2 ^ 32 }
    ensures row { IfOk result (λ place. FindsAll (entry ∷ [])
        places.old.items places.new.items found.old found.new (place ∷ [])) }
    ensures places { length places.new.items ≡ length places.old.items }
{
    let place = places[entry] as usize;
    if place < found.len() && found.get(place) == entry {
        return Ok(place);
    }
    let place = found.len();
    found.push(entry)?;
    places[entry] = place as u32;
    Ok(place)
}

/// Marks the entries among some types, by their numbers.
fn marks_of(alloc: Global, entries: usize, types: &[TypeAt]) -> Result<Vec<bool>, AllocError>
    requires { All (λ to. to < entries) (entries_among types.now) }
    ensures count { IfOk result (λ marks. length marks.items ≡ entries) }
    ensures marks { IfOk result (λ marks. AreMarks (entries_among types.now) marks.items) }
{
    let mut marks = vec![in alloc; false; entries]?;
    for at in types {
        if let Some(entry) = at.get() {
            marks[entry as usize] = true;
        }
    }
    Ok(marks)
}

/// Finds the entries that are marked, in rising offset.
fn find_marked(places: &mut Vec<u32>, found: &mut Numbers, marks: &[bool]) -> Result<(), AllocError>
    requires none { found.old ≡ [] }
    requires marks { length marks.now ≡ length places.old.items }
    requires few { length places.old.items < 2 ^ 32 }
    ensures found { OnOk result (FindsMarked marks.now (length marks.now) places.new.items found.new) }
    ensures places { length places.new.items ≡ length places.old.items }
{
    for entry in 0..marks.len() {
        if marks[entry] {
            place_of(places, found, entry)?;
        }
    }
    Ok(())
}

/// Finds the entries among some types, in rising offset, so that what is kept of neighbors is together.
fn find_roots(
    alloc: Global,
    places: &mut Vec<u32>,
    found: &mut Numbers,
    types: &[TypeAt],
) -> Result<(), AllocError>
    requires none { found.old ≡ [] }
    requires within { All (λ to. to < length places.old.items) (entries_among types.now) }
    requires few { length places.old.items < 2 ^ 32 }
    ensures found { OnOk result (FindsRoots (entries_among types.now) places.new.items found.new) }
    ensures places { length places.new.items ≡ length places.old.items }
{
    let marks = marks_of(alloc, places.len(), types)?;
    find_marked(places, found, &marks)?;
    Ok(())
}

/// Appends the places of types; those that are new are found.
fn push_row(
    places: &mut Vec<u32>,
    found: &mut Numbers,
    steps: &mut Numbers,
    types: &[TypeAt],
) -> Result<(), AllocError>
    requires placed { ArePlaces places.old.items found.old }
    requires within { All (λ to. to < length places.old.items) (entries_among types.now) }
    requires few { length places.old.items < 2 ^ 32 }
    ensures row { OnOk result (AddsRow (entries_among types.now)
        places.old.items places.new.items found.old found.new steps.old steps.new) }
    ensures places { length places.new.items ≡ length places.old.items }
{
    for at in types {
        if let Some(entry) = at.get() {
            steps.push(place_of(places, found, entry as usize)?)?;
        }
    }
    Ok(())
}

/// Appends the type of each member.
fn put_member_types(types: &mut Vec<TypeAt>, members: &[Member<'_>]) -> Result<(), AllocError>
    ensures { OnOk result (types.new.items ≡ types.old.items ++ member_types (map view_member members.now)) }
{
    for member in members {
        types.push(member.type_at)?;
    }
    Ok(())
}

/// Appends the type of each parameter. Unspecified parameters have none.
fn put_parameter_types(types: &mut Vec<TypeAt>, parameters: &[Parameter]) -> Result<(), AllocError>
    ensures { OnOk result (types.new.items ≡ types.old.items ++ parameter_types parameters.now) }
{
    for parameter in parameters {
        if let Parameter::Typed(at) = parameter {
            types.push(*at)?;
        }
    }
    Ok(())
}

/// Appends the types that an entry leads to where it is reached.
pub fn put_reached_types(types: &mut Vec<TypeAt>, shape: &Shape<'_>) -> Result<(), AllocError>
    ensures { OnOk result (types.new.items ≡ types.old.items ++ types_reached (view_shape shape.now)) }
{
    match shape {
        Shape::Qualified(_, at) | Shape::Pointer(at) => types.push(*at)?,
        Shape::Array { element, .. } => types.push(*element)?,
        Shape::Function(at, None) => types.push(*at)?,
        Shape::Function(at, Some(parameters)) => {
            types.push(*at)?;
            put_parameter_types(types, parameters)?;
        }
        Shape::Body(Body::Aggregate { members, .. }) => put_member_types(types, members)?,
        _ => {}
    }
    Ok(())
}

/// Appends the types that the declared entry leads to.
pub fn put_declared_types(types: &mut Vec<TypeAt>, subject: &Subject<'_>) -> Result<(), AllocError>
    ensures { OnOk result (types.new.items ≡ types.old.items ++ types_declared (view_subject subject.now)) }
{
    match subject {
        Subject::Typedef(_, at) | Subject::Variable(_, at) => types.push(*at)?,
        Subject::Defined(_, Body::Aggregate { members, .. }) => put_member_types(types, members)?,
        _ => {}
    }
    Ok(())
}

/// The shape of the entry with a number.
fn shape_at<'a>(
    alloc: Global,
    source: &'a Source<'a>,
    entry: usize,
) -> Result<Shape<'a>, AllocError>
    requires { entry < length (entries_in source.now.image.now) }
    ensures { IfOk result (λ shape. view_shape shape ≡ shape_in source.now.image.now entry) }
{
    match source.image.nth(entry) {
        Some(id) => shape_of(alloc, source, id),
        None => Ok(Shape::Other),
    }
}

/// The type of a child that is a plain member: one that is not declared.
#[tactic(auto, unfolding(crate::specs::LookUps::tag_at))]
fn member_type_at(image: &Image<'_>, id: EntryId) -> Option<TypeAt>
    requires { id < length (entries_in image.now) }
    ensures { result ≡ option_map (λ member. member.type_at) (member_at image.now id) }
{
    if tag_at(image, id) != DW_TAG_member || flag_at(image, id, DW_AT_declaration) {
        return None;
    }
    Some(type_at(image, id))
}

/// Appends the types of the members of a structure or union.
pub fn put_types_of_members(
    types: &mut Vec<TypeAt>,
    image: &Image<'_>,
    id: EntryId,
) -> Result<(), AllocError>
    requires { id < length (entries_in image.now) }
    ensures { OnOk result (types.new.items ≡ types.old.items ++ member_types (members_in image.now id)) }
{
    for child in image.children(id) {
        if let Some(at) = member_type_at(image, child) {
            types.push(at)?;
        }
    }
    Ok(())
}

/// Finds the entries that are reached from some types, and looks at no others. Of each, the survey keeps the node and
/// the shape, and no summary yet; the graph has the steps between the nodes.
pub fn reach<'a>(
    alloc: Global,
    source: &'a Source<'a>,
    types: &[TypeAt],
) -> Result<(Survey<'a>, Packed), AllocError>
    requires { All (λ to. to < length (entries_in source.now.image.now)) (entries_among types.now) }
    ensures { IfOk result (λ r. HasReached (shape_in source.now.image.now) (entries_among types.now)
        r.0 (⟦<Packed as StepGraph>⟧.graph r.1)) }
{
    let mut places = vec![in alloc; 0; source.image.entries()]?;
    let mut found = Numbers::with_room(alloc, 0)?;
    find_roots(alloc, &mut places, &mut found, types)?;
    let mut shapes = Vec::new(alloc);
    let mut steps = Numbers::with_room(alloc, 0)?;
    let mut ends = Numbers::with_room(alloc, 0)?;
    let mut next = Vec::new(alloc);
    while ends.len() < found.len() {
        let shape = shape_at(alloc, source, found.get(ends.len()))?;
        next.clear();
        put_reached_types(&mut next, &shape)?;
        shapes.push(shape)?;
        push_row(&mut places, &mut found, &mut steps, &next)?;
        ends.push(steps.len())?;
    }
    let survey = Survey {
        places,
        shapes,
        summaries: Vec::new(alloc),
    };
    Ok((survey, Packed::from_rows(steps, ends)))
}
