//! How many bytes the text of a type has, from those of the types that it names. A number above the limit is kept as
//! the limit plus one.

ghost use Rattle.std.specs.Prelude.{◌≡◌, false, map};
ghost use Rattle.dw_cprint.specs.Lengths.{bytes_around, byte_count, capped, declared_bytes, has_gap, member_bytes};
ghost use Rattle.dw_cprint.specs.Lengths.{members_bytes, named_bytes, parameter_bytes, parameters_bytes};
ghost use Rattle.dw_cprint.specs.Lengths.{qualifier_bytes, shape_bytes, space, tag_bytes};
ghost use Rattle.dw_cprint.specs.Shapes.{body as body_shape, view_body, view_member, view_name, view_shape};
ghost use Rattle.dw_cprint.specs.Shapes.{view_subject};
ghost use Rattle.dw_cprint.specs.Summaries.{known_of};
ghost use Rattle.dw_cprint.specs.Writing.{bits_tokens};

use crate::shape::{Body, Member, Parameter, Shape, Subject, TypeKind};
use crate::source::TypeAt;
use crate::survey::{Summary, Survey};
use crate::text::{LIMIT, digit_count, name_length, plus};
use crate::words::{Name, Qualifier, TagKeyword};

/// The bytes of a space, if there is one.
#[inline]
fn space(there: bool) -> usize
    ensures { result ≡ space there }
{
    if there { 1 } else { 0 }
}

/// Whether a space comes between a type and a declarator that is not empty.
#[inline]
fn has_gap(known: Summary) -> bool
    ensures { result ≡ has_gap known.kind known.base }
{
    !(known.base.is_bracketed() || matches!(known.kind, TypeKind::Pointer))
}

/// The bytes that a qualifier adds to a type without a declarator.
fn qualifier_length(known: Summary, qualifier: Qualifier) -> usize
    ensures { result ≡ qualifier_bytes known.kind known.base qualifier false }
{
    if known.base.is_bracketed() {
        return 0;
    }
    let word = qualifier.text().len();
    if matches!(known.kind, TypeKind::Pointer) {
        return word;
    }
    word + 1
}

/// The bytes of a type with a declarator that is not empty, without those of the declarator.
#[inline]
fn length_around(survey: &Survey<'_>, at: TypeAt) -> usize
    ensures { result ≡ capped (bytes_around (known_of survey.now) at) }
{
    let known = survey.known(at);
    plus(known.length as usize, space(has_gap(known)))
}

/// The bytes of a type with a declarator that is a name, or with none.
#[inline]
fn named_length(survey: &Survey<'_>, at: TypeAt, name: Name<'_>) -> usize
    ensures { capped result ≡ capped (named_bytes (known_of survey.now) at (view_name name.entry)) }
{
    match name {
        None => survey.known(at).length as usize,
        Some(name) => plus(length_around(survey, at), name.bytes.len()),
    }
}

/// The bytes of the word before a tag, a space, and the tag.
fn tag_length(word: TagKeyword, name: Name<'_>) -> usize
    ensures { result ≡ capped (tag_bytes word (view_name name.entry)) }
{
    plus(word.text().len() + 1, name_length(name))
}

/// The bytes of a member's size in bits, if it has one.
#[inline]
fn bits_length(bits: Option<u64>) -> usize
    ensures { result ≡ capped (byte_count (bits_tokens bits)) }
{
    match bits {
        None => 0,
        Some(n) => plus(3, digit_count(u128::from(n))),
    }
}

/// The bytes of a member: its type and name, its size in bits, and `; `.
#[inline]
#[tactic(auto, using(crate::proofs::PartLengthLemmas::details_counted))]
fn member_length(survey: &Survey<'_>, member: &Member<'_>) -> usize
    ensures { result ≡ capped (member_bytes (known_of survey.now) (view_member member.now)) }
{
    let typed = named_length(survey, member.type_at, member.name);
    plus(plus(typed, bits_length(member.bits)), 2)
}

/// The bytes of members, with `{`, a space and `}`.
fn members_length(survey: &Survey<'_>, members: &[Member<'_>]) -> usize
    ensures { result ≡ capped (members_bytes (known_of survey.now) (map view_member members.now)) }
{
    let mut bytes = 3;
    for member in members {
        bytes = plus(bytes, member_length(survey, member));
    }
    bytes
}

/// The bytes of a parameter, and of the comma and the space or the parentheses around the first.
fn parameter_length(survey: &Survey<'_>, parameter: Parameter) -> usize
    ensures { result ≡ capped (parameter_bytes (known_of survey.now) parameter) }
{
    match parameter {
        Parameter::Typed(at) => plus(survey.known(at).length as usize, 2),
        Parameter::More => 5,
    }
}

/// The bytes of the parameters of a function, in parentheses.
fn parameters_length(survey: &Survey<'_>, parameters: &[Parameter]) -> usize
    ensures { result ≡ capped (parameters_bytes (known_of survey.now) parameters.now) }
{
    if parameters.is_empty() {
        return 6;
    }
    let mut bytes = 0;
    for parameter in parameters {
        bytes = plus(bytes, parameter_length(survey, *parameter));
    }
    bytes
}

/// The bytes of a body after its keyword.
#[inline(always)]
fn body_length(survey: &Survey<'_>, body: &Body<'_>) -> usize
    ensures { result ≡ capped (shape_bytes (known_of survey.now) (body_shape (view_body body.now))) }
{
    match body {
        Body::Aggregate { word, members, .. } => {
            let tag = tag_length(TagKeyword::OfAggregate(*word), None);
            plus(tag, members_length(survey, members))
        }
        Body::Enumeration { enumerators, .. } => plus(5, enumerators.length()),
    }
}

/// The bytes of the text of a shape without a declarator.
pub fn length_of(survey: &Survey<'_>, shape: &Shape<'_>) -> usize
    ensures { result ≡ capped (shape_bytes (known_of survey.now) (view_shape shape.now)) }
{
    match shape {
        Shape::Base(name) | Shape::Typedef(name) => name_length(*name).min(LIMIT + 1),
        Shape::Qualified(qualifier, at) => {
            let known = survey.known(*at);
            plus(known.length as usize, qualifier_length(known, *qualifier))
        }
        Shape::Pointer(to) => {
            let kind = survey.known(*to).kind;
            let star = if kind.is_bracketed() { 3 } else { 1 };
            plus(length_around(survey, *to), star)
        }
        Shape::Array {
            dimensions,
            element,
            ..
        } => plus(length_around(survey, *element), dimensions.length()),
        Shape::Function(at, None) => plus(length_around(survey, *at), 2),
        Shape::Function(at, Some(parameters)) => {
            plus(
                length_around(survey, *at),
                parameters_length(survey, parameters),
            )
        }
        Shape::Tagged(word, name) => tag_length(*word, Some(*name)),
        Shape::Body(body) => body_length(survey, body),
        _ => 0,
    }
}

/// The bytes of a declaration. Those of a typedef have `typedef ` before and `;` after them, those of a body ` `
/// and `;`.
pub fn length_declared(survey: &Survey<'_>, subject: &Subject<'_>) -> usize
    ensures { result ≡ capped (declared_bytes (known_of survey.now) (view_subject subject.now)) }
{
    match subject {
        Subject::Typedef(name, at) => plus(named_length(survey, *at, *name), 9),
        Subject::Variable(name, at) => plus(named_length(survey, *at, *name), 1),
        Subject::Defined(name, body) => {
            plus(plus(body_length(survey, body), name_length(*name)), 2)
        }
        Subject::Declared(word, name) => plus(tag_length(*word, *name), 1),
        Subject::Other => 0,
    }
}
