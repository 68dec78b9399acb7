//! The second and the fourth refusal (P2 and P4): what is no name in C, and what C has no declaration for.

ghost use Rattle.std.specs.Prelude.{◌≡◌};
ghost use Rattle.dw_cprint.specs.Declarations.{is_misplaced};
ghost use Rattle.dw_cprint.specs.Shapes.{body as body_shape, view_body, view_member, view_shape, view_name};
ghost use Rattle.dw_cprint.specs.Steps.{types_reached};
ghost use Rattle.dw_cprint.specs.Summaries.{has_void, is_unspeakable, kind_known};
ghost use Rattle.dw_cprint.specs.Wrong.{has_bad_name, is_wrong_member, lacks_member_name};

use crate::names::{is_base_name, lacks_name};
use crate::shape::{Body, Member, Parameter, Shape, TypeKind};
use crate::source::TypeAt;
use crate::survey::Survey;
use crate::words::Qualifier;

/// Whether a member needs a name and has none, or has one that is no identifier.
fn lacks_member_name(survey: &Survey<'_>, member: &Member<'_>) -> bool
    ensures { result
        ≡ lacks_member_name (kind_known survey.now member.now.type_at) member.now.bits (view_name member.now.name) }
{
    match member.name {
        Some(name) => !name.is_name(),
        None => {
            let kind = survey.known(member.type_at).kind;
            !(matches!(kind, TypeKind::UnnamedAggregate) && member.bits.is_none())
        }
    }
}

/// Whether the second refusal holds for a body.
pub fn lacks_names(survey: &Survey<'_>, body: &Body<'_>) -> bool
    ensures { result ≡ has_bad_name (kind_known survey.now) (body_shape (view_body body.now)) }
{
    match body {
        Body::Aggregate { members, .. } => members
            .iter()
            .any(|member| lacks_member_name(survey, member)),
        Body::Enumeration { enumerators, .. } => enumerators.lack_name(),
    }
}

/// Whether the second refusal holds for an entry that is reached.
pub fn has_bad_name(survey: &Survey<'_>, shape: &Shape<'_>) -> bool
    ensures { result ≡ has_bad_name (kind_known survey.now) (view_shape shape.now) }
{
    match shape {
        Shape::Base(None) | Shape::Nameless(_) => true,
        Shape::Base(Some(name)) => !is_base_name(*name),
        Shape::Typedef(name) => lacks_name(*name),
        Shape::Tagged(_, name) => !name.is_name(),
        Shape::Body(body) => lacks_names(survey, body),
        _ => false,
    }
}

/// Whether one of some types is void, or a row of qualifiers over void.
pub fn has_void(survey: &Survey<'_>, types: &[TypeAt]) -> bool
    ensures { result ≡ has_void survey.now types.now }
{
    types
        .iter()
        .any(|at| matches!(survey.known(*at).base, TypeKind::Void))
}

/// Whether a member is a function, or its size in bits is no number of 1 or more, or that of an array or a pointer.
fn is_wrong_member(survey: &Survey<'_>, member: &Member<'_>) -> bool
    ensures { result ≡ is_wrong_member (kind_known survey.now) (view_member member.now) }
{
    let kind = survey.known(member.type_at).kind;
    match member.bits {
        None => matches!(kind, TypeKind::Function),
        Some(0) => true,
        Some(_) => { kind.is_bracketed() || matches!(kind, TypeKind::Pointer) }
    }
}

/// Whether the fourth refusal holds for a body. `types` are those that it names.
pub fn is_unspeakable_body(survey: &Survey<'_>, body: &Body<'_>, types: &[TypeAt]) -> bool
    requires { types.now ≡ types_reached (body_shape (view_body body.now)) }
    ensures { result ≡ is_unspeakable survey.now (body_shape (view_body body.now)) }
{
    match body {
        Body::Aggregate { members, .. } => {
            has_void(survey, types) || members.iter().any(|member| is_wrong_member(survey, member))
        }
        Body::Enumeration { enumerators, .. } => enumerators.is_wrong(),
    }
}

/// Whether unspecified parameters come before another parameter, or alone.
fn has_misplaced(parameters: &[Parameter]) -> bool
    ensures { result ≡ is_misplaced parameters.now }
{
    let mut typed = false;
    for (k, parameter) in parameters.iter().enumerate() {
        match parameter {
            Parameter::Typed(_) => typed = true,
            Parameter::More => {
                if !typed || k + 1 < parameters.len() {
                    return true;
                }
            }
        }
    }
    false
}

/// Whether the fourth refusal holds for an entry that is reached. `types` are those that it names.
pub fn is_unspeakable(survey: &Survey<'_>, shape: &Shape<'_>, types: &[TypeAt]) -> bool
    requires { types.now ≡ types_reached (view_shape shape.now) }
    ensures { result ≡ is_unspeakable survey.now (view_shape shape.now) }
{
    match shape {
        Shape::Qualified(Qualifier::Restrict, at) => {
            !matches!(
                survey.known(*at).base,
                TypeKind::Pointer | TypeKind::Typedef
            )
        }
        Shape::Qualified(_, at) => survey.known(*at).base.is_bracketed(),
        Shape::Array {
            dimensions,
            strange,
            element,
        } => {
            let kind = survey.known(*element).kind;
            has_void(survey, types)
                || *strange
                || dimensions.are_miscounted()
                || matches!(kind, TypeKind::Function | TypeKind::Array { open: true })
        }
        Shape::Function(at, None) => survey.known(*at).kind.is_bracketed(),
        Shape::Function(at, Some(parameters)) => {
            has_void(survey, &types[1..])
                || survey.known(*at).kind.is_bracketed()
                || has_misplaced(parameters)
        }
        Shape::Body(body) => is_unspeakable_body(survey, body, types),
        _ => false,
    }
}
