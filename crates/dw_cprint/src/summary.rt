//! The survey of some declarations: what is known of each type that reaches no cycle, by the types that it names.

ghost use Rattle.std.specs.Prelude.{◌≡◌, ◌<◌, ℕ, List, Some, length, All, IfOk};
ghost use Rattle.dw_cprint.specs.Lengths.{base_kind};
ghost use Rattle.dw_cprint.specs.Shapes.{ShapeOf, view_shape, view_subject};
ghost use Rattle.dw_cprint.specs.Steps.{types_declared, types_reached, entries_among};
ghost use Rattle.dw_cprint.specs.Summaries.{AreFindings, AreFindingsOf, AreNodes, AreRight, HaveSummaries, IsBase};
ghost use Rattle.dw_cprint.specs.Summaries.{IsOwn, IsSummary, KnowsType, is_own_unspeakable, is_unspeakable};
ghost use Rattle.dw_cprint.specs.Summaries.{kind_known, known_of};
ghost use Rattle.dw_cprint.specs.Wrong.{has_bad_name, has_own_bad_name, is_foreign, is_own_foreign};
ghost use Rattle.dw_cprint.specs.Summaries.{IsSurveyOf};
ghost use Rattle.dw_image.specs.Images.{entries_in};
ghost use Rattle.dw_cprint.specs.EntryShapes.{shape_in};

use crate::lengths::length_of;
use crate::names::lacks_name;
use crate::reaching::{put_reached_types, reach};
use crate::refusals::{has_bad_name, has_void, is_unspeakable, is_unspeakable_body, lacks_names};
use crate::shape::{Shape, Subject, TypeKind, kind_of};
use crate::source::{Source, TypeAt};
use crate::survey::{Findings, NOTHING, Summary, Survey};
use crate::words::TagKeyword;
use dw_types::{Numbers, clear_nodes};
use std::alloc::{AllocError, Global};

/// What is wrong with an entry itself that is reached. `types` are those that it leads to.
fn wrong_in_shape(survey: &Survey<'_>, shape: &Shape<'_>, types: &[TypeAt]) -> Findings
    requires { types.now ≡ types_reached (view_shape shape.now) }
    ensures { IsOwn (has_bad_name (kind_known survey.now) (view_shape shape.now))
        (is_foreign (view_shape shape.now)) (is_unspeakable survey.now (view_shape shape.now)) result }
{
    Findings {
        bad_name: has_bad_name(survey, shape),
        foreign: match shape {
            Shape::Foreign | Shape::Other => true,
            Shape::Body(body) => body.is_odd(),
            _ => false,
        },
        unspeakable: is_unspeakable(survey, shape, types),
        depth: 0,
    }
}

/// What is wrong with the declared entry itself. `types` are those that it leads to.
fn wrong_in_subject(survey: &Survey<'_>, subject: &Subject<'_>, types: &[TypeAt]) -> Findings
    requires { types.now ≡ types_declared (view_subject subject.now) }
    ensures { IsOwn (has_own_bad_name (kind_known survey.now) (view_subject subject.now))
        (is_own_foreign (view_subject subject.now)) (is_own_unspeakable survey.now (view_subject subject.now)) result }
{
    match subject {
        Subject::Typedef(name, _) => Findings {
            bad_name: lacks_name(*name),
            ..NOTHING
        },
        Subject::Variable(name, _) => Findings {
            bad_name: lacks_name(*name),
            unspeakable: has_void(survey, types),
            ..NOTHING
        },
        Subject::Defined(name, body) => Findings {
            bad_name: lacks_name(*name) || lacks_names(survey, body),
            foreign: body.is_odd(),
            unspeakable: is_unspeakable_body(survey, body, types),
            depth: 0,
        },
        Subject::Declared(word, name) => Findings {
            bad_name: lacks_name(*name),
            unspeakable: matches!(word, TagKeyword::Enum),
            ..NOTHING
        },
        Subject::Other => NOTHING,
    }
}

/// What is found of some types.
fn findings_under(survey: &Survey<'_>, types: &[TypeAt]) -> Findings
    ensures { (shapes : ℕ → ShapeOf) → All (KnowsType shapes survey.now) types.now
        → AreFindings shapes types.now result }
{
    let mut findings = NOTHING;
    for at in types {
        findings = findings.with(survey.known(*at).findings);
    }
    findings
}

/// What is found of the declared entry. `types` are those that it leads to.
pub fn findings_of(survey: &Survey<'_>, subject: &Subject<'_>, types: &[TypeAt]) -> Findings
    requires { types.now ≡ types_declared (view_subject subject.now) }
    ensures { (shapes : ℕ → ShapeOf) → All (KnowsType shapes survey.now) types.now
        → AreFindingsOf shapes (view_subject subject.now) result }
{
    wrong_in_subject(survey, subject, types).with(findings_under(survey, types))
}

/// The kind of the type under the row of qualifiers that begins with this shape.
fn base_of(survey: &Survey<'_>, shape: &Shape<'_>) -> TypeKind
    ensures same { result ≡ base_kind (known_of survey.now) (view_shape shape.now) }
    ensures under { (shapes : ℕ → ShapeOf) (entry : ℕ) → shapes entry ≡ view_shape shape.now
        → All (KnowsType shapes survey.now) (types_reached (view_shape shape.now)) → IsBase shapes (Some entry) result }
{
    match shape {
        Shape::Qualified(_, at) => survey.known(*at).base,
        _ => kind_of(shape),
    }
}

/// The summary of a shape, by those of the types that it names. `types` are those that it leads to.
fn summary_of(survey: &Survey<'_>, shape: &Shape<'_>, types: &[TypeAt]) -> Summary
    requires { types.now ≡ types_reached (view_shape shape.now) }
    ensures { (shapes : ℕ → ShapeOf) (entry : ℕ) → shapes entry ≡ view_shape shape.now
        → All (KnowsType shapes survey.now) (types_reached (view_shape shape.now))
        → IsSummary shapes (Some entry) result }
{
    let all = wrong_in_shape(survey, shape, types).with(findings_under(survey, types));
    Summary {
        kind: kind_of(shape),
        base: base_of(survey, shape),
        findings: Findings {
            depth: all.depth.saturating_add(1),
            ..all
        },
        length: length_of(survey, shape) as u32,
    }
}

/// Adds the summaries of the nodes that reach no cycle. Each is given after those that its steps lead to.
fn summarize<'a>(
    alloc: Global,
    mut survey: Survey<'a>,
    clear: &Numbers,
) -> Result<Survey<'a>, AllocError>
    requires { All (λ node. node < length survey.shapes.items) clear.now }
    ensures places { IfOk result (λ it. it.places.items ≡ survey.entry.places.items) }
    ensures shapes { IfOk result (λ it. it.shapes.items ≡ survey.entry.shapes.items) }
    ensures clear { IfOk result (λ it. HaveSummaries clear.now it.summaries.items) }
    ensures right { IfOk result (λ it. (all : ℕ → ShapeOf) (found : List ℕ)
        → AreNodes all survey.entry.places.items found survey.entry.shapes.items clear.now
        → AreRight all found clear.now it) }
{
    survey.summaries = vec![in alloc; None; survey.shapes.len()]?;
    let mut types = Vec::new(alloc);
    for rank in 0..clear.len() {
        let node = clear.get(rank);
        let shape = &survey.shapes[node];
        types.clear();
        put_reached_types(&mut types, shape)?;
        let summary = summary_of(&survey, shape, &types);
        survey.summaries[node] = Some(summary);
    }
    Ok(survey)
}

impl<'a> Survey<'a> {
    /// Surveys what is reached from some types. Each entry is looked at once, and no path by itself.
    pub fn new(
        alloc: Global,
        source: &'a Source<'a>,
        types: Vec<TypeAt>,
    ) -> Result<Survey<'a>, AllocError>
        requires { All (λ to. to < length (entries_in source.now.image.now)) (entries_among types.items) }
        ensures { IfOk result (IsSurveyOf (shape_in source.now.image.now) (entries_among types.items)) }
    {
        let (survey, graph) = reach(alloc, source, &types)?;
        drop(types);
        let clear = clear_nodes(alloc, &graph)?;
        drop(graph);
        let survey = summarize(alloc, survey, &clear)?;
        Ok(survey)
    }
}
