//! Abbreviation tables (DWARF 5, 7.5.3): the rules A.

use crate::fault::Fault;
use crate::leb::{Failure, after_signed, unsigned};
use crate::rest::Rest;
use crate::value::{IMPLICIT_CONST, is_form};

/// An abbreviation declaration.
#[derive(Clone, Copy)]
pub(crate) struct Declaration<'a> {
    pub code: u64,
    pub tag: u64,
    pub has_children: bool,
    /// The pairs of attribute and form, up to the section's end.
    pub pairs: Rest<'a>,
}

/// An attribute and its form.
#[derive(Clone, Copy)]
pub(crate) struct Pair {
    pub attribute: u64,
    pub form: u64,
}

/// The next pair, and the rest after it. None at the closing pair of zeros.
pub(crate) fn next_pair<'a>(pairs: Rest<'a>) -> Option<(Pair, Rest<'a>)> {
    let (attribute, rest) = unsigned(pairs).ok()?;
    let (form, rest) = unsigned(rest).ok()?;
    if attribute == 0 && form == 0 {
        return None;
    }
    if form == IMPLICIT_CONST {
        return Some((Pair { attribute, form }, after_signed(rest).ok()?));
    }
    Some((Pair { attribute, form }, rest))
}

/// The rest after the closing pair of zeros.
fn after_pairs<'a>(pairs: Rest<'a>) -> Option<Rest<'a>> {
    let mut rest = pairs;
    for _ in 0..=pairs.bytes.len() {
        match next_pair(rest) {
            Some((_, after)) => rest = after,
            None => {
                let (_, rest) = unsigned(rest).ok()?;
                let (_, rest) = unsigned(rest).ok()?;
                return Some(rest);
            }
        }
    }
    None
}

/// Whether one of the pairs has the attribute.
fn has_attribute(pairs: Rest, attribute: u64) -> bool {
    let mut rest = pairs;
    for _ in 0..=pairs.bytes.len() {
        match next_pair(rest) {
            Some((pair, _)) if pair.attribute == attribute => return true,
            Some((_, after)) => rest = after,
            None => return false,
        }
    }
    false
}

/// The next declaration, and the rest after it. None at the closing 0.
fn next_declaration<'a>(table: Rest<'a>) -> Option<(Declaration<'a>, Rest<'a>)> {
    let (code, rest) = unsigned(table).ok()?;
    if code == 0 {
        return None;
    }
    let (tag, rest) = unsigned(rest).ok()?;
    let (children, pairs) = rest.number(1)?;
    let declaration = Declaration {
        code,
        tag,
        has_children: children == 1,
        pairs,
    };
    Some((declaration, after_pairs(pairs)?))
}

/// The declaration of a code.
pub(crate) fn declaration_of<'a>(table: Rest<'a>, code: u64) -> Option<Declaration<'a>> {
    let mut rest = table;
    for _ in 0..=table.bytes.len() {
        let (declaration, after) = next_declaration(rest)?;
        if declaration.code == code {
            return Some(declaration);
        }
        rest = after;
    }
    None
}

/// The rule that such a number breaks in a table.
fn rule_of(failure: Failure) -> &'static str {
    match failure {
        Failure::Cut => "A1 AbbrevCut",
        _ => "A2 AbbrevNumber",
    }
}

/// Checks the pairs, and returns the rest after them, or a rule and its attribute.
fn check_pairs<'a>(pairs: Rest<'a>) -> Result<Rest<'a>, (&'static str, u64)> {
    let mut rest = pairs;
    for _ in 0..=pairs.bytes.len() {
        let (attribute, after) = unsigned(rest).map_err(|failure| (rule_of(failure), 0))?;
        let (form, after) = unsigned(after).map_err(|failure| (rule_of(failure), 0))?;
        if attribute == 0 && form == 0 {
            return Ok(after);
        }
        if attribute == 0 || form == 0 || attribute > 0xffff {
            return Err(("A6 BadPair", 0));
        }
        if !is_form(form) {
            return Err(("A7 UnknownForm", attribute));
        }
        let is_repeated = pairs
            .up_to(rest)
            .is_some_and(|earlier| has_attribute(earlier, attribute));
        if is_repeated {
            return Err(("A8 AttributeTwice", attribute));
        }
        rest = if form == IMPLICIT_CONST {
            after_signed(after).map_err(|failure| (rule_of(failure), 0))?
        } else {
            after
        };
    }
    Err(("never", 0))
}

/// Checks the declaration after its code, and returns the rest after it.
fn check_declaration<'a>(rest: Rest<'a>) -> Result<Rest<'a>, (&'static str, u64)> {
    let (tag, rest) = unsigned(rest).map_err(|failure| (rule_of(failure), 0))?;
    if tag == 0 || tag > 0xffff {
        return Err(("A4 BadTag", 0));
    }
    let Some((children, pairs)) = rest.number(1) else {
        return Err(("A1 AbbrevCut", 0));
    };
    if children > 1 {
        return Err(("A5 BadChildren", 0));
    }
    check_pairs(pairs)
}

/// The first fault of a table.
pub(crate) fn check_table(table: Rest) -> Result<(), Fault> {
    let mut rest = table;
    for _ in 0..=table.bytes.len() {
        let (code, after) = unsigned(rest).map_err(|failure| Fault::in_abbrev(
            rule_of(failure),
            rest.at,
            0,
        ))?;
        if code == 0 {
            return Ok(());
        }
        let is_repeated = table
            .up_to(rest)
            .is_some_and(|earlier| declaration_of(earlier, code).is_some());
        if is_repeated {
            return Err(Fault::in_abbrev("A3 CodeTwice", rest.at, 0));
        }
        rest = check_declaration(after).map_err(|(rule, attribute)| Fault::in_abbrev(
            rule, rest.at, attribute,
        ))?;
    }
    Err(Fault::in_abbrev("never", rest.at, 0))
}
