//! Reading abbreviation tables (DWARF 5, 7.5.3). What is given `&mut &[u8]` moves past what it reads.

ghost use Rattle.std.specs.Prelude.{◌≡◌, ◌<◌, ◌≤◌, ℕ, [], ◌∷◌, ◌++◌, length, drop, false, option_map};
ghost use Rattle.std.specs.Prelude.{IfOk, IfErr, IfSome};
ghost use Rattle.dw_forms.specs.Front.{BeginsWith, BeginsWithNone};
ghost use Rattle.dw_forms.specs.Abbrev.{table_view, Decls, IsCode16, TableFails};
ghost use Rattle.dw_forms.specs.AttributeBits.{AreSeen};
ghost use Rattle.dw_forms.specs.AbbrevReading.{unsigned_at, form_at, begun_at, pair_at, attributes_of};
ghost use Rattle.dw_forms.specs.AbbrevReading.{children_byte_at, tagged_at, has_code, decl_at, table_at};
ghost use Rattle.dw_forms.specs.Stops.{IfFault, GivesOrMemory};
ghost use Rattle.dw_forms.specs.ValueReading.{Gives};

use crate::abbrev::{AbbrevTable, AttributeSpec, Decl};
use crate::code::{Attribute, Tag};
use crate::fault::{AbbrevFault, DeclFault, Stop};
use crate::form::Form;
use crate::leb::{read_sleb, read_uleb};
use crate::reader::take_byte;
use crate::rule::Rule;
use std::alloc::Global;
use std::collections::BTreeSet;

/// The code of a declaration, a tag, an attribute or a form.
pub fn take_code(bytes: &mut &[u8]) -> Result<u64, DeclFault>
    ensures exact { Gives (λ x. (x, bytes.new.now)) result (unsigned_at bytes.old.now) }
    ensures shorter { IfOk result (λ _. length bytes.new.now < length bytes.old.now) }
{
    let (code, len) = read_uleb(bytes)?;
    *bytes = &bytes[len..];
    Ok(code)
}

/// What is wrong with a declaration that breaks a rule.
pub fn fault(rule: Rule, attribute: u16) -> DeclFault
    ensures { result ≡ record { rule = rule; attribute = attribute } }
{
    DeclFault { rule, attribute }
}

/// The form, with the number that comes after an implicit constant.
pub fn form_with_number(form: Form, bytes: &mut &[u8]) -> Result<Form, DeclFault>
    ensures exact { Gives (λ x. (x, bytes.new.now)) result (form_at form bytes.old.now) }
    ensures within { IfOk result (λ _. length bytes.new.now ≤ length bytes.old.now) }
{
    let Form::ImplicitConst(_) = form else {
        return Ok(form);
    };
    let (number, len) = read_sleb(bytes)?;
    *bytes = &bytes[len..];
    Ok(Form::ImplicitConst(number))
}

/// The next attribute and its form, without the number of a constant, or none at the pair 0, 0.
#[tactic(auto, unfolding(crate::specs::Abbrev::pair))]
pub fn pair_of(bytes: &mut &[u8]) -> Result<Option<(u16, Form)>, DeclFault>
    ensures exact { Gives (λ x. (x, bytes.new.now)) result (begun_at bytes.old.now) }
    ensures shorter { IfOk result (λ _. length bytes.new.now < length bytes.old.now) }
{
    let attribute = take_code(bytes)?;
    let code = take_code(bytes)?;
    if attribute == 0 && code == 0 {
        return Ok(None);
    }
    if attribute == 0 || code == 0 || attribute > 0xffff {
        return Err(fault(Rule::BadPair, 0));
    }
    let attribute = attribute as u16;
    let form = Form::from_code(code).ok_or(fault(Rule::UnknownForm, attribute))?;
    Ok(Some((attribute, form)))
}

/// The next pair after the earlier ones of its declaration, whose codes are seen, or none at the pair 0, 0. Its own
/// code is seen, too.
#[tactic(auto, unfolding(crate::specs::Elements::next_at))]
fn next_attribute(
    earlier: &[AttributeSpec],
    seen: &mut BTreeSet<u16>,
    bytes: &mut &[u8],
) -> Result<Option<AttributeSpec>, Stop<DeclFault>>
    requires { AreSeen earlier.now seen.old }
    ensures exact { GivesOrMemory (λ x. (x, bytes.new.now)) result (pair_at earlier.now bytes.old.now) }
    ensures seen { IfOk result (λ x. IfSome x (λ spec. AreSeen (earlier.now ++ spec ∷ []) seen.new)) }
    ensures shorter { IfOk result (λ _. length bytes.new.now < length bytes.old.now) }
{
    let Some((attribute, form)) = pair_of(bytes)? else {
        return Ok(None);
    };
    if !seen.insert(attribute)? {
        return Err(Stop::Fault(fault(Rule::AttributeTwice, attribute)));
    }
    Ok(Some(AttributeSpec {
        attribute: Attribute(attribute),
        form: form_with_number(form, bytes)?,
    }))
}

/// The pairs of a declaration, up to the pair 0, 0.
fn read_attributes(alloc: Global, bytes: &mut &[u8]) -> Result<Vec<AttributeSpec>, Stop<DeclFault>>
    ensures exact { GivesOrMemory (λ x. (x.items, bytes.new.now)) result (attributes_of bytes.old.now) }
    ensures shorter { IfOk result (λ _. length bytes.new.now < length bytes.old.now) }
{
    let mut attributes = Vec::new(alloc);
    let mut seen = BTreeSet::new(alloc);
    while let Some(spec) = next_attribute(&attributes, &mut seen, bytes)? {
        attributes.push(spec)?;
    }
    Ok(attributes)
}

/// The byte that says whether entries have children.
fn read_children(bytes: &mut &[u8]) -> Result<bool, DeclFault>
    ensures exact { Gives (λ x. (x, bytes.new.now)) result (children_byte_at bytes.old.now) }
    ensures shorter { IfOk result (λ _. length bytes.new.now < length bytes.old.now) }
{
    match take_byte(fault(Rule::AbbrevCut, 0), bytes)? {
        0 => Ok(false),
        1 => Ok(true),
        _ => Err(fault(Rule::BadChildren, 0)),
    }
}

/// The tag of a declaration, and whether entries have children.
#[tactic(auto, unfolding(crate::specs::Abbrev::tag_and_children))]
pub fn tag_and_children(bytes: &mut &[u8]) -> Result<(Tag, bool), DeclFault>
    ensures exact { Gives (λ x. (x, bytes.new.now)) result (tagged_at bytes.old.now) }
    ensures code { IfOk result (λ x. IsCode16 x.0) }
    ensures shorter { IfOk result (λ _. length bytes.new.now < length bytes.old.now) }
{
    let tag = take_code(bytes)?;
    if tag == 0 || tag > 0xffff {
        return Err(fault(Rule::BadTag, 0));
    }
    Ok((Tag(tag as u16), read_children(bytes)?))
}

/// The next declaration after the earlier ones of its table, or none at the code 0.
#[tactic(auto, unfolding(crate::specs::Elements::next_at, crate::specs::Abbrev::code_or_end))]
fn next_decl(
    alloc: Global,
    earlier: &AbbrevTable,
    bytes: &mut &[u8],
) -> Result<Option<Decl>, Stop<DeclFault>>
    ensures exact { GivesOrMemory (λ x. (option_map table_view x, bytes.new.now)) result
        (decl_at earlier.now bytes.old.now) }
    ensures new { IfOk result (λ x. IfSome x (λ d. has_code d.code earlier.now ≡ false)) }
    ensures shorter { IfOk result (λ _. length bytes.new.now < length bytes.old.now) }
{
    let code = take_code(bytes)?;
    if code == 0 {
        return Ok(None);
    }
    if earlier.has_code(code) {
        return Err(Stop::Fault(fault(Rule::CodeTwice, 0)));
    }
    let (tag, has_children) = tag_and_children(bytes)?;
    Ok(Some(Decl {
        code,
        tag,
        has_children,
        attributes: read_attributes(alloc, bytes)?,
    }))
}

/// The declarations from this offset on, up to the code 0.
fn table(alloc: Global, section: &[u8], offset: usize) -> Result<AbbrevTable, Stop<AbbrevFault>>
    requires { offset ≤ length section.now }
    ensures fewer { IfOk result (λ t. length t < length section.now) }
    ensures exact { GivesOrMemory (λ t. t) result (table_at section.now offset) }
{
    let mut table = AbbrevTable::new(alloc);
    let mut rest = &section[offset..];
    loop {
        let place = section.len() - rest.len();
        match next_decl(alloc, &table, &mut rest) {
            Ok(Some(decl)) => table.push(decl)?,
            Ok(None) => return Ok(table),
            Err(error) => return Err(error.at(place)),
        }
    }
}

/// Reads the table that begins at this offset of .debug_abbrev. The section may go on after it.
pub fn read_table(
    alloc: Global,
    section: &[u8],
    offset: usize,
) -> Result<AbbrevTable, Stop<AbbrevFault>>
    requires { offset ≤ length section.now }
    // Some bytes from there on are the table of these declarations, and no others there are any table.
    ensures found { IfOk result (λ t. (len : ℕ) × BeginsWith Decls (drop offset section.now) t len) }
    ensures none { IfErr result (IfFault (λ _. BeginsWithNone Decls (drop offset section.now))) }
    ensures fault { IfErr result (IfFault (TableFails section.now offset)) }
    // Each declaration has a byte, and so has the end, so a place among them is below the section's length.
    ensures fewer { IfOk result (λ t. length t < length section.now) }
    // For callers that reason by steps.
    ensures exact { GivesOrMemory (λ t. t) result (table_at section.now offset) }
{
    table(alloc, section, offset)
}
