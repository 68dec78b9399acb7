//! Batches of units that share an abbreviation table: whether each may be verified alone, and how the values of one may
//! refer to entries of others.

ghost use Rattle.std.specs.Prelude.{◌≡◌, ◌+◌, ◌<◌, ◌≤◌, [], None, IfOk, IfSome, drop, length};
ghost use Rattle.std.specs.Bool.{OnTrue, OnFalse};
ghost use Rattle.dw_links.specs.Signatures.{type_unit_of};
ghost use Rattle.dw_entries.specs.Views.{all_entries, units_of};
ghost use Rattle.dw_units.specs.IndependentBatches.{leaves_by, HaveNoTypeUnit};
ghost use Rattle.dw_units.specs.BatchSections.{AreSizes, IsAllowed, Refer};

use byteorder::{ByteOrder, LittleEndian};
use dw_elf::Sections;
use dw_entries::{Entries, HeaderKind, read_header};
use dw_forms::{Form, form_with_number, pair_of, tag_and_children, take_code};
use std::alloc::{AllocError, Global};

/// The unit at the front of some bytes.
#[derive(Clone, Copy)]
pub(crate) struct FirstUnit {
    size: usize,
    /// Where its abbreviation table begins in .debug_abbrev.
    table: usize,
}

/// The batch at the front of some bytes.
#[derive(Clone, Copy)]
struct FirstBatch {
    size: usize,
    has_several_units: bool,
    /// The unit after it.
    next: Option<FirstUnit>,
}

/// The size of the unit at the front, by its unit_length. None if the bytes end before.
fn unit_size(info: &[u8]) -> Option<usize>
    ensures { IfSome result (λ n. (0 < n) × (n ≤ length info.now)) }
{
    if info.len() < 4 {
        return None;
    }
    let length = LittleEndian::read_u32(&info[..4]) as usize;
    if length > info.len() - 4 {
        return None;
    }
    Some(length + 4)
}

/// The unit at the front, if .debug_abbrev has so many bytes. None if the bytes end before, its header is malformed, or
/// it is a type unit.
fn first_unit(abbrev_size: usize, info: &[u8]) -> Option<FirstUnit>
    ensures { IfSome result (λ unit. (0 < unit.size) × (unit.size ≤ length info.now)) }
{
    let size = unit_size(info)?;
    let (header, _) = read_header(abbrev_size, &info[..size]).ok()?;
    if is_type_unit(header.kind) {
        return None;
    }
    Some(FirstUnit {
        size,
        table: header.abbrev_offset as usize,
    })
}

/// The batch that begins with this unit: the unit, and those after it that share its abbreviation table.
fn first_batch(abbrev_size: usize, info: &[u8], first: FirstUnit) -> FirstBatch
    requires { (0 < first.size) × (first.size ≤ length info.now) }
    ensures within { (0 < result.size) × (result.size ≤ length info.now) }
    ensures next { IfSome result.next (λ unit. (0 < unit.size) × (result.size + unit.size ≤ length info.now)) }
{
    let mut size = first.size;
    loop {
        let next = first_unit(abbrev_size, &info[size..]);
        match next {
            Some(unit) if unit.table == first.table => size += unit.size,
            _ => {
                return FirstBatch {
                    size,
                    has_several_units: first.size < size,
                    next,
                };
            }
        }
    }
}

/// How the values of a batch may refer to entries of other units.
#[derive(Clone, Copy)]
pub(crate) enum Elsewhere {
    /// Not at all.
    Never,
    /// By offsets of .debug_info (DW_FORM_ref_addr).
    ByOffset,
    /// By signatures, or in forms that the entries name.
    BySignature,
}

/// How a value in this form may.
pub(crate) fn leaves_by(form: Form) -> Elsewhere
    ensures { result ≡ leaves_by form }
{
    match form {
        Form::RefAddr => Elsewhere::ByOffset,
        Form::RefSig8 | Form::Indirect => Elsewhere::BySignature,
        _ => Elsewhere::Never,
    }
}

/// Whether a batch may have values that refer so. Only where it has several units may one refer to another by offset.
fn is_allowed(found: Elsewhere, most: Elsewhere) -> bool
    ensures { OnTrue result (IsAllowed most found) }
{
    matches!(
        (found, most),
        (Elsewhere::Never, _) | (Elsewhere::ByOffset, Elsewhere::ByOffset)
    )
}

/// Moves past a declaration's attributes. None if they are malformed, or a form lets a value refer out of the batch.
fn pass_attributes(bytes: &mut &[u8], most: Elsewhere) -> Option<()>
    ensures { IfSome result (λ _. length bytes.new.now < length bytes.old.now) }
{
    while let Some((_, form)) = pair_of(bytes).ok()? {
        if !is_allowed(leaves_by(form), most) {
            return None;
        }
        form_with_number(form, bytes).ok()?;
    }
    Some(())
}

/// The size of the abbreviation table at the front. None if it is malformed, or a form lets a value refer out of the
/// batch.
fn table_size(bytes: &[u8], most: Elsewhere) -> Option<usize>
    ensures { IfSome result (λ size. size ≤ length bytes.now) }
{
    let mut rest = bytes;
    while take_code(&mut rest).ok()? != 0 {
        tag_and_children(&mut rest).ok()?;
        pass_attributes(&mut rest, most)?;
    }
    Some(bytes.len() - rest.len())
}

/// Whether the strings end where their section does, so that no search for the last zero byte is long.
fn ends_with_zero(strings: &[u8]) -> bool {
    matches!(strings, [] | [.., 0])
}

/// What is left of the budget after one batch more. None if it is all of .debug_info, a form of its table lets a value
/// refer out of it, or the budget does not suffice.
fn left_after(
    sections: &Sections<'_>,
    table: usize,
    batch: &FirstBatch,
    budget: usize,
) -> Option<usize> {
    if batch.size == sections.info.len() - sections.base as usize {
        return None;
    }
    let most = if batch.has_several_units {
        Elsewhere::ByOffset
    } else {
        Elsewhere::Never
    };
    let used = table_size(sections.abbrev.get(table..)?, most)?;
    budget.saturating_add(batch.size / 16).checked_sub(used)
}

/// The sizes of the batches, if each is to be verified alone: there are several, no form of their tables lets a value
/// refer out of one, and what each batch costs besides its bytes is little beside them: the tables may have the bytes
/// of .debug_abbrev, and one more for each 16 bytes of the units so far.
pub(crate) fn separate_batches(
    alloc: Global,
    sections: &Sections<'_>,
) -> Result<Option<Vec<usize>>, AllocError>
    ensures { IfOk result (λ found. IfSome found
        (λ sizes. AreSizes sizes.items (drop sections.now.base sections.now.info.now) [])) }
{
    if !ends_with_zero(sections.str) || !ends_with_zero(sections.line_str) {
        return Ok(None);
    }
    let mut sizes = Vec::new(alloc);
    let mut rest = &sections.info[sections.base as usize..];
    let mut budget = sections.abbrev.len();
    let mut next = first_unit(sections.abbrev.len(), rest);
    while let Some(first) = next {
        let batch = first_batch(sections.abbrev.len(), rest, first);
        budget = match left_after(sections, first.table, &batch, budget) {
            Some(left) => left,
            None => return Ok(None),
        };
        sizes.push(batch.size)?;
        rest = &rest[batch.size..];
        next = batch.next;
    }
    if !rest.is_empty() {
        return Ok(None);
    }
    Ok(Some(sizes))
}

/// Whether no value of entries may refer to other units otherwise than so, by the forms of the abbreviation tables.
fn refer_at_most(entries: &Entries<'_>, most: Elsewhere) -> bool
    ensures { OnTrue result (Refer (all_entries entries.now) most) }
{
    let decls = entries.decls();
    for number in 0..decls.spec_count() {
        if !is_allowed(leaves_by(decls.spec(number).form), most) {
            return false;
        }
    }
    true
}

/// How the values of entries may refer to other units.
pub(crate) fn elsewhere_of(entries: &Entries<'_>) -> Elsewhere
    ensures { Refer (all_entries entries.now) result }
{
    if refer_at_most(entries, Elsewhere::Never) {
        Elsewhere::Never
    } else if refer_at_most(entries, Elsewhere::ByOffset) {
        Elsewhere::ByOffset
    } else {
        Elsewhere::BySignature
    }
}

/// Whether a unit of this kind is a type unit.
fn is_type_unit(kind: HeaderKind) -> bool
    ensures { OnFalse result (type_unit_of kind ≡ None) }
{
    matches!(kind, HeaderKind::TypeUnit { .. })
}

/// Whether no unit is a type unit.
pub(crate) fn have_no_type_unit(entries: &Entries<'_>) -> bool
    ensures { OnTrue result (HaveNoTypeUnit (units_of entries.now)) }
{
    for number in 0..entries.unit_count() {
        if is_type_unit(entries.unit(number).header.kind) {
            return false;
        }
    }
    true
}
