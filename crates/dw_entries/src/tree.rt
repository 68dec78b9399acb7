//! The tree of one unit and the nulls after it, in one pass over its items.

ghost use Rattle.std.specs.Prelude.{IfErr, IfNone, IfOk, IfSome, None, Ok, OnOk, Some, [], length, reverse, ◌+◌};
ghost use Rattle.std.specs.Prelude.{◌<◌, ◌^◌, ◌∷◌, ◌≡◌, ◌≤◌};
ghost use Rattle.dw_elf.specs.declared.TheConstants.{SECTION_LIMIT};
ghost use Rattle.dw_forms.specs.Formats.{mapped};
ghost use Rattle.dw_forms.specs.Stops.{GivesOrMemory, IfFault};
ghost use Rattle.dw_entries.specs.Faults.{BeginsNoNull, BodyFails, in_unit};
ghost use Rattle.dw_entries.specs.Header.{unit_header_size};
ghost use Rattle.dw_entries.specs.NamedDecls.{declared_view};
ghost use Rattle.dw_entries.specs.ItemFormats.{code as code_format, item as item_format};
ghost use Rattle.dw_entries.specs.Stopped.{AreAllNulls, NullsThen, TreeOf};
ghost use Rattle.dw_entries.specs.Units.{context_in, numbers_in};
ghost use Rattle.dw_entries.specs.Walk.{enter as entered, link, step, walk_of};

use crate::fault::{Failing, PlainFault, Section};
use crate::id::OptionalId;
use crate::item::{read_code, read_first, read_item};
use crate::records::{Record, UnitContext, UnitRecord};
use dw_forms::{DeclAt, Rule, Stop};
use std::alloc::{AllocError, Global};

/// A list of children that is still open: whose it is, and its last entry so far.
#[derive(Clone, Copy, Debug)]
pub struct Level {
    pub parent: OptionalId,
    pub last: OptionalId,
}

/// The entry of this number is followed by this sibling.
fn set_next(records: &mut Vec<Record>, at: u32, id: u32)
    requires { id < 0xffffffff }
    ensures { records.new.items ≡ link at id records.old.items }
{
    if (at as usize) < records.len() {
        records[at as usize].next = OptionalId::some(id);
    }
}

/// The list of children of an entry, none of which was taken up.
fn list_of(id: u32) -> Level
    requires { id < 0xffffffff }
    ensures { result ≡ record { parent = Some id; last = None } }
{
    Level {
        parent: OptionalId::some(id),
        last: OptionalId::none(),
    }
}

/// Takes the first entry of a unit up, and returns the list of its children if it may have any.
fn enter_first(
    records: &mut Vec<Record>,
    at: u32,
    declared: (u32, DeclAt<'_>),
) -> Result<Option<Level>, AllocError>
    requires few_entries { length records.old.items < 0xffffffff }
    ensures { IfOk result (λ inner. walk_of records.new.items [] inner
        ≡ entered at (declared_view declared.entry) records.old.items []) }
{
    let id = records.len() as u32;
    records.push(Record {
        at,
        decl: declared.0,
        parent: OptionalId::none(),
        next: OptionalId::none(),
    })?;
    if declared.1.has_children() {
        Ok(Some(list_of(id)))
    } else {
        Ok(None)
    }
}

/// Takes an entry of the innermost open list up: the last one in the list is followed by it, and its own list is opened
/// if it may have children. Returns the innermost list that is open after that. The lists around it are `outer`.
fn enter(
    records: &mut Vec<Record>,
    outer: &mut Vec<Level>,
    inner: Level,
    at: u32,
    declared: (u32, DeclAt<'_>),
) -> Result<Level, AllocError>
    requires few_entries { length records.old.items < 0xffffffff }
    requires few_levels { length outer.old.items < 2 ^ 32 }
    ensures { IfOk result (λ own. walk_of records.new.items outer.new.items (Some own)
        ≡ entered at (declared_view declared.entry) records.old.items (inner ∷ reverse outer.old.items)) }
{
    let id = records.len() as u32;
    let parent = inner.parent;
    if let Some(last) = inner.last.get() {
        set_next(records, last, id);
    }
    records.push(Record {
        at,
        decl: declared.0,
        parent,
        next: OptionalId::none(),
    })?;
    let own = Level {
        parent,
        last: OptionalId::some(id),
    };
    if declared.1.has_children() {
        outer.push(own)?;
        Ok(list_of(id))
    } else {
        Ok(own)
    }
}

/// The fault of an item at this offset, in the unit of this header. A missing first entry is at the header.
fn plain_fault_at(failing: Failing, header: u32, at: u32) -> PlainFault
    ensures { result ≡ in_unit failing header at }
{
    let at = match failing.rule {
        Rule::NoUnitEntry => header,
        _ => at,
    };
    PlainFault {
        rule: failing.rule,
        section: Section::Info,
        at,
        attribute: failing.attribute,
    }
}

/// Takes one more item, which is at `at`, and returns the innermost list that is open after that, if there is one, and
/// the bytes after the item.
#[inline(always)]
fn turn<'b>(
    context: UnitContext<'_>,
    rest: &'b [u8],
    at: u32,
    records: &mut Vec<Record>,
    outer: &mut Vec<Level>,
    inner: Level,
) -> Result<(Option<Level>, &'b [u8]), Stop<Failing>>
    requires few_entries { length records.old.items < 0xffffffff }
    requires few_levels { length outer.old.items < 2 ^ 32 }
    ensures { GivesOrMemory (λ x. (walk_of records.new.items outer.new.items x.0, x.1.now)) result
        ((mapped (λ i. step (numbers_in context.entry) at i (walk_of records.old.items outer.old.items (Some inner)))
        (item_format (context_in context.entry))).read rest.now) }
{
    match read_item(context, rest) {
        Err(failing) => Err(Stop::Fault(failing)),
        Ok((None, after)) => Ok((outer.pop(), after)),
        Ok((Some(declared), after)) => {
            let own = enter(records, outer, inner, at, declared)?;
            Ok((Some(own), after))
        }
    }
}

/// Takes the tree at the front of a unit's body, which is at `start`, and returns the bytes after it.
fn walk_tree<'b>(
    alloc: Global,
    context: UnitContext<'_>,
    unit: UnitRecord,
    start: u32,
    body: &'b [u8],
    records: &mut Vec<Record>,
) -> Result<&'b [u8], Stop<PlainFault>>
    requires start { start ≡ unit.at + unit_header_size unit.header.kind }
    requires fits { start + length body.now ≤ SECTION_LIMIT }
    requires few_entries { length records.old.items ≤ unit.at }
    ensures tree { IfOk result
        (λ rest. TreeOf (context_in context.entry) (numbers_in context.entry) unit.header.kind body.now rest.now
        start records.old.items records.new.items) }
    ensures fault { IfErr result (IfFault (BodyFails (context_in context.entry) unit.header.kind unit.at body.now)) }
{
    let (declared, mut rest) = match read_first(context, unit.header.kind, body) {
        Ok(found) => found,
        Err(failing) => return Err(Stop::Fault(plain_fault_at(failing, unit.at, start))),
    };
    let mut outer: Vec<Level> = Vec::new(alloc);
    let mut inner = enter_first(records, start, declared)?;
    let end = start + body.len() as u32;
    while let Some(level) = inner {
        let at = end - rest.len() as u32;
        let (next, after) = match turn(context, rest, at, records, &mut outer, level) {
            Ok(taken) => taken,
            Err(Stop::Memory) => return Err(Stop::Memory),
            Err(Stop::Fault(failing)) => {
                return Err(Stop::Fault(plain_fault_at(failing, unit.at, at)));
            }
        };
        inner = next;
        rest = after;
    }
    Ok(rest)
}

/// The bytes after a null, if one is here.
fn skip_null(rest: &[u8]) -> Option<&[u8]>
    ensures null { IfSome result (λ after. code_format.read rest.now ≡ Ok (0, after.now)) }
    ensures other { IfNone result (BeginsNoNull rest.now) }
{
    match read_code(rest) {
        Ok((code, after)) => { if code == 0 { Some(after) } else { None } }
        Err(_) => None,
    }
}

/// The bytes from the first item on that is no null, if there is one.
fn behind_nulls(bytes: &[u8]) -> Option<&[u8]>
    ensures left { IfSome result (λ left. NullsThen bytes.now left.now) }
    ensures none { IfNone result (AreAllNulls bytes.now) }
{
    let mut rest = bytes;
    while !rest.is_empty() {
        match skip_null(rest) {
            Some(after) => rest = after,
            None => return Some(rest),
        }
    }
    None
}

/// The entries of the unit's tree go to the end of the records. After it the body has only nulls.
pub fn walk_unit(
    alloc: Global,
    context: UnitContext<'_>,
    unit: UnitRecord,
    body: &[u8],
    records: &mut Vec<Record>,
) -> Result<(), Stop<PlainFault>>
    requires fits { unit.at + unit_header_size unit.header.kind + length body.now ≤ SECTION_LIMIT }
    requires few_entries { length records.old.items ≤ unit.at }
    ensures tree { OnOk result (TreeOf (context_in context.entry) (numbers_in context.entry) unit.header.kind body.now
        [] (unit.at + unit_header_size unit.header.kind) records.old.items records.new.items) }
    ensures fault { IfErr result (IfFault (BodyFails (context_in context.entry) unit.header.kind unit.at body.now)) }
{
    let start = unit.at + unit.header.kind.size() as u32;
    let rest = walk_tree(alloc, context, unit, start, body, records)?;
    match behind_nulls(rest) {
        None => Ok(()),
        Some(left) => Err(Stop::Fault(PlainFault {
            rule: Rule::LeftOver,
            section: Section::Info,
            at: start + (body.len() - left.len()) as u32,
            attribute: 0,
        })),
    }
}
