//! The public calls of the libraries by their signatures, and each field and variant of their types: a change of one
//! does not compile.

use crate::vectors::{A, B, X1};
use dw_cprint::{Listing, PrintFault, declare, declare_all};
use dw_elf::{ElfFault, ElfRule, Sections, TooLarge, find};
use dw_entries::constants::*;
use dw_entries::{Entries, EntryId, Fault, Head, HeaderKind, Rule, UnitHeader, UnitType, scan};
use dw_forms::{
    AbbrevFault, AbbrevTable, Decl, Form, NumberFault, Stop, Value, ValueFault, read_sleb,
    read_table, read_uleb, read_value,
};
use dw_image::{Image, NoMemory, TypeId, Verdict, verify};
use dw_links::{Links, check_classes, check_strings, link};
use dw_types::{ByValue, Order, OrderFault, SizeTable, StepGraph, order, sizes};
use std::alloc::Global;
use std::test::Fail;

#[test]
fn files(rt: HostRuntime) -> Result<(), Fail> {
    let found: Result<Sections<'_>, ElfFault> = find(&X1);
    let file = found.ok().ok_or("a fault")?;
    let made: Result<Sections<'_>, TooLarge> = Sections::new(
        file.abbrev,
        file.info,
        file.str,
        file.line_str,
        file.str_offsets,
        file.addr,
    );
    let made = made.ok().ok_or("too large")?;
    assert_eq!(rt; (made.abbrev, made.info), (&A[..], &B[..]));
    let not_elf = ElfFault {
        rule: ElfRule::NotElf64,
        section: 0,
    };
    assert_eq!(rt; find(&[]).err(), Some(not_elf));
    Ok(())
}

/// What a value has: a number, or bytes.
fn content(value: Value<'_>) -> (u64, usize) {
    match value {
        Value::Addr(n) | Value::Unsigned(n) | Value::StrIndex(n) | Value::AddrIndex(n) => (n, 0),
        Value::RefUnit(n) | Value::RefSig(n) | Value::LocIndex(n) | Value::RngIndex(n) => (n, 0),
        Value::Str(n) | Value::LineStr(n) | Value::RefInfo(n) | Value::SecOffset(n) => {
            (u64::from(n), 0)
        }
        Value::Signed(n) => (n.unsigned_abs(), 0),
        Value::Flag(is_set) => (u64::from(is_set), 0),
        Value::Block(bytes) | Value::Wide(bytes) | Value::Text(bytes) | Value::Expr(bytes) => {
            (0, bytes.len())
        }
    }
}

/// The number of an unsigned and of a signed number that bytes have, or of their fault.
fn number_in(bytes: &[u8]) -> (u64, i64) {
    let unsigned: Result<(u64, usize), NumberFault> = read_uleb(bytes);
    let signed: Result<(i64, usize), NumberFault> = read_sleb(bytes);
    let first = match unsigned {
        Ok((number, _)) => number,
        Err(NumberFault::Cut) => 1,
        Err(NumberFault::BadNumber) => 2,
    };
    let second = match signed {
        Ok((number, _)) => number,
        Err(NumberFault::Cut) => -1,
        Err(NumberFault::BadNumber) => -2,
    };
    (first, second)
}

/// What a value in form indirect has, or the number of its fault.
fn value_in(bytes: &[u8]) -> (u64, usize) {
    let value: Result<(Value<'_>, usize), ValueFault> = read_value(5, Form::Indirect, 8, bytes);
    match value {
        Ok((value, _)) => content(value),
        Err(ValueFault::Cut) => (1, 0),
        Err(ValueFault::BadNumber) => (2, 0),
        Err(ValueFault::BadIndirect) => (3, 0),
    }
}

/// The number of a rule of tables, the place and the attribute where a table violates it.
fn table_fault(stop: Stop<AbbrevFault>) -> Option<(u8, usize, u16)> {
    let Stop::Fault(
        AbbrevFault {
            rule,
            at,
            attribute,
        },
    ) = stop
    else {
        return None;
    };
    let number = match rule {
        Rule::AbbrevCut => 1,
        Rule::AbbrevNumber => 2,
        Rule::CodeTwice => 3,
        Rule::BadTag => 4,
        Rule::BadChildren => 5,
        Rule::BadPair => 6,
        Rule::UnknownForm => 7,
        Rule::AttributeTwice => 8,
        _ => 0,
    };
    Some((number, at, attribute))
}

/// A declaration of a table: its code, its tag, whether it says children, and its first attribute with its form.
fn declared(table: &AbbrevTable, code: u64) -> Option<(u64, Tag, bool, Attribute, Form)> {
    let decl: &Decl = table.get(code)?;
    let spec = decl.attributes.as_slice().first()?;
    Some((
        decl.code,
        decl.tag,
        decl.has_children,
        spec.attribute,
        spec.form,
    ))
}

#[test]
fn numbers_values_and_tables(rt: HostRuntime) -> Result<(), Fail> {
    assert_eq!(rt; (number_in(&[0x7f]), number_in(&[])), ((127, -1), (1, -1)));
    assert_eq!(rt; (value_in(&[0x0b, 7]), value_in(&[0])), ((7, 0), (3, 0)));
    let cut: Result<AbbrevTable, Stop<AbbrevFault>> = read_table(rt.alloc(), &[], 0);
    let stop = cut.err().ok_or("no fault")?;
    assert_eq!(rt; table_fault(stop), Some((1, 0, 0)));
    let table = read_table(rt.alloc(), &A, 0).ok().ok_or("a fault")?;
    let want = (1, DW_TAG_compile_unit, true, DW_AT_name, Form::Text);
    assert_eq!(rt; declared(&table, 1), Some(want));
    Ok(())
}

/// The fields of a stop: its rule, its section, its place, its attribute, and the length of its cycle.
fn fields(stop: Stop<Fault>) -> Option<(Rule, &'static str, u32, u16, usize)> {
    match stop {
        Stop::Fault(fault) => {
            let (section, cycle) = (fault.section.name(), fault.cycle.len());
            Some((fault.rule, section, fault.at, fault.attribute, cycle))
        }
        Stop::Memory => None,
    }
}

/// The fields of a unit: its offset, the offset of its table, its address size, its type and its first entry.
fn unit_fields(entries: &Entries<'_>) -> Option<(u32, u32, u8, u8, usize)> {
    let unit = entries.units().next()?;
    let UnitHeader {
        unit_length: _,
        kind,
        address_size,
        abbrev_offset,
    } = unit.header;
    let code = match kind {
        HeaderKind::Version4 => 0,
        HeaderKind::CompileUnit => UnitType::CompileUnit.code(),
        HeaderKind::PartialUnit => UnitType::PartialUnit.code(),
        HeaderKind::TypeUnit {
            signature: _,
            type_offset: _,
        } => UnitType::TypeUnit.code(),
    };
    Some((
        unit.offset,
        abbrev_offset,
        address_size,
        code,
        unit.first.number(),
    ))
}

/// The fields of the head of the entry at an offset, and whether both look-ups of values find the same.
fn entry_fields(entries: &Entries<'_>, offset: u32) -> Option<(Head, bool)> {
    let id: EntryId = entries.find(offset)?;
    let mut values = entries.values(id);
    let first: Option<(Attribute, Value<'_>)> = values.next();
    let Some((attribute, value)) = first else {
        return None;
    };
    let same: Option<Value<'_>> = entries.value(id, attribute);
    Some((entries.head(id), same == Some(value)))
}

#[test]
fn entries(rt: HostRuntime) -> Result<(), Fail> {
    let cut = Sections::new(&A, &B[..22], &[], &[], &[], &[])
        .ok()
        .ok_or("too large")?;
    let scanned: Result<Entries<'_>, Stop<Fault>> = scan(rt.alloc(), &cut);
    let stop = scanned.err().ok_or("no fault")?;
    assert_eq!(rt; fields(stop), Some((Rule::UnitCut, ".debug_info", 0, 0, 0)));
    let sections = Sections::new(&A, &B, &[], &[], &[], &[])
        .ok()
        .ok_or("too large")?;
    let entries = scan(rt.alloc(), &sections).ok().ok_or("a fault")?;
    assert_eq!(rt; (entries.sections().info, entries.count()), (&B[..], 2));
    assert_eq!(rt; unit_fields(&entries), Some((0, 0, 8, 1, 0)));
    let head = Head {
        offset: 0x0f,
        tag: DW_TAG_base_type,
        unit: 0,
        depth: 1,
        parent: entries.find(0x0c),
        next_sibling: None,
    };
    assert_eq!(rt; entry_fields(&entries, 0x0f), Some((head, true)));
    Ok(())
}

/// What the name of the entry at an offset leads to: no entry, how many bytes of text, and no address.
fn leads_to(links: &Links<'_, '_>, offset: u32) -> Option<(bool, usize, bool)> {
    let id = links.entries.find(offset)?;
    let target: Option<EntryId> = links.target(id, DW_AT_name);
    let text: Option<&[u8]> = links.text(id, DW_AT_name);
    let address: Option<u64> = links.address(id, DW_AT_name);
    Some((target.is_none(), text?.len(), address.is_none()))
}

/// The turns of the order of a graph and the rank of its first node, or how many nodes a cycle has.
fn order_of<G: StepGraph>(alloc: Global, graph: &G) -> (u128, usize) {
    let found: Result<Order, OrderFault> = order(alloc, graph);
    match found {
        Ok(order) if graph.nodes() > 0 => (order.turns(), order.rank(0)),
        Ok(order) => (order.turns(), 0),
        Err(OrderFault::Cycle(nodes)) => (0, nodes.len()),
        Err(OrderFault::Memory) => (0, 0),
    }
}

/// The first step of the first node of a graph.
fn first_step<G: StepGraph>(graph: &G) -> Option<usize> {
    if graph.nodes() > 0 && graph.steps(0) > 0 {
        return Some(graph.step(0, 0));
    }
    None
}

/// The size of the type at an offset.
fn size_at(alloc: Global, links: &Links<'_, '_>, offset: u32) -> Option<u64> {
    let steps: Result<ByValue, Stop<Fault>> = ByValue::new(alloc, links.entries, links);
    let Ok(steps) = steps else { return None };
    let Ok(order) = order(alloc, &steps) else {
        return None
    };
    let table: Result<SizeTable, Stop<Fault>> = sizes(alloc, links.entries, links, &order);
    table.ok()?.get(links.entries.find(offset)?)
}

#[test]
fn links_and_types(rt: HostRuntime) -> Result<(), Fail> {
    let sections = Sections::new(&A, &B, &[], &[], &[], &[])
        .ok()
        .ok_or("too large")?;
    let entries = scan(rt.alloc(), &sections).ok().ok_or("a fault")?;
    let classes: Result<(), Fault> = check_classes(rt.alloc(), &entries);
    let strings: Result<(), Fault> = check_strings(rt.alloc(), &entries);
    assert!(rt; classes.is_ok() && strings.is_ok());
    let links: Result<Links<'_, '_>, Stop<Fault>> = link(rt.alloc(), &entries);
    let links = links.ok().ok_or("a fault")?;
    assert_eq!(rt; leads_to(&links, 0x0f), Some((true, 3, true)));
    let steps = ByValue::new(rt.alloc(), &entries, &links)
        .ok()
        .ok_or("a fault")?;
    let (turns, rank) = order_of(rt.alloc(), &steps);
    assert_eq!(rt; (turns, rank < 2, first_step(&steps)), (2, true, None));
    assert_eq!(rt; size_at(rt.alloc(), &links, 0x0f), Some(4));
    Ok(())
}

/// What an image has of the entry at an offset, by every look-up: its name and its size, if the others find the same
/// entry and nothing else.
fn image_fields<'a>(image: &Image<'a>, offset: u32) -> Option<(&'a [u8], u64)> {
    let id: EntryId = image.entry(offset)?;
    let same: Option<EntryId> = image.nth(id.number());
    let of_type: Option<TypeId> = image.type_at(id);
    let (head, value): (Head, Option<Value<'_>>) = (image.head(id), image.value(id, DW_AT_name));
    let (target, type_of): (Option<EntryId>, Option<TypeId>) = (
        image.target(id, DW_AT_type),
        image.type_of(id),
    );
    let (count, step): (Option<u128>, Option<EntryId>) = (image.count_of(id), image.step(id, 0));
    let child: Option<EntryId> = image.children(id).next();
    let name: Option<&'a [u8]> = image.name_of(id);
    let none = target.is_none()
        && type_of.is_none()
        && count.is_none()
        && step.is_none()
        && child.is_none();
    if same != Some(id) || head.offset != offset || value.is_none() || !none {
        return None;
    }
    let size: Option<u64> = image.size_of(of_type?);
    Some((name?, size?))
}

#[test]
fn images_and_declarations(rt: HostRuntime) -> Result<(), Fail> {
    let sections = Sections::new(&A, &B, &[], &[], &[], &[])
        .ok()
        .ok_or("too large")?;
    let verdict: Result<Verdict<'_>, NoMemory> = verify(rt.alloc(), sections);
    let Ok(Verdict::Sound(image)) = verdict else {
        return Err("not sound".into());
    };
    assert_eq!(rt; (image.units(), image.entries(), image.types()), (1, 2, 1));
    assert_eq!(rt; image_fields(&image, 0x0f), Some((&b"int"[..], 4)));
    let id = image.entry(0x0f).ok_or("no entry")?;
    let mut text = Vec::new(rt.alloc());
    let printed: Result<(), PrintFault> = declare(rt.alloc(), &image, id, &mut text);
    assert_eq!(rt; printed, Err(PrintFault::NotPrintable));
    let listed: Result<Listing, NoMemory> = declare_all(rt.alloc(), &image);
    let listing = listed.ok().ok_or("no memory")?;
    assert_eq!(rt;
        (
            listing.order.len(),
            listing.text.len(),
            listing.refused.len()
        ),
        (0, 0, 0)
    );
    Ok(())
}
