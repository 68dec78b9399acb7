//! Units and their entries (DWARF 5, 7.5.1 and 7.5.2; DWARF 4, 7.5.1): the rules U and G.

use crate::abbrev::{Declaration, check_table, declaration_of, next_pair};
use crate::fault::Fault;
use crate::leb::{Failure, unsigned};
use crate::rest::Rest;
use crate::value::{after_value, is_allowed};

/// What a unit's header says, as far as its entries need it.
#[derive(Clone, Copy)]
struct Unit<'a> {
    at: u64,
    version: u64,
    address_size: u64,
    /// The tags that its first entry may have.
    first_tags: &'static [u64],
    table: Rest<'a>,
    /// The rest after the header, up to the unit's end.
    items: Rest<'a>,
}

/// A null, or an entry by its declaration.
#[derive(Clone, Copy)]
enum Item<'a> {
    Null,
    Entry(Declaration<'a>),
}

/// The next field of a header, or U1.
fn field<'a>(size: u64, rest: Rest<'a>) -> Result<(u64, Rest<'a>), &'static str> {
    rest.number(size).ok_or("U1 UnitCut")
}

fn address_size<'a>(rest: Rest<'a>) -> Result<(u64, Rest<'a>), &'static str> {
    let (size, rest) = field(1, rest)?;
    if size != 4 && size != 8 {
        return Err("U5 BadAddressSize");
    }
    Ok((size, rest))
}

/// The abbreviation table that the header names, and the rest.
fn table<'a>(abbrev: &'a [u8], rest: Rest<'a>) -> Result<(Rest<'a>, Rest<'a>), &'static str> {
    let (offset, rest) = field(4, rest)?;
    match Rest::whole(abbrev).split(offset) {
        Some((_, table)) if !table.bytes.is_empty() => Ok((table, rest)),
        _ => Err("U6 BadAbbrevOffset"),
    }
}

/// The header's fields after a version of 4.
fn version_4<'a>(abbrev: &'a [u8], at: u64, rest: Rest<'a>) -> Result<Unit<'a>, &'static str> {
    let (table, rest) = table(abbrev, rest)?;
    let (address_size, items) = address_size(rest)?;
    Ok(Unit {
        at,
        version: 4,
        address_size,
        first_tags: &[0x11, 0x3c],
        table,
        items,
    })
}

/// The header's fields after a version of 5.
fn version_5<'a>(abbrev: &'a [u8], at: u64, rest: Rest<'a>) -> Result<Unit<'a>, &'static str> {
    let (unit_type, rest) = field(1, rest)?;
    let first_tags: &'static [u64] = match unit_type {
        1 => &[0x11],
        2 => &[0x41],
        3 => &[0x3c],
        _ => return Err("U4 BadUnitType"),
    };
    let (address_size, rest) = address_size(rest)?;
    let (table, rest) = table(abbrev, rest)?;
    let items = if unit_type == 2 {
        let (_, rest) = field(8, rest)?;
        let (_, rest) = field(4, rest)?;
        rest
    } else {
        rest
    };
    Ok(Unit {
        at,
        version: 5,
        address_size,
        first_tags,
        table,
        items,
    })
}

/// The unit at the front, and the rest after it.
fn read_header<'a>(abbrev: &'a [u8], rest: Rest<'a>) -> Result<(Unit<'a>, Rest<'a>), &'static str> {
    let (length, after) = field(4, rest)?;
    if length >= 0xffff_fff0 {
        return Err("U2 Not32Bit");
    }
    let (inside, after) = after.split(length).ok_or("U1 UnitCut")?;
    let (version, inside) = field(2, inside)?;
    let unit = match version {
        4 => version_4(abbrev, rest.at, inside)?,
        5 => version_5(abbrev, rest.at, inside)?,
        _ => return Err("U3 BadVersion"),
    };
    Ok((unit, after))
}

/// The rule that such a value breaks in an entry.
fn rule_of(failure: Failure) -> &'static str {
    match failure {
        Failure::Cut => "G2 Cut",
        Failure::BadNumber => "G3 BadNumber",
        Failure::BadIndirect => "G4 BadIndirect",
    }
}

/// The next item, and the rest after its code.
fn read_item<'a>(unit: &Unit<'a>, rest: Rest<'a>) -> Result<(Item<'a>, Rest<'a>), Fault> {
    let (code, after) = unsigned(rest).map_err(|failure| Fault::in_info(
        rule_of(failure),
        rest.at,
        0,
    ))?;
    if code == 0 {
        return Ok((Item::Null, after));
    }
    match declaration_of(unit.table, code) {
        Some(declaration) => Ok((Item::Entry(declaration), after)),
        None => Err(Fault::in_info("G1 UndeclaredCode", rest.at, 0)),
    }
}

/// The rest after the values of an entry at this place.
fn after_values<'a>(
    unit: &Unit<'a>,
    at: u64,
    declaration: Declaration<'a>,
    values: Rest<'a>,
) -> Result<Rest<'a>, Fault> {
    let mut pairs = declaration.pairs;
    let mut rest = values;
    for _ in 0..=declaration.pairs.bytes.len() {
        let Some((pair, later)) = next_pair(pairs) else {
            return Ok(rest);
        };
        if !is_allowed(pair.form, unit.version) {
            return Err(Fault::in_info("G5 FormVersion", at, pair.attribute));
        }
        rest = after_value(pair.form, unit.version, unit.address_size, rest).map_err(
            |failure| Fault::in_info(rule_of(failure), at, pair.attribute),
        )?;
        pairs = later;
    }
    Err(Fault::in_info("never", at, 0))
}

/// The declaration of the unit's first entry, and the rest after that entry.
fn first_entry<'a>(unit: &Unit<'a>) -> Result<(Declaration<'a>, Rest<'a>), Fault> {
    let place = unit.items;
    if place.bytes.is_empty() {
        return Err(Fault::in_info("U7 NoUnitEntry", unit.at, 0));
    }
    let (first, rest) = read_item(unit, place)?;
    let Item::Entry(declaration) = first else {
        return Err(Fault::in_info("U7 NoUnitEntry", unit.at, 0));
    };
    if !unit.first_tags.contains(&declaration.tag) {
        return Err(Fault::in_info("U8 WrongUnitTag", place.at, 0));
    }
    Ok((
        declaration,
        after_values(unit, place.at, declaration, rest)?,
    ))
}

/// The rest after the unit's tree.
fn after_tree<'a>(unit: &Unit<'a>) -> Result<Rest<'a>, Fault> {
    let (first, mut rest) = first_entry(unit)?;
    let mut open_entries = u64::from(first.has_children);
    for _ in 0..=unit.items.bytes.len() {
        if open_entries == 0 {
            return Ok(rest);
        }
        let place = rest;
        match read_item(unit, place)? {
            (Item::Null, after) => {
                rest = after;
                open_entries = open_entries.saturating_sub(1);
            }
            (Item::Entry(declaration), after) => {
                rest = after_values(unit, place.at, declaration, after)?;
                open_entries = open_entries.saturating_add(u64::from(declaration.has_children));
            }
        }
    }
    Err(Fault::in_info("never", unit.at, 0))
}

/// Checks that only nulls come after a unit's tree.
fn check_padding(padding: Rest) -> Result<(), Fault> {
    let mut rest = padding;
    for _ in 0..=padding.bytes.len() {
        if rest.bytes.is_empty() {
            return Ok(());
        }
        match unsigned(rest) {
            Ok((0, after)) => rest = after,
            _ => return Err(Fault::in_info("U9 LeftOver", rest.at, 0)),
        }
    }
    Err(Fault::in_info("never", rest.at, 0))
}

/// The rest after the unit at the front.
fn after_unit<'a>(abbrev: &'a [u8], rest: Rest<'a>) -> Result<Rest<'a>, Fault> {
    let (unit, after) = read_header(abbrev, rest).map_err(|rule| Fault::in_info(rule, rest.at, 0))?;
    check_table(unit.table)?;
    check_padding(after_tree(&unit)?)?;
    Ok(after)
}

/// The first fault of the units and their tables.
pub fn check_sections(abbrev: &[u8], info: &[u8]) -> Result<(), Fault> {
    let mut rest = Rest::whole(info);
    for _ in 0..=info.len() {
        if rest.bytes.is_empty() {
            return Ok(());
        }
        rest = after_unit(abbrev, rest)?;
    }
    Err(Fault::in_info("never", rest.at, 0))
}
