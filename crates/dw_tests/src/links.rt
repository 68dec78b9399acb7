//! What attributes refer to: entries, texts and addresses.

use dw_elf::Sections;
use dw_entries::constants::*;
use dw_entries::{EntryId, scan};
use dw_forms::Attribute;
use dw_links::{Links, link};
use std::test::Fail;

/// A compile_unit with both bases, and entries with values in each form of a reference, a string and an address.
const TABLE: [u8; 63] = [
    1, 0x11, 1, 0x72, 0x17, 0x73, 0x17, 0, 0, // compile_unit: str_offsets_base, addr_base
    2, 0x24, 0, 0x03, 0x08, 0, 0, // base_type: name in form string
    3, 0x16, 0, 0x03, 0x0e, 0x49, 0x13, 0, 0, // typedef: name in form strp, type in form ref4
    4, 0x16, 0, 0x03, 0x1f, 0x49, 0x10, 0, 0, // typedef: name in form line_strp, type in form ref_addr
    5, 0x16, 0, 0x03, 0x25, 0x49, 0x20, 0, 0, // typedef: name in form strx1, type in form ref_sig8
    6, 0x0a, 0, 0x11, 0x01, 0, 0, // label: low_pc in form addr
    7, 0x0a, 0, 0x11, 0x29, 0, 0, // label: low_pc in form addrx1
    8, 0x41, 1, 0, 0, // type_unit
    0,
];

/// Strings `a`, `b` and `c`, and `kl`.
const STR: [u8; 6] = [0x61, 0, 0x62, 0, 0x63, 0];

const LINE_STR: [u8; 3] = [0x6b, 0x6c, 0];

/// Contributions of two slots and of one, whose bases are 8 and 24.
const STR_OFFSETS: [u8; 28] = [
    12, 0, 0, 0, 5, 0, 0, 0, 0, 0, 0, 0, 2, 0, 0, 0, // `a` and `b`
    8, 0, 0, 0, 5, 0, 0, 0, 4, 0, 0, 0, // `c`
];

/// Contributions of two addresses and of one, whose bases are 8 and 32.
const ADDR: [u8; 40] = [
    20, 0, 0, 0, 5, 0, 8, 0, 1, 0, 0, 0, 0, 0, 0, 0, 2, 1, 0, 0, 0, 0, 0, 0, // 1 and 0x102
    12, 0, 0, 0, 5, 0, 8, 0, 3, 0, 0, 0, 0, 0, 0, 0x80,
];

/// Entries 0 and 1 of a type_unit, 2 to 8 of a compile_unit, and 9 to 11 of another.
const INFO: [u8; 127] = [
    25, 0, 0, 0, 5, 0, 2, 8, 0, 0, 0, 0, // header, signature and type offset
    1, 0, 0, 0, 0, 0, 0, 0, 0x19, 0, 0, 0, //
    8, 2, 0x74, 0, 0, // entries 0 and 1
    60, 0, 0, 0, 5, 0, 1, 8, 0, 0, 0, 0, // header
    1, 8, 0, 0, 0, 8, 0, 0, 0, // entry 2
    2, 0x69, 0, // entry 3, at 0x15
    3, 0, 0, 0, 0, 0x15, 0, 0, 0, // entry 4
    4, 1, 0, 0, 0, 0x19, 0, 0, 0, // entry 5
    5, 1, 1, 0, 0, 0, 0, 0, 0, 0, // entry 6
    6, 0x11, 0x22, 0, 0, 0, 0, 0, 0, // entry 7
    7, 1, 0, // entry 8
    30, 0, 0, 0, 5, 0, 1, 8, 0, 0, 0, 0, // header
    1, 24, 0, 0, 0, 32, 0, 0, 0, // entry 9
    5, 0, 1, 0, 0, 0, 0, 0, 0, 0, // entry 10
    7, 0, 0, // entry 11
];

/// The number of an entry, a text, and an address that an attribute leads to.
type Answer<'a> = (Option<usize>, Option<&'a [u8]>, Option<u64>);

fn number_of(id: Option<EntryId>) -> Option<usize> {
    match id {
        Some(id) => Some(id.number()),
        None => None,
    }
}

/// What an attribute of the entry with this number leads to.
fn answer<'a>(
    links: &Links<'_, 'a>,
    number: usize,
    attribute: Attribute,
) -> Result<Answer<'a>, Fail> {
    let Some(id) = links.entries.nth(number) else {
        return Err("no entry".into());
    };
    Ok((
        number_of(links.target(id, attribute)),
        links.text(id, attribute),
        links.address(id, attribute),
    ))
}

/// The number of an entry, an attribute, and its answer.
type Row = (usize, Attribute, Answer<'static>);

const ROWS: [Row; 13] = [
    (3, DW_AT_name, (None, Some(b"i"), None)),
    (3, DW_AT_type, (None, None, None)),
    (4, DW_AT_name, (None, Some(b"a"), None)),
    (4, DW_AT_type, (Some(3), None, None)),
    (5, DW_AT_name, (None, Some(b"l"), None)),
    (5, DW_AT_type, (Some(1), None, None)),
    (6, DW_AT_name, (None, Some(b"b"), None)),
    (6, DW_AT_type, (Some(1), None, None)),
    (7, DW_AT_low_pc, (None, None, Some(0x2211))),
    (8, DW_AT_low_pc, (None, None, Some(0x102))),
    (9, DW_AT_str_offsets_base, (None, None, None)),
    (10, DW_AT_name, (None, Some(b"c"), None)),
    (11, DW_AT_low_pc, (None, None, Some(0x8000_0000_0000_0003))),
];

#[test]
fn values_lead_somewhere(rt: HostRuntime) -> Result<(), Fail> {
    let Ok(sections) = Sections::new(&TABLE, &INFO, &STR, &LINE_STR, &STR_OFFSETS, &ADDR) else {
        return Err("too large".into());
    };
    let Ok(entries) = scan(rt.alloc(), &sections) else {
        return Err("no entries".into());
    };
    let Ok(links) = link(rt.alloc(), &entries) else {
        return Err("a fault".into());
    };
    for (number, attribute, want) in &ROWS {
        assert_eq!(rt;
            answer(&links, *number, *attribute)?,
            *want,
            "entry {number}"
        );
    }
    Ok(())
}
