//! Entries as `scan` returns them: their values, their units and their declarations.

use crate::vectors::{B4, FORMS_4, FORMS_5, G, T, UNIT_4, UNIT_5, joined};
use dw_entries::{Attribute, Entries, Sections, Value, scan};
use std::alloc::{AllocError, Global};
use std::test::Fail;

/// The entries of a table and a .debug_info without a fault. The other sections are empty.
fn scanned<'a>(alloc: Global, table: &'a [u8], info: &'a [u8]) -> Result<Entries<'a>, Fail> {
    let Ok(sections) = Sections::new(table, info, &[], &[], &[], &[]) else {
        return Err("too large".into());
    };
    match scan(alloc, &sections) {
        Ok(entries) => Ok(entries),
        Err(_) => Err("a fault".into()),
    }
}

/// The values of UNIT_5, of two entries with 20 each.
const VALUES: [[Value<'static>; 20]; 2] = [
    [
        Value::Addr(0x0807060504030201),
        Value::Block(&[0xaa, 0xbb]),
        Value::Block(&[0xaa]),
        Value::Unsigned(0x0201),
        Value::Unsigned(0x04030201),
        Value::Unsigned(0x0807060504030201),
        Value::Text(b"ab"),
        Value::Block(&[0xaa, 0xbb]),
        Value::Block(&[0xaa]),
        Value::Unsigned(1),
        Value::Flag(true),
        Value::Signed(i64::MIN),
        Value::Str(0x04030201),
        Value::Unsigned(1 << 63),
        Value::RefInfo(0x04030201),
        Value::RefUnit(1),
        Value::RefUnit(0x0201),
        Value::RefUnit(0x04030201),
        Value::RefUnit(0x0807060504030201),
        Value::RefUnit(0x81),
    ],
    [
        Value::Unsigned(1),
        Value::SecOffset(0x04030201),
        Value::Expr(&[0xaa, 0xbb]),
        Value::Flag(true),
        Value::StrIndex(1),
        Value::AddrIndex(1),
        Value::Wide(&[1, 2, 3, 4, 5, 6, 7, 8, 9, 10, 11, 12, 13, 14, 15, 16]),
        Value::LineStr(0x04030201),
        Value::RefSig(0x0807060504030201),
        Value::Signed(i64::MIN),
        Value::LocIndex(1),
        Value::RngIndex(1),
        Value::StrIndex(1),
        Value::StrIndex(0x0201),
        Value::StrIndex(0x030201),
        Value::StrIndex(0x04030201),
        Value::AddrIndex(1),
        Value::AddrIndex(0x0201),
        Value::AddrIndex(0x030201),
        Value::AddrIndex(0x04030201),
    ],
];

// Each form, one after another and one by one; an attribute that is absent; an address of 4 bytes.
#[test]
fn values(rt: HostRuntime) -> Result<(), Fail> {
    let entries = scanned(rt.alloc(), &FORMS_5, &UNIT_5)?;
    for (number, row) in VALUES.iter().enumerate() {
        let id = entries.nth(number + 1).ok_or("no entry")?;
        let mut values = entries.values(id);
        for (k, want) in row.iter().enumerate() {
            let attribute = Attribute(0x2000 + k as u16);
            assert_eq!(rt; values.next(), Some((attribute, *want)));
            assert_eq!(rt; entries.value(id, attribute), Some(*want));
        }
        assert_eq!(rt; values.next(), None);
        assert_eq!(rt; entries.value(id, Attribute(0x2014)), None);
    }
    let entries = scanned(rt.alloc(), &FORMS_4, &UNIT_4)?;
    let id = entries.nth(1).ok_or("no entry")?;
    let address = entries.value(id, Attribute(0x2000));
    assert_eq!(rt; address, Some(Value::Addr(0x04030201)));
    Ok(())
}

// The place, type, version and address size of a type unit and a unit of version 4, and the number of the first entry.
// In version 4 the type is that of the first entry's tag.
#[test]
fn units(rt: HostRuntime) -> Result<(), Fail> {
    let info = joined(rt.alloc(), &[&G, &B4])?;
    for (tag, unit_type) in [(0x11, 1), (0x3c, 3)] {
        let mut table = T;
        table[1] = tag;
        let entries = scanned(rt.alloc(), &table, &info)?;
        let mut seen = Vec::new(rt.alloc());
        for unit in entries.units() {
            seen.push((
                unit.offset,
                unit.unit_type.code(),
                unit.header.kind.version(),
                unit.header.address_size,
                unit.first.number(),
            ))?;
        }
        let want = [(0, 2, 5, 8, 0), (33, unit_type, 4, 8, 2)];
        assert_eq!(rt; seen.as_slice(), want.as_slice());
    }
    Ok(())
}

/// Three compile units with one attribute each and the codes 1, 2 and 3, at 0, 7 and 14.
const ROW: [u8; 22] = [
    1, 0x11, 0, 0x3c, 0x19, 0, 0, 2, 0x11, 0, 0x3c, 0x19, 0, 0, 3, 0x11, 0, 0x3c, 0x19, 0, 0, 0,
];

/// Three with the codes 129, 130 and 131 of two bytes, at 0, 8 and 16. The second bytes start declarations of code 1.
const INSIDE: [u8; 25] = [
    0x81, 1, 0x11, 0, 0x3c, 0x19, 0, 0, 0x82, 1, 0x11, 0, 0x3c, 0x19, 0, 0, 0x83, 1, 0x11, 0, 0x3c,
    0x19, 0, 0, 0,
];

/// Tables that share declarations or their attributes, of which there are three: the section, and of each unit the
/// offset of its table and the code of its one entry.
const SHARED: [(&[u8], &[(u8, u8)]); 9] = [
    (&ROW, &[(0, 3), (7, 3), (14, 3), (0, 1), (7, 2)]),
    (&ROW, &[(14, 3), (7, 3), (0, 3), (0, 1), (7, 2)]),
    (&ROW, &[(7, 3), (0, 3), (14, 3), (0, 1), (7, 2)]),
    (&ROW, &[(7, 3), (14, 3), (0, 3), (0, 1), (7, 2)]),
    (&ROW, &[(14, 3), (0, 3), (7, 3), (0, 1), (7, 2)]),
    (&INSIDE, &[(0, 129), (1, 1), (0, 131), (1, 130)]),
    (&INSIDE, &[(0, 129), (9, 1), (0, 130), (9, 131)]),
    (&INSIDE, &[(1, 1), (0, 129), (1, 131), (0, 130)]),
    (&INSIDE, &[(9, 1), (1, 1), (9, 131), (1, 130)]),
];

/// Units of 14 bytes with an entry each. The codes have two bytes.
fn units_of(alloc: Global, rows: &[(u8, u8)]) -> Result<Vec<u8>, AllocError> {
    let mut units = Vec::new(alloc);
    for (table, code) in rows {
        let (low, high) = (*code | 0x80, *code >> 7);
        units.extend_from_slice(&[10, 0, 0, 0, 5, 0, 1, 8, *table, 0, 0, 0, low, high])?;
    }
    Ok(units)
}

/// The unit of an entry, and the code of its declaration.
fn unit_and_code(entries: &Entries<'_>, number: usize) -> Option<(usize, u64)> {
    let id = entries.nth(number)?;
    Some((entries.unit_of(id), entries.decl(id).code()))
}

#[test]
fn shared_declarations(rt: HostRuntime) -> Result<(), Fail> {
    for (table, rows) in &SHARED {
        let info = units_of(rt.alloc(), rows)?;
        let entries = scanned(rt.alloc(), table, &info)?;
        assert_eq!(rt;
            (entries.unit_count(), entries.decls().spec_count()),
            (rows.len(), 3)
        );
        for (number, (_, code)) in rows.iter().enumerate() {
            let want = (number, u64::from(*code));
            assert_eq!(rt; unit_and_code(&entries, number), Some(want));
        }
    }
    Ok(())
}
