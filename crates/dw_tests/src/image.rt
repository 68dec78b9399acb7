//! Look-ups in the image of sound sections.

use dw_elf::Sections;
use dw_entries::Value;
use dw_entries::constants::*;
use dw_image::{EntryId, Image, TypeId, Verdict, verify};
use std::alloc::Global;
use std::test::Fail;

/// The image of a table and a .debug_info. The other sections are empty.
pub fn image_of<'a>(alloc: Global, table: &'a [u8], info: &'a [u8]) -> Result<Image<'a>, Fail> {
    let Ok(sections) = Sections::new(table, info, &[], &[], &[], &[]) else {
        return Err("too large".into());
    };
    match verify(alloc, sections) {
        Ok(Verdict::Sound(image)) => Ok(image),
        _ => Err("not sound".into()),
    }
}

/// A table: a compile unit with a name, a base type and a structure with a name and a size, a member with a name, a
/// type and a location, an array with a type, and a dimension with a count.
const TABLE: [u8; 52] = [
    0x01, 0x11, 1, 0x03, 0x08, 0, 0, //
    0x02, 0x24, 0, 0x03, 0x08, 0x0b, 0x0b, 0, 0, //
    0x03, 0x13, 1, 0x03, 0x08, 0x0b, 0x0b, 0, 0, //
    0x04, 0x0d, 0, 0x03, 0x08, 0x49, 0x11, 0x38, 0x0b, 0, 0, //
    0x05, 0x01, 1, 0x49, 0x11, 0, 0, //
    0x06, 0x21, 0, 0x37, 0x0b, 0, 0, //
    0, 0,
];

/// A unit by it: `int`, a structure `s` of 16 bytes with the members `n` and `a`, and an array of three of `int`.
const INFO: [u8; 42] = [
    0x26, 0, 0, 0, 5, 0, 1, 8, 0, 0, 0, 0, //
    0x01, b'u', 0, //
    0x02, b'i', b'n', b't', 0, 4, //
    0x03, b's', 0, 16, //
    0x04, b'n', 0, 0x0f, 0, 0x04, b'a', 0, 0x24, 4, 0, //
    0x05, 0x0f, 0x06, 3, 0, //
    0,
];

/// An entry: its offset, tag, depth and name; the numbers of its parent, its next sibling and its first two children;
/// the numbers of the target of its DW_AT_type, of that type, of itself if it is a type, and of its steps by value; its
/// count and its size.
type Row<'a> = (
    u32,
    Tag,
    usize,
    Option<&'a [u8]>,
    [Option<usize>; 4],
    [Option<usize>; 5],
    Option<u128>,
    Option<u64>,
);

/// No entry.
const N: Option<usize> = None;

/// The entries of INFO.
const ROWS: [Row<'static>; 7] = [
    (
        0x0c,
        DW_TAG_compile_unit,
        0,
        Some(b"u"),
        [N, N, Some(1), Some(2)],
        [N, N, N, N, N],
        None,
        None,
    ),
    (
        0x0f,
        DW_TAG_base_type,
        1,
        Some(b"int"),
        [Some(0), Some(2), N, N],
        [N, N, Some(1), N, N],
        None,
        Some(4),
    ),
    (
        0x15,
        DW_TAG_structure_type,
        1,
        Some(b"s"),
        [Some(0), Some(5), Some(3), Some(4)],
        [N, N, Some(2), Some(1), Some(5)],
        None,
        Some(16),
    ),
    (
        0x19,
        DW_TAG_member,
        2,
        Some(b"n"),
        [Some(2), Some(4), N, N],
        [Some(1), Some(1), N, N, N],
        None,
        None,
    ),
    (
        0x1e,
        DW_TAG_member,
        2,
        Some(b"a"),
        [Some(2), N, N, N],
        [Some(5), Some(5), N, N, N],
        None,
        None,
    ),
    (
        0x24,
        DW_TAG_array_type,
        1,
        None,
        [Some(0), N, Some(6), N],
        [Some(1), Some(1), Some(5), Some(1), N],
        None,
        Some(12),
    ),
    (
        0x26,
        DW_TAG_subrange_type,
        2,
        None,
        [Some(5), N, N, N],
        [N, N, Some(6), N, N],
        Some(3),
        None,
    ),
];

fn number_of(id: Option<EntryId>) -> Option<usize> {
    match id {
        Some(id) => Some(id.number()),
        None => None,
    }
}

fn entry_of(id: Option<TypeId>) -> Option<usize> {
    match id {
        Some(id) => Some(id.entry().number()),
        None => None,
    }
}

/// What an image has of the entry at an offset.
fn row_of<'a>(image: &Image<'a>, offset: u32) -> Option<Row<'a>> {
    let id = image.entry(offset)?;
    let head = image.head(id);
    let mut children = image.children(id);
    let places = [
        number_of(head.parent),
        number_of(head.next_sibling),
        number_of(children.next()),
        number_of(children.next()),
    ];
    let of_type = image.type_at(id);
    let size = match of_type {
        Some(of_type) => image.size_of(of_type),
        None => None,
    };
    let types = [
        number_of(image.target(id, DW_AT_type)),
        entry_of(image.type_of(id)),
        entry_of(of_type),
        number_of(image.step(id, 0)),
        number_of(image.step(id, 1)),
    ];
    let (depth, name, count) = (head.depth, image.name_of(id), image.count_of(id));
    Some((
        head.offset,
        head.tag,
        depth,
        name,
        places,
        types,
        count,
        size,
    ))
}

#[test]
fn entries(rt: HostRuntime) -> Result<(), Fail> {
    let image = image_of(rt.alloc(), &TABLE, &INFO)?;
    assert_eq!(rt; (image.units(), image.entries(), image.types()), (1, 7, 4));
    for want in &ROWS {
        let found = row_of(&image, want.0);
        assert_eq!(rt; found.as_ref(), Some(want));
    }
    assert_eq!(rt; image.entry(0x0d), None);
    let structure = image.nth(2).ok_or("no entry")?;
    let size = image.value(structure, DW_AT_byte_size);
    assert_eq!(rt; size, Some(Value::Unsigned(16)));
    assert_eq!(rt; image.nth(7), None);
    Ok(())
}
