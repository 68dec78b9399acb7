//! Declarations that `types` does not print: variables, and entries that are not listed.

use crate::image::image_of;
use dw_cprint::{PrintFault, declare};
use std::alloc::Global;
use std::test::Fail;

/// A table; `tests/rows/declarations.txt` has most of its entries. References have one byte.
const TABLE: [u8; 208] = [
    0x01, 0x11, 1, 0, 0, // compile unit
    0x02, 0x24, 0, 0x03, 0x08, 0x0b, 0x0b, 0, 0, // base type: name, size
    0x03, 0x16, 0, 0x03, 0x08, 0x49, 0x11, 0, 0, // typedef: name, type
    0x04, 0x0f, 0, 0x49, 0x11, 0, 0, // pointer: type
    0x05, 0x0f, 0, 0, 0, // pointer
    0x06, 0x26, 0, 0x49, 0x11, 0, 0, // const: type
    0x07, 0x26, 0, 0, 0, // const
    0x09, 0x35, 0, 0, 0, // volatile
    0x0a, 0x37, 0, 0x49, 0x11, 0, 0, // restrict: type
    0x0d, 0x01, 1, 0x49, 0x11, 0, 0, // array: type
    0x0e, 0x21, 0, 0x37, 0x0b, 0, 0, // dimension: count
    0x0f, 0x21, 0, 0, 0, // dimension
    0x10, 0x15, 0, 0x49, 0x11, 0, 0, // subroutine: type
    0x11, 0x15, 1, 0x27, 0x19, 0, 0, // subroutine: prototyped
    0x13, 0x05, 0, 0x49, 0x11, 0, 0, // parameter: type
    0x14, 0x18, 0, 0, 0, // more parameters
    0x16, 0x13, 1, 0x0b, 0x0b, 0, 0, // structure: size
    0x17, 0x0d, 0, 0x03, 0x08, 0x49, 0x11, 0, 0, // member: name, type
    0x1a, 0x17, 1, 0x0b, 0x0b, 0, 0, // union: size
    0x1b, 0x04, 1, 0x03, 0x08, 0x0b, 0x0b, 0, 0, // enumeration: name, size
    0x1c, 0x04, 1, 0x0b, 0x0b, 0, 0, // enumeration: size
    0x1d, 0x28, 0, 0x03, 0x08, 0x1c, 0x0d, 0, 0, // enumerator: name, value
    0x20, 0x34, 0, 0x03, 0x08, 0x49, 0x11, 0, 0, // variable: name, type
    0x21, 0x34, 0, 0x49, 0x11, 0, 0, // variable: type
    0x22, 0x34, 0, 0x03, 0x08, 0, 0, // variable: name
    0x23, 0x13, 0, 0x03, 0x08, 0x3c, 0x19, 0, 0, // structure: name, declaration
    0x24, 0x17, 0, 0x3c, 0x19, 0, 0, // union: declaration
    0x25, 0x04, 0, 0x03, 0x08, 0x3c, 0x19, 0, 0, // enumeration: name, declaration
    0x26, 0x16, 0, 0x49, 0x11, 0, 0, // typedef: type
    0,
];

/// A unit up to `int`, which is at 0x0d. What follows is at 0x13.
const FIRST: [u8; 19] = [
    0, 0, 0, 0, 5, 0, 1, 8, 0, 0, 0, 0, 0x01, 0x02, b'i', b'n', b't', 0, 4,
];

/// The entry at 0x13 and those after it, and its declaration or its refusal. The texts are written by hand.
const ROWS: [(&[u8], Result<&str, PrintFault>); 32] = [
    // variables: the type, where it is not `int`, is at 0x17
    (b"\x20v\0\x0d", Ok("int v;")),
    (b"\x20v\0\x17\x03t\0\x0d", Ok("t v;")),
    (b"\x20v\0\x17\x23s\0", Ok("struct s v;")),
    (b"\x20v\0\x17\x1be\0\x04\x1dA\0\0\0", Ok("enum e v;")),
    (b"\x20v\0\x17\x06\x0d", Ok("const int v;")),
    (b"\x20v\0\x17\x04\x0d", Ok("int *v;")),
    (b"\x20v\0\x17\x05", Ok("void *v;")),
    (b"\x20v\0\x17\x06\x19\x04\x0d", Ok("int *const v;")),
    (
        b"\x20v\0\x17\x06\x19\x0a\x1b\x04\x0d",
        Ok("int *const restrict v;"),
    ),
    (b"\x20v\0\x17\x04\x19\x09", Ok("volatile void *v;")),
    (b"\x20v\0\x17\x0d\x0d\x0e\x02\x0e\x03\0", Ok("int v[2][3];")),
    (b"\x20v\0\x17\x0d\x0d\x0f\0", Ok("int v[];")),
    (
        b"\x20v\0\x17\x0d\x1c\x0e\x03\0\x04\x1e\x06\x0d",
        Ok("const int *v[3];"),
    ),
    (
        b"\x20v\0\x17\x04\x19\x0d\x0d\x0e\x02\x0e\x03\0",
        Ok("int (*v)[2][3];"),
    ),
    (b"\x20v\0\x17\x10\x0d", Ok("int v();")),
    (b"\x20v\0\x17\x11\0", Ok("void v(void);")),
    (b"\x20v\0\x17\x11\x13\x0d\x14\0", Ok("void v(int, ...);")),
    (
        b"\x20v\0\x17\x04\x19\x11\x13\x0d\x14\0",
        Ok("void (*v)(int, ...);"),
    ),
    (
        b"\x20v\0\x17\x1a\x04\x17x\0\x0d\0",
        Ok("union { int x; } v;"),
    ),
    (
        b"\x20v\0\x17\x1c\x04\x1dB\0\x7e\0",
        Ok("enum { B = -2 } v;"),
    ),
    (b"\x20v\0\x17\x09", Err(PrintFault::Unspeakable)),
    (b"\x20v\0\x17\x07", Err(PrintFault::Unspeakable)),
    (b"\x22v\0", Err(PrintFault::Unspeakable)),
    (b"\x21\x0d", Err(PrintFault::BadName)),
    // other entries
    (b"\x23opaque\0", Ok("struct opaque;")),
    (b"\x16\x04\0", Err(PrintFault::BadName)),
    (b"\x24", Err(PrintFault::BadName)),
    (b"\x1c\x04\x1dA\0\x01\0", Err(PrintFault::BadName)),
    (b"\x25e\0", Err(PrintFault::Unspeakable)),
    (b"\x26\x0d", Err(PrintFault::BadName)),
    (b"\x02char\0\x01", Err(PrintFault::NotPrintable)),
    (b"\x04\x0d", Err(PrintFault::NotPrintable)),
];

/// The .debug_info of a unit with these items, the first of which is at 0x13.
fn info_of(alloc: Global, items: &[u8]) -> Result<Vec<u8>, Fail> {
    let mut info = FIRST.to_vec(alloc)?;
    info.extend_from_slice(items)?;
    info.push(0)?;
    let length = u8::try_from(info.len() - 4).ok().ok_or("too long")?;
    info[0] = length;
    Ok(info)
}

/// What `declare` returns of the entry at 0x13, and the text after it, which began with an `x`.
fn declared(alloc: Global, info: &[u8]) -> Result<(Result<(), PrintFault>, Vec<u8>), Fail> {
    let image = image_of(alloc, &TABLE, info)?;
    let id = image.entry(0x13).ok_or("no entry")?;
    let mut text = Vec::new(alloc);
    text.push(b'x')?;
    let outcome = declare(alloc, &image, id, &mut text);
    Ok((outcome, text))
}

// A text is appended to what is there, and a refused entry leaves that as it is.
#[test]
fn declarations(rt: HostRuntime) -> Result<(), Fail> {
    for (items, want) in &ROWS {
        let info = info_of(rt.alloc(), items)?;
        let (outcome, text) = declared(rt.alloc(), &info)?;
        let text = String::from_utf8(text).ok().ok_or("no text")?;
        let added = text.strip_prefix('x').ok_or("the text before it is gone")?;
        match want {
            Ok(wanted) => assert_eq!(rt; (outcome, added), (Ok(()), *wanted)),
            Err(refusal) => assert_eq!(rt; (outcome, added), (Err(*refusal), "")),
        }
    }
    Ok(())
}
