//! The examples on the pages CALLING.md of the crates.

use crate::elf::file_of;
use crate::image::image_of;
use crate::vectors::{A, B};
use dw_cprint::declare;
use dw_elf::find;
use dw_entries::{Fault, Sections, Stop, scan};
use dw_forms::constants::*;
use dw_forms::{read_table, read_uleb};
use dw_image::{Image, Verdict, verify};
use std::alloc::Global;
use std::test::Fail;

/// How many bytes .debug_info has, or the first rule that the file violates.
fn info_length(file: &[u8]) -> Result<usize, &'static str> {
    match find(file) {
        Ok(sections) => Ok(sections.info.len()),
        Err(fault) => Err(fault.rule.code()),
    }
}

/// The tag of an entry, by the abbreviation table that starts at offset 0.
fn tag_of(alloc: Global, section: &[u8], entry: &[u8]) -> Option<Tag> {
    let table = read_table(alloc, section, 0).ok()?;
    let (code, _length) = read_uleb(entry).ok()?;
    Some(table.get(code)?.tag)
}

/// The offsets of the entries that are types.
fn types(alloc: Global, sections: &Sections<'_>) -> Result<Vec<u32>, Stop<Fault>> {
    let entries = scan(alloc, sections)?;
    let mut offsets = Vec::new(alloc);
    for number in 0..entries.count() {
        let entry = entries.at(entries.id(number));
        if entry.is_type() {
            offsets.push(entry.offset())?;
        }
    }
    Ok(offsets)
}

/// The size of the type whose entry starts at an offset, or the first rule that the sections violate.
fn size_at(alloc: Global, sections: Sections<'_>, at: u32) -> Result<Option<u64>, &'static str> {
    match verify(alloc, sections) {
        Ok(Verdict::Sound(image)) => Ok(size_in(&image, at)),
        Ok(Verdict::Fault(fault)) => Err(fault.rule.code()),
        Err(_) => Err("out of memory"),
    }
}

/// The size of the type whose entry starts at an offset.
fn size_in(image: &Image<'_>, at: u32) -> Option<u64> {
    image.size_of(image.type_at(image.entry(at)?)?)
}

/// The C declaration of the entry that starts at an offset, or why there is none.
fn declaration_at(alloc: Global, image: &Image<'_>, at: u32) -> Result<Vec<u8>, &'static str> {
    let Some(id) = image.entry(at) else {
        return Err("no entry");
    };
    let mut text = Vec::new(alloc);
    match declare(alloc, image, id, &mut text) {
        Ok(()) => Ok(text),
        Err(refusal) => Err(refusal.name()),
    }
}

#[test]
fn the_examples(rt: HostRuntime) -> Result<(), Fail> {
    let file = file_of(rt.alloc(), &A, &B)?;
    assert_eq!(rt; info_length(&file), Ok(B.len()));
    assert_eq!(rt; info_length(&A), Err("E2"));

    assert_eq!(rt; tag_of(rt.alloc(), &A, &[2]), Some(DW_TAG_base_type));
    assert_eq!(rt; tag_of(rt.alloc(), &A, &[3]), None);

    let sections = find(&file).ok().ok_or("sections")?;
    let offsets = types(rt.alloc(), &sections).ok().ok_or("entries")?;
    assert!(rt; offsets.as_slice() == &[0x0f][..]);

    assert_eq!(rt; size_at(rt.alloc(), sections, 0x0f), Ok(Some(4)));
    assert_eq!(rt; size_at(rt.alloc(), sections, 0x0c), Ok(None));

    let image = image_of(rt.alloc(), &A, &B)?;
    let refused = declaration_at(rt.alloc(), &image, 0x0f).err();
    assert_eq!(rt; refused, Some("NotPrintable"));
    Ok(())
}
