//! Every prefix of some sections and files, and each byte of them changed to each other value: `find` and `verify` name
//! the fault that the second reader (`slow_reader`) finds, and if it finds none, they name no rule that it knows.

use crate::elf::{SECTIONS_AT, file_of};
use crate::vectors::{A, B, FORMS_4, FORMS_5, M, T, TYPE_TABLE, TYPE_UNIT, UNIT_4, UNIT_5, X1};
use dw_elf::find;
use dw_image::{Verdict, verify};
use slow_reader::check_file;
use std::alloc::Global;
use std::process::Abort;
use std::test::Fail;

/// What `find` and `verify` say of a file, in the words of a report.
fn answer(alloc: Global, file: &[u8]) -> Result<String, Fail> {
    let sections = match find(file) {
        Ok(sections) => sections,
        Err(fault) => {
            let (code, name, section) = (fault.rule.code(), fault.rule.name(), fault.section);
            return Ok(format!(in alloc; "fault {code} {name} at section {section}")?);
        }
    };
    match verify(alloc, sections) {
        Ok(Verdict::Sound(_image)) => Ok(format!(in alloc; "sound")?),
        Ok(Verdict::Fault(fault)) => {
            let (code, name, section) = (
                fault.rule.code(),
                fault.rule.name(),
                fault.section.name(),
            );
            let (at, attribute) = (fault.at, fault.attribute);
            let line = format!(in alloc;
                "fault {code} {name} at {section}+0x{at:08x} attribute 0x{attribute:x}"
            )?;
            Ok(line)
        }
        Err(_) => Err("no memory".into()),
    }
}

/// Whether the answer names no rule of the file, of tables, units and entries.
fn is_past_entries(answer: &str) -> bool {
    let rules = [
        "fault K", "fault S", "fault R", "fault Y", "fault C", "fault Z", "sound",
    ];
    rules.iter().any(|rule| answer.starts_with(*rule))
}

/// Asserts that a file is answered as the slow reader does.
fn assert_agrees(rt: &impl Abort, alloc: Global, file: &[u8]) -> Result<(), Fail> {
    let answer = answer(alloc, file)?;
    match check_file(file) {
        Ok(()) => assert!(rt;
            is_past_entries(answer.as_str()),
            "{answer} in place of none"
        ),
        Err(fault) => {
            let wanted = format!(in alloc; "{fault}")?;
            assert_eq!(rt; answer, wanted);
        }
    }
    Ok(())
}

/// Asserts it with each byte from one place on changed to each byte. Returns how many files these are.
fn assert_changes(
    rt: &impl Abort,
    alloc: Global,
    file: &mut [u8],
    from: usize,
) -> Result<u64, Fail> {
    let mut runs = 0u64;
    for at in from..file.len() {
        let old = file.get(at).copied().ok_or("no such byte")?;
        for byte in 0..=255 {
            if let Some(place) = file.get_mut(at) {
                *place = byte;
            }
            assert_agrees(rt, alloc, file)?;
            runs = runs.saturating_add(1);
        }
        if let Some(place) = file.get_mut(at) {
            *place = old;
        }
    }
    Ok(runs)
}

// Without 64 bytes there is no header, and without its end no table of sections.
#[test]
fn a_file(rt: HostRuntime) -> Result<(), Fail> {
    let mut file = Vec::from_slice(rt.alloc(), &X1)?;
    for length in 0..file.len() {
        let front = file.as_slice().get(..length).ok_or("a longer one")?;
        let wanted = match length {
            0..64 => "fault E2 NotElf64 at section 0",
            _ => "fault E4 SectionTable at section 0",
        };
        let answer = answer(rt.alloc(), front)?;
        assert_eq!(rt; answer.as_str(), wanted, "{length} bytes");
        assert_agrees(&rt, rt.alloc(), front)?;
    }
    let runs = assert_changes(&rt, rt.alloc(), file.as_mut_slice(), 0)?;
    assert_eq!(rt; runs, 102_400);
    Ok(())
}

/// Asserts it of each prefix of two sections, and of each byte of them.
fn assert_sections(rt: &impl Abort, alloc: Global, abbrev: &[u8], info: &[u8]) -> Result<(), Fail> {
    for length in 0..abbrev.len() {
        let front = abbrev.get(..length).ok_or("a longer one")?;
        assert_agrees(rt, alloc, file_of(alloc, front, info)?.as_slice())?;
    }
    for length in 0..info.len() {
        let front = info.get(..length).ok_or("a longer one")?;
        assert_agrees(rt, alloc, file_of(alloc, abbrev, front)?.as_slice())?;
    }
    let mut file = file_of(alloc, abbrev, info)?;
    assert_eq!(rt; check_file(file.as_slice()), Ok(()));
    assert_changes(rt, alloc, file.as_mut_slice(), SECTIONS_AT)?;
    Ok(())
}

#[test]
fn small_sections(rt: HostRuntime) -> Result<(), Fail> {
    let pairs: [(&[u8], &[u8]); 3] = [(&A, &B), (&T, &M), (&TYPE_TABLE, &TYPE_UNIT)];
    for (abbrev, info) in pairs {
        assert_sections(&rt, rt.alloc(), abbrev, info)?;
    }
    Ok(())
}

#[test]
fn every_form_of_version_5(rt: HostRuntime) -> Result<(), Fail> {
    assert_sections(&rt, rt.alloc(), &FORMS_5, &UNIT_5)
}

// With the table of version 5, too, it has a fault.
#[test]
fn every_form_of_version_4(rt: HostRuntime) -> Result<(), Fail> {
    assert_sections(&rt, rt.alloc(), &FORMS_4, &UNIT_4)?;
    let file = file_of(rt.alloc(), &FORMS_5, &UNIT_4)?;
    assert_agrees(&rt, rt.alloc(), file.as_slice())
}
