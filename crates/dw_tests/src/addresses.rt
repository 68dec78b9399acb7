//! The functions of units and of files by address, as `dw_ranges` returns them, and a smallest unit that violates each
//! rule.

ghost use Rattle.std.specs.Prelude.{IfOk};
ghost use Rattle.dw_ranges.specs.Areas.{AreAreas};

use dw_entries::{Entries, Sections, Stop, scan};
use dw_ranges::{
    Buffers, Range, RangeSections, UnitFunctions, UnitRange, first_units, functions_at,
    functions_of_file, functions_of_unit, join, unit_at,
};
use std::alloc::{AllocError, Global};
use std::test::Fail;

/// A unit, a function and an inlined function, each with children, with DW_AT_low_pc of 4 bytes and DW_AT_high_pc of 1.
/// And a function with DW_AT_ranges.
const TABLE: [u8; 36] = [
    1, 0x11, 1, 0x11, 1, 0x12, 0x0b, 0, 0, //
    2, 0x2e, 1, 0x11, 1, 0x12, 0x0b, 0, 0, //
    3, 0x1d, 1, 0x11, 1, 0x12, 0x0b, 0, 0, //
    4, 0x2e, 1, 0x55, 0x17, 0, 0, 0, 0,
];

/// Two ranges of version 4: 2 up to 5 and 4 up to 6, from the base address 0x10. At the offset 16 is a list of no
/// ranges.
const MEETING: [u8; 24] = [
    2, 0, 0, 0, 5, 0, 0, 0, 4, 0, 0, 0, 6, 0, 0, 0, 0, 0, 0, 0, 0, 0, 0, 0,
];

/// A unit from 0x10 up to 0x30 with these entries.
fn push_unit(info: &mut Vec<u8>, items: &[u8]) -> Result<(), Fail> {
    let length = u8::try_from(items.len() + 14).ok().ok_or("too long")?;
    info.extend_from_slice(&[length, 0, 0, 0, 4, 0, 0, 0, 0, 0, 4, 1, 0x10, 0, 0, 0, 0x20])?;
    info.extend_from_slice(items)?;
    info.push(0)?;
    Ok(())
}

/// The range lists of the units.
const LISTS: RangeSections<'static> = RangeSections {
    rnglists: &[],
    ranges: &MEETING,
};

/// The areas of the program's code.
fn code_areas(alloc: Global) -> Result<Vec<Range>, AllocError>
    ensures { IfOk result (λ code. AreAreas code.items) }
{
    let mut code = Vec::new(alloc);
    code.push(Range {
        low: 0x10,
        high: 0x40,
    })?;
    join(&mut code);
    Ok(code)
}

/// The functions that have the address 0x13 in a unit from 0x10 up to 0x30 with these entries, where the code is from
/// 0x10 up to 0x40, and 24 bytes of range lists may be read, and how many ranges are dead; or the code of the rule, and
/// the offset of the entry.
fn functions_of(
    alloc: Global,
    items: &[u8],
) -> Result<Result<(Vec<usize>, usize), (&'static str, u32)>, Fail> {
    let mut info: Vec<u8> = Vec::new(alloc);
    push_unit(&mut info, items)?;
    let sections = Sections::new(&TABLE, &info, &[], &[], &[], &[])
        .ok()
        .ok_or("too large")?;
    let entries = scan(alloc, &sections).ok().ok_or("a fault")?;
    if entries.unit_count() == 0 {
        return Err("no unit".into());
    }
    let code = code_areas(alloc)?;
    let mut known = UnitFunctions::new(alloc, 24);
    let mut buffers = Buffers::new(alloc);
    match functions_of_unit(&LISTS, &code, &entries, 0, &mut known, &mut buffers) {
        Ok(()) => {
            let mut functions = Vec::new(alloc);
            functions_at(&known.spans, 0x13, &mut functions)?;
            Ok(Ok((functions, known.totals.dead)))
        }
        Err(Stop::Memory) => Err("out of memory".into()),
        Err(Stop::Fault(fault)) => Ok(Err((fault.rule.code(), fault.at))),
    }
}

// A chain of functions, dead ones, and a unit for each of the rules X8 to X13. A list of 8 bytes counts each time that
// an entry names it.
#[test]
fn functions(rt: HostRuntime) -> Result<(), Fail> {
    let rows: [(&[u8], Result<(&[usize], usize), (&str, u32)>); 11] = [
        (&[], Ok((&[], 0))),
        (
            &[2, 0x10, 0, 0, 0, 8, 3, 0x12, 0, 0, 0, 4, 0, 0],
            Ok((&[1, 2], 0)),
        ),
        (&[3, 0x12, 0, 0, 0, 4, 0], Ok((&[], 0))),
        (&[2, 0, 0, 0, 0, 8, 3, 2, 0, 0, 0, 4, 0, 0], Ok((&[], 2))),
        (
            &[2, 0x12, 0, 0, 0, 4, 0, 2, 0x12, 0, 0, 0, 4, 0],
            Ok((&[2], 0)),
        ),
        (&[4, 0, 0, 0, 0, 0], Err(("X8", 17))),
        (&[2, 0x2e, 0, 0, 0, 4, 0], Err(("X9", 17))),
        (
            &[2, 0x10, 0, 0, 0, 8, 3, 0x16, 0, 0, 0, 4, 0, 0],
            Err(("X10", 23)),
        ),
        (
            &[2, 0x10, 0, 0, 0, 4, 0, 2, 0x12, 0, 0, 0, 4, 0],
            Err(("X12", 24)),
        ),
        (
            &[4, 16, 0, 0, 0, 0, 4, 16, 0, 0, 0, 0, 4, 16, 0, 0, 0, 0],
            Ok((&[], 0)),
        ),
        (
            &[
                4, 16, 0, 0, 0, 0, 4, 16, 0, 0, 0, 0, 4, 16, 0, 0, 0, 0, 4, 16, 0, 0, 0, 0,
            ],
            Err(("X13", 35)),
        ),
    ];
    for (items, want) in rows {
        let got = functions_of(rt.alloc(), items)?;
        match (&got, want) {
            (Ok((functions, dead)), Ok(wanted)) => assert_eq!(rt;
                (functions.as_slice(), *dead),
                wanted,
                "{items:?}"
            ),
            (Err(fault), Err(wanted)) => assert_eq!(rt; *fault, wanted, "{items:?}"),
            _ => assert_eq!(rt; got.is_ok(), want.is_ok(), "{items:?}"),
        }
    }
    let twice: &[u8] = &[
        2, 0x10, 0, 0, 0, 8, 3, 0x11, 0, 0, 0, 4, 0, 3, 0x14, 0, 0, 0, 2, 0, 0,
    ];
    assert_eq!(rt; functions_of(rt.alloc(), twice)?.err(), Some(("X11", 30)));
    Ok(())
}

/// A range of a unit.
fn unit_range(low: u64, high: u64, unit: usize) -> UnitRange {
    UnitRange { low, high, unit }
}

/// The unit of an address, of units with these ranges.
fn unit_of(alloc: Global, ranges: &[UnitRange], address: u64) -> Result<Option<usize>, AllocError> {
    let mut all = Vec::new(alloc);
    all.extend_from_slice(ranges)?;
    let mut firsts = Vec::new(alloc);
    first_units(alloc, all.as_mut_slice(), &mut firsts)?;
    Ok(unit_at(&firsts, address))
}

// The first unit that has an address. Units may share addresses, and be in any order.
#[test]
fn units_by_address(rt: HostRuntime) -> Result<(), Fail> {
    let ranges = [
        unit_range(20, 30, 0),
        unit_range(5, 25, 2),
        unit_range(10, 12, 3),
        unit_range(8, 22, 1),
        unit_range(40, 40, 4),
        unit_range(50, u64::MAX, 5),
    ];
    let rows: [(u64, Option<usize>); 13] = [
        (4, None),
        (5, Some(2)),
        (8, Some(1)),
        (11, Some(1)),
        (19, Some(1)),
        (20, Some(0)),
        (25, Some(0)),
        (29, Some(0)),
        (30, None),
        (40, None),
        (50, Some(5)),
        (u64::MAX - 1, Some(5)),
        (u64::MAX, None),
    ];
    for (address, want) in rows {
        assert_eq!(rt; unit_of(rt.alloc(), &ranges, address)?, want, "{address}");
    }
    Ok(())
}

/// A unit of a file: with a function and an inlined one, with a function that a linker dropped, with a function outside
/// of the unit, or with two entries that name one list.
#[derive(Clone, Copy, Debug)]
enum UnitKind {
    Chain,
    Dead,
    Outside,
    Lists,
}

/// The entries of such a unit.
fn items_of(kind: UnitKind) -> &'static [u8] {
    match kind {
        UnitKind::Chain => &[2, 0x10, 0, 0, 0, 8, 3, 0x12, 0, 0, 0, 4, 0, 0],
        UnitKind::Dead => &[2, 0, 0, 0, 0, 8, 0],
        UnitKind::Outside => &[2, 0x2e, 0, 0, 0, 4, 0],
        UnitKind::Lists => &[4, 16, 0, 0, 0, 0, 4, 16, 0, 0, 0, 0],
    }
}

/// How many ranges, functions, inlined functions and dead ranges are counted.
#[derive(Clone, Copy, Debug, PartialEq, Eq)]
struct Counts(usize, usize, usize, usize);

/// The unit and the functions at an address of a file with these units, and what is counted; or the code of the rule,
/// and the offset of the entry.
fn file_functions(
    alloc: Global,
    units: &[UnitKind],
    address: u64,
) -> Result<Result<(Option<usize>, Vec<usize>, Counts), (&'static str, u32)>, Fail> {
    let mut info: Vec<u8> = Vec::new(alloc);
    for kind in units {
        push_unit(&mut info, items_of(*kind))?;
    }
    let sections = Sections::new(&TABLE, &info, &[], &[], &[], &[])
        .ok()
        .ok_or("too large")?;
    let entries: Entries<'_> = scan(alloc, &sections).ok().ok_or("a fault")?;
    let code = code_areas(alloc)?;
    match functions_of_file(alloc, &LISTS, &code, &entries, 24) {
        Ok(file) => {
            let mut functions = Vec::new(alloc);
            let unit = file.functions_at(address, &mut functions)?;
            let counts = Counts(
                file.totals.ranges,
                file.totals.functions,
                file.totals.inlined,
                file.totals.dead,
            );
            Ok(Ok((unit, functions, counts)))
        }
        Err(Stop::Memory) => Err("out of memory".into()),
        Err(Stop::Fault(fault)) => Ok(Err((fault.rule.code(), fault.at))),
    }
}

// The functions of the first unit that has the address; the budget is that of the whole file, and the first unit that
// violates a rule is named.
#[test]
fn functions_of_files(rt: HostRuntime) -> Result<(), Fail> {
    let rows: [(&[UnitKind], u64, Option<usize>, &[usize], Counts); 6] = [
        (&[], 0x13, None, &[], Counts(0, 0, 0, 0)),
        (
            &[UnitKind::Chain],
            0x13,
            Some(0),
            &[1, 2],
            Counts(3, 1, 1, 0),
        ),
        (&[UnitKind::Chain], 0x30, None, &[], Counts(3, 1, 1, 0)),
        (
            &[UnitKind::Dead, UnitKind::Chain],
            0x13,
            Some(0),
            &[],
            Counts(5, 1, 1, 1),
        ),
        (
            &[UnitKind::Chain, UnitKind::Chain],
            0x13,
            Some(0),
            &[1, 2],
            Counts(6, 2, 2, 0),
        ),
        (&[UnitKind::Lists], 0x13, Some(0), &[], Counts(1, 0, 0, 0)),
    ];
    for (units, address, unit, functions, counts) in rows {
        match file_functions(rt.alloc(), units, address)? {
            Ok((at, numbers, counted)) => assert_eq!(rt;
                (at, numbers.as_slice(), counted),
                (unit, functions, counts),
                "{units:?}"
            ),
            Err(fault) => assert_eq!(rt; fault, ("", 0), "{units:?}"),
        }
    }
    let faults: [(&[UnitKind], (&str, u32)); 3] = [
        (&[UnitKind::Outside, UnitKind::Outside], ("X9", 17)),
        (&[UnitKind::Dead, UnitKind::Outside], ("X9", 42)),
        (&[UnitKind::Lists, UnitKind::Lists], ("X13", 53)),
    ];
    for (units, want) in faults {
        let got = file_functions(rt.alloc(), units, 0x13)?.err();
        assert_eq!(rt; got, Some(want), "{units:?}");
    }
    Ok(())
}
