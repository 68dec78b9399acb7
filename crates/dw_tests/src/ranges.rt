//! Ranges of entries and range lists as `dw_ranges` returns them, and a smallest one that violates each rule.

use dw_entries::{Stop, Value};
use dw_ranges::{
    Range, RangeSections, UnitAddresses, covers, join, keep_live, ranges_of_values, read_list,
};
use std::alloc::{AllocError, Global};
use std::test::Fail;

/// Two addresses of 4 bytes: 0x10 and 0x30.
const SLOTS: [u8; 8] = [0x10, 0, 0, 0, 0x30, 0, 0, 0];

/// A unit of this version with a base address of 0x1000.
fn unit<'a>(version: u16, lists_base: Option<u32>) -> UnitAddresses<'a> {
    UnitAddresses {
        version,
        address_size: 4,
        base: Some(0x1000),
        slots: &SLOTS,
        lists_base,
    }
}

/// The first and the last bounds of the ranges of a list, and how many there are; or the code of the rule, and its
/// place.
fn list(
    alloc: Global,
    unit: &UnitAddresses<'_>,
    section: &[u8],
    offset: usize,
) -> Result<(u64, u64, usize, usize), (&'static str, usize)> {
    let mut ranges: Vec<Range> = Vec::new(alloc);
    match read_list(unit, section, offset, &mut ranges) {
        Ok(end) => match (ranges.first(), ranges.last()) {
            (Some(first), Some(last)) => Ok((first.low, last.high, ranges.len(), end)),
            _ => Ok((0, 0, 0, end)),
        },
        Err(Stop::Memory) => Err(("out of memory", 0)),
        Err(Stop::Fault(fault)) => Err((fault.rule.code(), fault.at)),
    }
}

// One entry of each kind of DWARF 5, 7.25; the end of the list is at the end of the section or before it.
#[test]
fn lists(rt: HostRuntime) {
    let alloc = rt.alloc();
    let five = unit(5, None);
    let four = unit(4, None);
    let rows: [(&UnitAddresses<'_>, &[u8], usize, (u64, u64, usize, usize)); 12] = [
        (&five, &[0], 0, (0, 0, 0, 1)),
        (&five, &[9, 0, 9], 1, (0, 0, 0, 2)),
        (&five, &[1, 1, 4, 2, 3, 0], 0, (0x32, 0x33, 1, 6)),
        (&five, &[2, 0, 1, 0], 0, (0x10, 0x30, 1, 4)),
        (&five, &[3, 1, 0x80, 1, 0], 0, (0x30, 0xb0, 1, 5)),
        (&five, &[4, 2, 5, 4, 7, 7, 0], 0, (0x1002, 0x1007, 2, 7)),
        (&five, &[5, 0, 2, 0, 0, 4, 0, 1, 0], 0, (0x200, 0x201, 1, 9)),
        (
            &five,
            &[6, 0, 2, 0, 0, 8, 2, 0, 0, 0],
            0,
            (0x200, 0x208, 1, 10),
        ),
        (&five, &[7, 0, 2, 0, 0, 8, 0], 0, (0x200, 0x208, 1, 7)),
        (&four, &[0, 0, 0, 0, 0, 0, 0, 0], 0, (0, 0, 0, 8)),
        (
            &four,
            &[1, 0, 0, 0, 3, 0, 0, 0, 0, 0, 0, 0, 0, 0, 0, 0],
            0,
            (0x1001, 0x1003, 1, 16),
        ),
        (
            &four,
            &[
                0xff, 0xff, 0xff, 0xff, 0, 2, 0, 0, 1, 0, 0, 0, 3, 0, 0, 0, 0, 0, 0, 0, 0, 0, 0, 0,
            ],
            0,
            (0x201, 0x203, 1, 24),
        ),
    ];
    for (unit, section, offset, want) in rows {
        assert_eq!(rt; list(alloc, unit, section, offset), Ok(want), "{section:?}");
    }
}

// One list for each rule, with the place of its fault.
#[test]
fn list_rules(rt: HostRuntime) {
    let alloc = rt.alloc();
    let five = unit(5, None);
    let four = unit(4, None);
    let baseless = UnitAddresses {
        version: 5,
        address_size: 4,
        base: None,
        slots: &SLOTS,
        lists_base: None,
    };
    let rows: [(&UnitAddresses<'_>, &[u8], usize, &str, usize); 11] = [
        (&five, &[0], 1, "X3", 1),
        (&five, &[0], 9, "X3", 9),
        (&five, &[4, 1, 2], 0, "X4", 3),
        (&five, &[4, 1, 2, 8, 0], 0, "X4", 3),
        (&five, &[4, 1], 0, "X4", 0),
        (
            &five,
            &[
                4, 0, 0x80, 0x80, 0x80, 0x80, 0x80, 0x80, 0x80, 0x80, 0x80, 0x80, 0, 0,
            ],
            0,
            "X4",
            0,
        ),
        (&four, &[0, 0, 0, 0, 0, 0, 0], 0, "X4", 0),
        (&baseless, &[4, 1, 2, 0], 0, "X5", 0),
        (&five, &[4, 2, 1, 0], 0, "X6", 0),
        (&five, &[7, 0xff, 0xff, 0xff, 0xff, 1, 0], 0, "X6", 0),
        (&five, &[4, 1, 2, 1, 2, 0], 0, "X7", 3),
    ];
    for (unit, section, offset, rule, at) in rows {
        assert_eq!(rt;
            list(alloc, unit, section, offset),
            Err((rule, at)),
            "{section:?}"
        );
    }
}

/// A contribution with two lists: none, and 0x1001 up to 0x1002.
const CONTRIBUTION: [u8; 25] = [
    21, 0, 0, 0, 5, 0, 4, 0, 2, 0, 0, 0, // the header, with two offsets
    8, 0, 0, 0, 9, 0, 0, 0, // the offsets
    0, 4, 1, 2, 0,
];

/// The bounds of the only range of an entry with these values, 0 if it has none; or the code of the rule.
fn bounds(
    alloc: Global,
    unit: &UnitAddresses<'_>,
    lists: &[u8],
    values: (Option<Value<'_>>, Option<Value<'_>>, Option<Value<'_>>),
) -> Result<(u64, u64), &'static str> {
    let sections = RangeSections {
        rnglists: lists,
        ranges: &[],
    };
    let (low, high, list) = values;
    let mut ranges: Vec<Range> = Vec::new(alloc);
    match ranges_of_values(&sections, unit, low, high, list, &mut ranges) {
        Ok(_) => match ranges.first() {
            Some(range) => Ok((range.low, range.high)),
            None => Ok((0, 0)),
        },
        Err(Stop::Memory) => Err("out of memory"),
        Err(Stop::Fault(rule)) => Err(rule.code()),
    }
}

// The attributes of DWARF 5, 2.17, and one entry for each rule.
#[test]
fn entries(rt: HostRuntime) {
    let alloc = rt.alloc();
    let five = unit(5, Some(12));
    let low = Some(Value::Addr(0x10));
    let length = Some(Value::Unsigned(4));
    let first = Some(Value::RngIndex(0));
    let rows: [(
        Option<Value<'_>>,
        Option<Value<'_>>,
        Option<Value<'_>>,
        Result<(u64, u64), &str>,
    ); 17] = [
        (None, None, None, Ok((0, 0))),
        (low, None, None, Ok((0, 0))),
        (low, length, None, Ok((0x10, 0x14))),
        (low, Some(Value::Signed(4)), None, Ok((0x10, 0x14))),
        (low, Some(Value::Addr(0x14)), None, Ok((0x10, 0x14))),
        (
            Some(Value::AddrIndex(0)),
            Some(Value::AddrIndex(1)),
            None,
            Ok((0x10, 0x30)),
        ),
        (None, None, first, Ok((0, 0))),
        (low, None, Some(Value::RngIndex(1)), Ok((0x1001, 0x1002))),
        (None, None, Some(Value::SecOffset(21)), Ok((0x1001, 0x1002))),
        (None, length, None, Err("X1")),
        (low, length, first, Err("X1")),
        (low, Some(Value::Flag(true)), None, Err("X1")),
        (None, None, length, Err("X1")),
        (low, Some(Value::Addr(0xf)), None, Err("X2")),
        (low, Some(Value::Signed(-1)), None, Err("X2")),
        (None, None, Some(Value::RngIndex(2)), Err("X3")),
        (Some(Value::AddrIndex(2)), length, None, Err("X7")),
    ];
    for (low, high, list, want) in rows {
        assert_eq!(rt;
            bounds(alloc, &five, &CONTRIBUTION, (low, high, list)),
            want,
            "{low:?} {high:?} {list:?}"
        );
    }
}

// A list with an index needs a base and a contribution that is whole.
#[test]
fn contributions(rt: HostRuntime) -> Result<(), Fail> {
    let alloc = rt.alloc();
    let first = Some(Value::RngIndex(0));
    let rows: [(Option<u32>, usize, u8, Result<(u64, u64), &str>); 9] = [
        (Some(12), 0, 21, Ok((0, 0))),
        (None, 0, 21, Err("X3")),
        (Some(11), 0, 21, Err("X3")),
        (Some(25), 0, 21, Err("X3")),
        (Some(12), 0, 22, Err("X3")),
        (Some(12), 4, 4, Err("X3")),
        (Some(12), 6, 8, Err("X3")),
        (Some(12), 7, 1, Err("X3")),
        (Some(12), 8, 4, Err("X3")),
    ];
    for (base, at, byte, want) in rows {
        let mut lists: Vec<u8> = Vec::new(alloc);
        lists.extend_from_slice(&CONTRIBUTION)?;
        if let Some(place) = lists.get_mut(at) {
            *place = byte;
        }
        assert_eq!(rt;
            bounds(alloc, &unit(5, base), &lists, (None, None, first)),
            want,
            "{at} {byte}"
        );
    }
    Ok(())
}

/// Ranges with these bounds.
fn ranges_of(alloc: Global, bounds: &[(u64, u64)]) -> Result<Vec<Range>, AllocError> {
    let mut ranges = Vec::new(alloc);
    for (low, high) in bounds {
        ranges.push(Range {
            low: *low,
            high: *high,
        })?;
    }
    Ok(ranges)
}

// Ranges that overlap or touch are one area, and those of no address are none.
#[test]
fn areas(rt: HostRuntime) -> Result<(), Fail> {
    let alloc = rt.alloc();
    let rows: [(&[(u64, u64)], &[(u64, u64)]); 8] = [
        (&[], &[]),
        (&[(3, 3)], &[]),
        (&[(5, 7), (1, 3)], &[(1, 3), (5, 7)]),
        (&[(1, 3), (3, 5)], &[(1, 5)]),
        (&[(1, 9), (2, 4), (8, 12)], &[(1, 12)]),
        (&[(4, 6), (1, 2), (4, 6)], &[(1, 2), (4, 6)]),
        (&[(1, 2), (7, 7), (3, 4)], &[(1, 2), (3, 4)]),
        (&[(2, u64::MAX), (0, 2)], &[(0, u64::MAX)]),
    ];
    for (bounds, want) in rows {
        let mut ranges = ranges_of(alloc, bounds)?;
        join(&mut ranges);
        assert_eq!(rt;
            ranges.as_slice(),
            ranges_of(alloc, want)?.as_slice(),
            "{bounds:?}"
        );
    }
    Ok(())
}

// The areas of 2 up to 4 and of 6 up to 9.
#[test]
fn live_ranges(rt: HostRuntime) -> Result<(), Fail> {
    let alloc = rt.alloc();
    let mut code = ranges_of(alloc, &[(2, 4), (6, 9)])?;
    join(&mut code);
    let rows: [((u64, u64), bool, usize, usize); 9] = [
        ((2, 4), true, 1, 0),
        ((3, 4), true, 1, 0),
        ((6, 9), true, 1, 0),
        ((5, 5), true, 0, 0),
        ((9, 9), true, 0, 0),
        ((1, 3), false, 0, 1),
        ((3, 7), false, 0, 1),
        ((4, 5), false, 0, 1),
        ((8, 10), false, 0, 1),
    ];
    for (bounds, covered, live, dead) in rows {
        let mut ranges = ranges_of(alloc, &[bounds])?;
        let range = *ranges.first().ok_or("no range")?;
        assert_eq!(rt; covers(&code, range), covered, "{bounds:?}");
        assert_eq!(rt;
            (keep_live(&code, &mut ranges), ranges.len()),
            (dead, live),
            "{bounds:?}"
        );
    }
    Ok(())
}
