//! Numbers and values in each form, and an abbreviation table, each read by itself.

use dw_forms::constants::*;
use dw_forms::{
    AbbrevFault, AttributeSpec, Form, NumberFault, Rule, Stop, Value, ValueFault, read_sleb,
    read_table, read_uleb, read_value,
};
use std::test::Fail;

/// Nine bytes of a number that has no other bits, and a tenth.
const fn tenth(last: u8) -> [u8; 10] {
    [0x80, 0x80, 0x80, 0x80, 0x80, 0x80, 0x80, 0x80, 0x80, last]
}

// The ends of the range.
#[test]
fn numbers(rt: HostRuntime) {
    assert_eq!(rt; read_uleb(&tenth(1)), Ok((1 << 63, 10)));
    assert_eq!(rt; read_uleb(&tenth(2)), Err(NumberFault::BadNumber));
    assert_eq!(rt; read_uleb(&[0x80; 9]), Err(NumberFault::Cut));
    assert_eq!(rt; read_uleb(&[0x80; 10]), Err(NumberFault::BadNumber));
    assert_eq!(rt; read_sleb(&tenth(0x7f)), Ok((i64::MIN, 10)));
    assert_eq!(rt; read_sleb(&tenth(0x40)), Err(NumberFault::BadNumber));
}

/// A form, an address size, bytes, and the value with how many of them it takes.
type Row<'a> = (Form, u8, &'a [u8], Result<(Value<'a>, usize), ValueFault>);

const VALUES: [Row<'static>; 21] = [
    (Form::Indirect, 8, &[0x0b, 7], Ok((Value::Unsigned(7), 2))),
    (
        Form::Indirect,
        8,
        &[0x8b, 0, 7],
        Ok((Value::Unsigned(7), 3)),
    ),
    (
        Form::Indirect,
        8,
        &[0x16, 0x0b, 7],
        Err(ValueFault::BadIndirect),
    ),
    (Form::Indirect, 8, &[0x21, 5], Err(ValueFault::BadIndirect)),
    (
        Form::Indirect,
        8,
        &[0x1c, 0, 0, 0, 0],
        Err(ValueFault::BadIndirect),
    ),
    (Form::Indirect, 8, &[], Err(ValueFault::Cut)),
    (Form::Indirect, 8, &[6, 1, 2], Err(ValueFault::Cut)),
    (Form::Indirect, 8, &[0x80; 10], Err(ValueFault::BadNumber)),
    (
        Form::Block,
        8,
        &[0x81, 0, 0xaa],
        Ok((Value::Block(&[0xaa]), 3)),
    ),
    (
        Form::Block,
        8,
        &[0xff, 0xff, 0xff, 0xff, 0xff, 0xff, 0xff, 0xff, 0xff, 1],
        Err(ValueFault::Cut),
    ),
    (Form::Block2, 8, &[2, 0, 0xaa], Err(ValueFault::Cut)),
    (
        Form::Strx3,
        8,
        &[1, 2, 3],
        Ok((Value::StrIndex(197_121), 3)),
    ),
    (
        Form::Addr,
        4,
        &[1, 0, 0, 0x80],
        Ok((Value::Addr(2_147_483_649), 4)),
    ),
    (Form::Addr, 8, &[1, 0, 0, 0x80], Err(ValueFault::Cut)),
    (Form::Flag, 8, &[2], Ok((Value::Flag(true), 1))),
    (Form::FlagPresent, 8, &[], Ok((Value::Flag(true), 0))),
    (Form::ImplicitConst(-1), 8, &[], Ok((Value::Signed(-1), 0))),
    (Form::Text, 8, b"a\0b", Ok((Value::Text(b"a"), 2))),
    (Form::Text, 8, b"a", Err(ValueFault::Cut)),
    (Form::Data16, 8, &[0; 15], Err(ValueFault::Cut)),
    (
        Form::RefSig8,
        8,
        &[0x11, 0x22, 0x33, 0x44, 0x55, 0x66, 0x77, 0x88],
        Ok((Value::RefSig(0x8877_6655_4433_2211), 8)),
    ),
];

#[test]
fn values(rt: HostRuntime) -> Result<(), Fail> {
    for (form, address_size, bytes, want) in &VALUES {
        if !form.allowed(5) || !matches!(*address_size, 4 | 8) {
            return Err("a value that no unit has".into());
        }
        let found = read_value(5, *form, *address_size, bytes);
        assert_eq!(rt; found, *want, "{bytes:?} in form {form:?}");
    }
    Ok(())
}

/// A variable, a base type with a name and a size, and a typedef with a type; codes 3, 200 and 1 in this order.
const TABLE: [u8; 25] = [
    3, 0x34, 0, 0, 0, 0xc8, 1, 0x24, 1, 0x03, 0x08, 0x0b, 0x21, 0x7f, 0, 0, 1, 0x16, 0, 0x49, 0x13,
    0, 0, 0, 0xff,
];

#[test]
fn a_table(rt: HostRuntime) -> Result<(), Fail> {
    let table = read_table(rt.alloc(), &TABLE, 0).ok().ok_or("no table")?;
    assert_eq!(rt; table.len(), 3);
    let places = [
        table.place(3),
        table.place(200),
        table.place(1),
        table.place(2),
        table.place(0),
    ];
    assert_eq!(rt; places, [Some(0), Some(1), Some(2), None, None]);
    let base = table.get(200).ok_or("not declared")?;
    assert_eq!(rt;
        (base.code, base.tag, base.has_children),
        (200, DW_TAG_base_type, true)
    );
    let specs = [
        AttributeSpec {
            attribute: DW_AT_name,
            form: Form::Text,
        },
        AttributeSpec {
            attribute: DW_AT_byte_size,
            form: Form::ImplicitConst(-1),
        },
    ];
    assert!(rt; base.attributes.as_slice() == &specs[..]);
    assert!(rt; base.tag.is_type() && specs[1].form.allowed(5) && !specs[1].form.allowed(4));
    let variable = table.get(3).ok_or("not declared")?;
    assert!(rt;
        !variable.has_children && !variable.tag.is_type() && variable.attributes.is_empty()
    );
    Ok(())
}

// In a file no table starts at the end of .debug_abbrev.
#[test]
fn no_bytes(rt: HostRuntime) {
    let cut = AbbrevFault {
        rule: Rule::AbbrevCut,
        at: 0,
        attribute: 0,
    };
    match read_table(rt.alloc(), &[], 0) {
        Err(Stop::Fault(broken)) => assert_eq!(rt; broken, cut),
        _ => assert!(rt; false),
    }
}
