//! The bytes of attribute values (DWARF 5, 7.5.5 and 7.5.6).

use crate::leb::{Failure, after_signed, unsigned};
use crate::rest::Rest;

/// DW_FORM_indirect: the value names its form itself.
const INDIRECT: u64 = 0x16;

/// DW_FORM_implicit_const: the value is in the table.
pub(crate) const IMPLICIT_CONST: u64 = 0x21;

/// Whether the code is a form's (DWARF 5, Table 7.6).
pub(crate) fn is_form(code: u64) -> bool {
    matches!(code, 0x01 | 0x03..=0x1b | 0x1e..=0x23 | 0x25..=0x2c)
}

/// Whether a unit of this version may have the form.
pub(crate) fn is_allowed(form: u64, version: u64) -> bool {
    if version == 4 {
        matches!(form, 0x01 | 0x03..=0x19 | 0x20)
    } else {
        is_form(form)
    }
}

/// The rest after as many bytes.
fn after_bytes<'a>(count: u64, rest: Rest<'a>) -> Result<Rest<'a>, Failure> {
    match rest.split(count) {
        Some((_, back)) => Ok(back),
        None => Err(Failure::Cut),
    }
}

/// The rest after a block whose length has so many bytes.
fn after_block<'a>(size: u64, rest: Rest<'a>) -> Result<Rest<'a>, Failure> {
    match rest.number(size) {
        Some((count, back)) => after_bytes(count, back),
        None => Err(Failure::Cut),
    }
}

/// The rest after the first zero byte.
fn after_text<'a>(rest: Rest<'a>) -> Result<Rest<'a>, Failure> {
    match rest.bytes.iter().position(|byte| *byte == 0) {
        Some(length) => {
            let (_, after) = rest.split(length as u64).ok_or(Failure::Cut)?;
            after_bytes(1, after)
        }
        None => Err(Failure::Cut),
    }
}

/// The rest after a value of a form that is not indirect.
fn after_direct<'a>(form: u64, address_size: u64, rest: Rest<'a>) -> Result<Rest<'a>, Failure> {
    match form {
        // addr
        0x01 => after_bytes(address_size, rest),
        // block2
        0x03 => after_block(2, rest),
        // block4
        0x04 => after_block(4, rest),
        // string
        0x08 => after_text(rest),
        // block, exprloc
        0x09 | 0x18 => {
            let (count, back) = unsigned(rest)?;
            after_bytes(count, back)
        }
        // block1
        0x0a => after_block(1, rest),
        // data1, flag, ref1, strx1, addrx1
        0x0b | 0x0c | 0x11 | 0x25 | 0x29 => after_bytes(1, rest),
        // data2, ref2, strx2, addrx2
        0x05 | 0x12 | 0x26 | 0x2a => after_bytes(2, rest),
        // strx3, addrx3
        0x27 | 0x2b => after_bytes(3, rest),
        // data4, strp, ref_addr, ref4, sec_offset, line_strp, strx4, addrx4
        0x06 | 0x0e | 0x10 | 0x13 | 0x17 | 0x1f | 0x28 | 0x2c => after_bytes(4, rest),
        // data8, ref8, ref_sig8
        0x07 | 0x14 | 0x20 => after_bytes(8, rest),
        // data16
        0x1e => after_bytes(16, rest),
        // sdata
        0x0d => after_signed(rest),
        // udata, ref_udata, strx, addrx, loclistx, rnglistx
        0x0f | 0x15 | 0x1a | 0x1b | 0x22 | 0x23 => {
            let (_, back) = unsigned(rest)?;
            Ok(back)
        }
        // flag_present, implicit_const
        _ => Ok(rest),
    }
}

/// The rest after a value of this form, in a unit of this version and address size.
pub(crate) fn after_value<'a>(
    form: u64,
    version: u64,
    address_size: u64,
    rest: Rest<'a>,
) -> Result<Rest<'a>, Failure> {
    if form != INDIRECT {
        return after_direct(form, address_size, rest);
    }
    let (named, back) = unsigned(rest)?;
    if named == INDIRECT || named == IMPLICIT_CONST || !is_allowed(named, version) {
        return Err(Failure::BadIndirect);
    }
    after_direct(named, address_size, back)
}
