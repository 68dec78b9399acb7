//! The values of attributes (DWARF 5, 7.5.5).

ghost use Rattle.std.specs.Prelude.{◌≡◌};

use crate::leb::NumberFault;

/// The value of an attribute, by what its form says it is (DWARF 5, 7.5.5). A slice lies in the bytes that were
/// read. A value of form indirect is one of the form that it names.
#[derive(Clone, Copy, Debug, PartialEq, Eq)]
pub enum Value<'a> {
    /// An address (addr).
    Addr(u64),
    /// Some bytes (block, block1, block2, block4), without their length.
    Block(&'a [u8]),
    /// A constant (data1, data2, data4, data8, udata).
    Unsigned(u64),
    /// A constant (sdata, implicit_const).
    Signed(i64),
    /// A constant of 16 bytes (data16).
    Wide(&'a [u8]),
    /// A string (string), without its zero byte.
    Text(&'a [u8]),
    /// A flag (flag, flag_present).
    Flag(bool),
    /// A string by its offset into .debug_str (strp).
    Str(u32),
    /// A string by its offset into .debug_line_str (line_strp).
    LineStr(u32),
    /// A string by its index in the unit's string offsets (strx, strx1 to strx4).
    StrIndex(u64),
    /// A reference, counted from the start of .debug_info (ref_addr).
    RefInfo(u32),
    /// A reference, counted from the first byte of the unit's header (ref1, ref2, ref4, ref8, ref_udata).
    RefUnit(u64),
    /// A reference by the signature of a type unit (ref_sig8).
    RefSig(u64),
    /// An offset into a section that the attribute implies (sec_offset).
    SecOffset(u32),
    /// The bytes of an expression (exprloc), without their length.
    Expr(&'a [u8]),
    /// An address by its index in the unit's addresses (addrx, addrx1 to addrx4).
    AddrIndex(u64),
    /// A location list by its index (loclistx).
    LocIndex(u64),
    /// A range list by its index (rnglistx).
    RngIndex(u64),
}

/// Why there is no value at the front.
#[derive(Clone, Copy, Debug, PartialEq, Eq)]
pub enum ValueFault {
    /// The bytes end inside the value.
    Cut,
    /// A number in the value has more than 10 bytes or more than 64 bits.
    BadNumber,
    /// An indirect value names no form that it may name in this version.
    BadIndirect,
}

impl From<NumberFault> for ValueFault {
    ghost use Rattle.dw_forms.specs.Faults.{value_fault_of};

    ghost from_gives = { λ f e. e ≡ value_fault_of f };

    fn from(fault: NumberFault) -> ValueFault {
        match fault {
            NumberFault::Cut => ValueFault::Cut,
            NumberFault::BadNumber => ValueFault::BadNumber,
        }
    }
}
