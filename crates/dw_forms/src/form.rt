//! Forms, which say how the values of attributes are laid out (DWARF 5, 7.5.5 and 7.5.6).
//! All but the comments and `may_be_named` is made by docs/make-rules.py from docs/codes.tsv.

ghost use Rattle.std.specs.Prelude.{◌≡◌, ◌≤◌, IfSome};
ghost use Rattle.dw_forms.specs.FormCodes.{form_of, is_allowed, may_lead_out, may_refer};
ghost use Rattle.dw_forms.specs.ValueFormats.{may_be_named};
ghost use Rattle.dw_forms.specs.Sizes.{fixed_size_of};

/// The form of a value (DWARF 5, 7.5.6, Table 7.6). Offsets have 4 bytes, since all is 32-bit DWARF. The forms for
/// supplementary files, 0x1c, 0x1d and 0x24, are left out: This project's choice.
#[derive(Clone, Copy, Debug, PartialEq, Eq)]
pub enum Form {
    /// 0x01 addr: an address, of the unit's address size.
    Addr,
    /// 0x03 block2: a length of 2 bytes, then as many bytes.
    Block2,
    /// 0x04 block4: a length of 4 bytes, then as many bytes.
    Block4,
    /// 0x05 data2: a constant of 2 bytes.
    Data2,
    /// 0x06 data4: a constant of 4 bytes.
    Data4,
    /// 0x07 data8: a constant of 8 bytes.
    Data8,
    /// 0x08 string: bytes up to and with a zero byte.
    Text,
    /// 0x09 block: a ULEB128 length, then as many bytes.
    Block,
    /// 0x0a block1: a length of 1 byte, then as many bytes.
    Block1,
    /// 0x0b data1: a constant of 1 byte.
    Data1,
    /// 0x0c flag: 1 byte, true where it isn't zero.
    Flag,
    /// 0x0d sdata: a constant as SLEB128.
    Sdata,
    /// 0x0e strp: an offset of 4 bytes into .debug_str.
    Strp,
    /// 0x0f udata: a constant as ULEB128.
    Udata,
    /// 0x10 ref_addr: an offset of 4 bytes into .debug_info.
    RefAddr,
    /// 0x11 ref1: an offset of 1 byte from the unit's header.
    Ref1,
    /// 0x12 ref2: an offset of 2 bytes from the unit's header.
    Ref2,
    /// 0x13 ref4: an offset of 4 bytes from the unit's header.
    Ref4,
    /// 0x14 ref8: an offset of 8 bytes from the unit's header.
    Ref8,
    /// 0x15 ref_udata: an offset from the unit's header, as ULEB128.
    RefUdata,
    /// 0x16 indirect: the ULEB128 code of another form, then a value of that form.
    Indirect,
    /// 0x17 sec_offset: an offset of 4 bytes into a section that the attribute implies.
    SecOffset,
    /// 0x18 exprloc: a ULEB128 length, then as many bytes of an expression.
    Exprloc,
    /// 0x19 flag_present: no bytes, always true.
    FlagPresent,
    /// 0x1a strx: an index of a string offset, as ULEB128.
    Strx,
    /// 0x1b addrx: an index of an address, as ULEB128.
    Addrx,
    /// 0x1e data16: a constant of 16 bytes.
    Data16,
    /// 0x1f line_strp: an offset of 4 bytes into .debug_line_str.
    LineStrp,
    /// 0x20 ref_sig8: the signature of a type unit, 8 bytes.
    RefSig8,
    /// 0x21 implicit_const: no bytes in an entry. The number is in the abbreviation table, as SLEB128.
    ImplicitConst(i64),
    /// 0x22 loclistx: an index of a location list, as ULEB128.
    Loclistx,
    /// 0x23 rnglistx: an index of a range list, as ULEB128.
    Rnglistx,
    /// 0x25 strx1: an index of a string offset, 1 byte.
    Strx1,
    /// 0x26 strx2: an index of a string offset, 2 bytes.
    Strx2,
    /// 0x27 strx3: an index of a string offset, 3 bytes.
    Strx3,
    /// 0x28 strx4: an index of a string offset, 4 bytes.
    Strx4,
    /// 0x29 addrx1: an index of an address, 1 byte.
    Addrx1,
    /// 0x2a addrx2: an index of an address, 2 bytes.
    Addrx2,
    /// 0x2b addrx3: an index of an address, 3 bytes.
    Addrx3,
    /// 0x2c addrx4: an index of an address, 4 bytes.
    Addrx4,
}

impl Form {
    /// The form with this code. An implicit_const has the number 0 until the table's number is read.
    #[tactic(auto, unfolding(crate::specs::FormCodes::form_of))]
    pub fn from_code(code: u64) -> Option<Form>
        ensures { result ≡ form_of code }
    {
        let form = match code {
            0x01 => Form::Addr,
            0x03 => Form::Block2,
            0x04 => Form::Block4,
            0x05 => Form::Data2,
            0x06 => Form::Data4,
            0x07 => Form::Data8,
            0x08 => Form::Text,
            0x09 => Form::Block,
            0x0a => Form::Block1,
            0x0b => Form::Data1,
            0x0c => Form::Flag,
            0x0d => Form::Sdata,
            0x0e => Form::Strp,
            0x0f => Form::Udata,
            0x10 => Form::RefAddr,
            0x11 => Form::Ref1,
            0x12 => Form::Ref2,
            0x13 => Form::Ref4,
            0x14 => Form::Ref8,
            0x15 => Form::RefUdata,
            0x16 => Form::Indirect,
            0x17 => Form::SecOffset,
            0x18 => Form::Exprloc,
            0x19 => Form::FlagPresent,
            0x1a => Form::Strx,
            0x1b => Form::Addrx,
            0x1e => Form::Data16,
            0x1f => Form::LineStrp,
            0x20 => Form::RefSig8,
            0x21 => Form::ImplicitConst(0),
            0x22 => Form::Loclistx,
            0x23 => Form::Rnglistx,
            0x25 => Form::Strx1,
            0x26 => Form::Strx2,
            0x27 => Form::Strx3,
            0x28 => Form::Strx4,
            0x29 => Form::Addrx1,
            0x2a => Form::Addrx2,
            0x2b => Form::Addrx3,
            0x2c => Form::Addrx4,
            _ => return None,
        };
        Some(form)
    }

    /// Whether a value in a unit of this version may have the form: in version 4 those of the codes 0x01, 0x03 to
    /// 0x19 and 0x20, in version 5 all.
    pub fn allowed(self, version: u16) -> bool
        ensures { result ≡ is_allowed version self }
    {
        match version {
            4 => matches!(
                self,
                Form::Addr
                    | Form::Block2
                    | Form::Block4
                    | Form::Data2
                    | Form::Data4
                    | Form::Data8
                    | Form::Text
                    | Form::Block
                    | Form::Block1
                    | Form::Data1
                    | Form::Flag
                    | Form::Sdata
                    | Form::Strp
                    | Form::Udata
                    | Form::RefAddr
                    | Form::Ref1
                    | Form::Ref2
                    | Form::Ref4
                    | Form::Ref8
                    | Form::RefUdata
                    | Form::Indirect
                    | Form::SecOffset
                    | Form::Exprloc
                    | Form::FlagPresent
                    | Form::RefSig8
            ),
            5 => true,
            _ => false,
        }
    }

    /// Whether an indirect value in a unit of this version may name the form: any that is allowed there, but
    /// neither indirect nor implicit_const.
    pub fn may_be_named(self, version: u16) -> bool
        ensures { result ≡ may_be_named version self }
    {
        match self {
            Form::Indirect | Form::ImplicitConst(_) => false,
            _ => self.allowed(version),
        }
    }

    /// Whether values of the form may be references: those of class reference, and those that name another form
    /// (7.5.5).
    pub fn may_refer(self) -> bool
        ensures { result ≡ may_refer self }
    {
        matches!(
            self,
            Form::RefAddr
                | Form::Ref1
                | Form::Ref2
                | Form::Ref4
                | Form::Ref8
                | Form::RefUdata
                | Form::RefSig8
                | Form::Indirect
        )
    }

    /// Whether values of the form may lead out of .debug_info: offsets or indices of strings, indices of addresses,
    /// and those that name another form (7.5.5).
    pub fn may_lead_out(self) -> bool
        ensures { result ≡ may_lead_out self }
    {
        matches!(
            self,
            Form::Strp
                | Form::LineStrp
                | Form::Strx
                | Form::Strx1
                | Form::Strx2
                | Form::Strx3
                | Form::Strx4
                | Form::Addrx
                | Form::Addrx1
                | Form::Addrx2
                | Form::Addrx3
                | Form::Addrx4
                | Form::Indirect
        )
    }

    /// How many bytes each value of the form has, where all have as many.
    #[inline(always)]
    pub fn fixed_size(self, address_size: u8) -> Option<usize>
        ensures exact { result ≡ fixed_size_of address_size self }
        ensures small { IfSome result (λ size. size ≤ 0xff) }
    {
        match self {
            Form::Addr => Some(usize::from(address_size)),
            Form::FlagPresent | Form::ImplicitConst(_) => Some(0),
            Form::Data1 | Form::Flag | Form::Ref1 | Form::Strx1 | Form::Addrx1 => Some(1),
            Form::Data2 | Form::Ref2 | Form::Strx2 | Form::Addrx2 => Some(2),
            Form::Strx3 | Form::Addrx3 => Some(3),
            Form::Data4
            | Form::Strp
            | Form::RefAddr
            | Form::Ref4
            | Form::SecOffset
            | Form::LineStrp
            | Form::Strx4
            | Form::Addrx4 => Some(4),
            Form::Data8 | Form::Ref8 | Form::RefSig8 => Some(8),
            Form::Data16 => Some(16),
            _ => None,
        }
    }
}
