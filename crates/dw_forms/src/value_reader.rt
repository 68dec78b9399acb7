//! Reading the values of attributes (DWARF 5, 7.5.6).

ghost use Rattle.std.specs.Prelude.{◌≡◌, ◌≤◌, ◌⊎◌, length, drop, IfOk, IfErr, OnErr, IsTrue};
ghost use Rattle.dw_forms.specs.declared.form.Form.TheVariants.{Indirect};
ghost use Rattle.dw_forms.specs.Front.{BeginsWith, BeginsWithNone};
ghost use Rattle.dw_forms.specs.Value.{view};
ghost use Rattle.dw_forms.specs.FormTable.{layout_of};
ghost use Rattle.dw_forms.specs.ValueFormats.{Val, ValFails};
ghost use Rattle.dw_forms.specs.FormCodes.{form_of, is_allowed};
ghost use Rattle.dw_forms.specs.Sizes.{rest_at};
ghost use Rattle.dw_forms.specs.ValueReading.{Gives, GivesIn, named_at, value_at};

use crate::form::Form;
use crate::layout_reader::{
    address, block, counted, counted_block, fixed, leb_block, leb_counted, leb_signed, read_offset,
    text,
};
use crate::leb::{read_sleb, read_uleb};
use crate::value::{Value, ValueFault};

/// The value of a form that names no other form, and how many bytes it has.
#[inline(never)]
#[tactic(auto, unfolding(crate::specs::ValueFormats::laid_out, crate::specs::ValueFormats::leb_number))]
fn plain(form: Form, address_size: u8, bytes: &[u8]) -> Result<(Value<'_>, usize), ValueFault>
    requires { (address_size ≡ 4) ⊎ (address_size ≡ 8) }
    ensures within { IfOk result (λ x. x.1 ≤ length bytes.now) }
    ensures exact { GivesIn (layout_of address_size form) bytes.now result }
{
    match form {
        Form::Addr => Ok((
            Value::Addr(address(bytes, address_size)?),
            usize::from(address_size),
        )),
        Form::Block2 => counted_block(bytes, 2),
        Form::Block4 => counted_block(bytes, 4),
        Form::Data2 => Ok((Value::Unsigned(fixed(bytes, 2)?), 2)),
        Form::Data4 => Ok((Value::Unsigned(fixed(bytes, 4)?), 4)),
        Form::Data8 => Ok((Value::Unsigned(fixed(bytes, 8)?), 8)),
        Form::Text => {
            let content = text(bytes)?;
            Ok((Value::Text(content), content.len() + 1))
        }
        Form::Block => leb_block(bytes),
        Form::Block1 => counted_block(bytes, 1),
        Form::Data1 => Ok((Value::Unsigned(fixed(bytes, 1)?), 1)),
        Form::Flag => Ok((Value::Flag(fixed(bytes, 1)? != 0), 1)),
        Form::Sdata => leb_signed(bytes),
        Form::Strp => Ok((Value::Str(read_offset(bytes)?), 4)),
        Form::Udata => {
            let (number, len) = read_uleb(bytes)?;
            Ok((Value::Unsigned(number), len))
        }
        Form::RefAddr => Ok((Value::RefInfo(read_offset(bytes)?), 4)),
        Form::Ref1 => Ok((Value::RefUnit(fixed(bytes, 1)?), 1)),
        Form::Ref2 => Ok((Value::RefUnit(fixed(bytes, 2)?), 2)),
        Form::Ref4 => Ok((Value::RefUnit(fixed(bytes, 4)?), 4)),
        Form::Ref8 => Ok((Value::RefUnit(fixed(bytes, 8)?), 8)),
        Form::RefUdata => {
            let (number, len) = read_uleb(bytes)?;
            Ok((Value::RefUnit(number), len))
        }
        Form::Indirect => Err(ValueFault::BadIndirect),
        Form::SecOffset => Ok((Value::SecOffset(read_offset(bytes)?), 4)),
        Form::Exprloc => {
            let (content, len) = leb_counted(bytes)?;
            Ok((Value::Expr(content), len))
        }
        Form::FlagPresent => Ok((Value::Flag(true), 0)),
        Form::Strx => {
            let (number, len) = read_uleb(bytes)?;
            Ok((Value::StrIndex(number), len))
        }
        Form::Addrx => {
            let (number, len) = read_uleb(bytes)?;
            Ok((Value::AddrIndex(number), len))
        }
        Form::Data16 => Ok((Value::Wide(block(bytes, 16)?), 16)),
        Form::LineStrp => Ok((Value::LineStr(read_offset(bytes)?), 4)),
        Form::RefSig8 => Ok((Value::RefSig(fixed(bytes, 8)?), 8)),
        Form::ImplicitConst(number) => Ok((Value::Signed(number), 0)),
        Form::Loclistx => {
            let (number, len) = read_uleb(bytes)?;
            Ok((Value::LocIndex(number), len))
        }
        Form::Rnglistx => {
            let (number, len) = read_uleb(bytes)?;
            Ok((Value::RngIndex(number), len))
        }
        Form::Strx1 => Ok((Value::StrIndex(fixed(bytes, 1)?), 1)),
        Form::Strx2 => Ok((Value::StrIndex(fixed(bytes, 2)?), 2)),
        Form::Strx3 => Ok((Value::StrIndex(fixed(bytes, 3)?), 3)),
        Form::Strx4 => Ok((Value::StrIndex(fixed(bytes, 4)?), 4)),
        Form::Addrx1 => Ok((Value::AddrIndex(fixed(bytes, 1)?), 1)),
        Form::Addrx2 => Ok((Value::AddrIndex(fixed(bytes, 2)?), 2)),
        Form::Addrx3 => Ok((Value::AddrIndex(fixed(bytes, 3)?), 3)),
        Form::Addrx4 => Ok((Value::AddrIndex(fixed(bytes, 4)?), 4)),
    }
}

/// The value of the form with this code, which an indirect value names.
fn named(
    version: u16,
    code: u64,
    address_size: u8,
    bytes: &[u8],
) -> Result<(Value<'_>, usize), ValueFault>
    requires { (address_size ≡ 4) ⊎ (address_size ≡ 8) }
    ensures within { IfOk result (λ x. x.1 ≤ length bytes.now) }
    ensures exact { Gives (λ x. (view x.0, drop x.1 bytes.now)) result
        (named_at version (form_of code) address_size bytes.now) }
{
    match Form::from_code(code) {
        Some(form) if form.may_be_named(version) => plain(form, address_size, bytes),
        _ => Err(ValueFault::BadIndirect),
    }
}

/// The code of a form, and that form's value.
#[cold]
#[inline(never)]
#[tactic(auto, unfolding(crate::specs::ValueFormats::leb_number))]
fn indirect(version: u16, address_size: u8, bytes: &[u8]) -> Result<(Value<'_>, usize), ValueFault>
    requires { (address_size ≡ 4) ⊎ (address_size ≡ 8) }
    ensures within { IfOk result (λ x. x.1 ≤ length bytes.now) }
    ensures exact { Gives (λ x. (view x.0, drop x.1 bytes.now)) result
        (value_at version Indirect address_size bytes.now) }
{
    let (code, before) = read_uleb(bytes)?;
    let (value, len) = named(version, code, address_size, &bytes[before..])?;
    Ok((value, before + len))
}

/// The value of any form, and how many bytes it has, whether the version allows its form or not. Most values that are
/// read are offsets and short indexes of strings, references within a unit, numbers of one byte and those of
/// declarations, which are read in place. What a call returns is taken apart, so that these stay in registers.
#[inline(always)]
#[tactic(auto, unfolding(crate::specs::ValueFormats::laid_out))]
pub(crate) fn read_any(
    version: u16,
    form: Form,
    address_size: u8,
    bytes: &[u8],
) -> Result<(Value<'_>, usize), ValueFault>
    requires { (address_size ≡ 4) ⊎ (address_size ≡ 8) }
    ensures within { IfOk result (λ x. x.1 ≤ length bytes.now) }
    ensures exact { Gives (λ x. (view x.0, drop x.1 bytes.now)) result (value_at version form address_size bytes.now) }
{
    match form {
        Form::Strp => match read_offset(bytes) {
            Ok(at) => Ok((Value::Str(at), 4)),
            Err(fault) => Err(fault),
        },
        Form::Ref4 => match read_offset(bytes) {
            Ok(at) => Ok((Value::RefUnit(u64::from(at)), 4)),
            Err(fault) => Err(fault),
        },
        Form::Data1 => match fixed(bytes, 1) {
            Ok(number) => Ok((Value::Unsigned(number), 1)),
            Err(fault) => Err(fault),
        },
        Form::Strx1 => match fixed(bytes, 1) {
            Ok(index) => Ok((Value::StrIndex(index), 1)),
            Err(fault) => Err(fault),
        },
        Form::Strx2 => match fixed(bytes, 2) {
            Ok(index) => Ok((Value::StrIndex(index), 2)),
            Err(fault) => Err(fault),
        },
        Form::ImplicitConst(number) => Ok((Value::Signed(number), 0)),
        Form::Indirect => match indirect(version, address_size, bytes) {
            Ok((value, len)) => Ok((value, len)),
            Err(fault) => Err(fault),
        },
        _ => match plain(form, address_size, bytes) {
            Ok((value, len)) => Ok((value, len)),
            Err(fault) => Err(fault),
        },
    }
}

/// Reads the value at the front, in a form that the unit's version allows, and how many bytes it takes. Bytes may
/// follow it.
#[inline(always)]
pub fn read_value(
    version: u16,
    form: Form,
    address_size: u8,
    bytes: &[u8],
) -> Result<(Value<'_>, usize), ValueFault>
    requires allowed { IsTrue (is_allowed version form) }
    requires size { (address_size ≡ 4) ⊎ (address_size ≡ 8) }
    // These bytes spell this value, and no others at the front spell any.
    ensures found { IfOk result (λ r. BeginsWith (Val version form address_size) bytes.now (view r.0) r.1) }
    ensures none { OnErr result (BeginsWithNone (Val version form address_size) bytes.now) }
    ensures fault { IfErr result (ValFails version form address_size bytes.now) }
    // For callers that reason by steps.
    ensures exact { Gives (λ r. (view r.0, drop r.1 bytes.now)) result (value_at version form address_size bytes.now) }
{
    read_any(version, form, address_size, bytes)
}

/// The length of a value whose form has no one size. Only an indirect one is read for it.
#[inline(never)]
#[tactic(auto, unfolding(crate::specs::Sizes::rest_at, crate::specs::ValueFormats::laid_out))]
pub(crate) fn skip_long(
    version: u16,
    form: Form,
    address_size: u8,
    bytes: &[u8],
) -> Result<usize, ValueFault>
    requires { (address_size ≡ 4) ⊎ (address_size ≡ 8) }
    ensures within { IfOk result (λ len. len ≤ length bytes.now) }
    ensures exact { Gives (λ len. drop len bytes.now) result (rest_at version form address_size bytes.now) }
{
    match form {
        Form::Udata | Form::RefUdata | Form::Strx | Form::Addrx | Form::Loclistx | Form::Rnglistx =>
            Ok(read_uleb(bytes)?.1),
        Form::Sdata => Ok(read_sleb(bytes)?.1),
        Form::Block | Form::Exprloc => Ok(leb_counted(bytes)?.1),
        Form::Block1 => Ok(1 + counted(bytes, 1)?.len()),
        Form::Block2 => Ok(2 + counted(bytes, 2)?.len()),
        Form::Block4 => Ok(4 + counted(bytes, 4)?.len()),
        Form::Text => Ok(text(bytes)?.len() + 1),
        _ => Ok(read_any(version, form, address_size, bytes)?.1),
    }
}

/// How many bytes the value at the front takes, as `read_value` says it, without making the value.
#[inline(always)]
#[tactic(auto, using(crate::proofs::SizeLaws::rest_skips))]
pub fn skip_value(
    version: u16,
    form: Form,
    address_size: u8,
    bytes: &[u8],
) -> Result<usize, ValueFault>
    requires allowed { IsTrue (is_allowed version form) }
    requires size { (address_size ≡ 4) ⊎ (address_size ≡ 8) }
    ensures within { IfOk result (λ len. len ≤ length bytes.now) }
    ensures exact { Gives (λ len. drop len bytes.now) result (rest_at version form address_size bytes.now) }
{
    match form.fixed_size(address_size) {
        Some(size) if bytes.len() < size => Err(ValueFault::Cut),
        Some(size) => Ok(size),
        None => skip_long(version, form, address_size, bytes),
    }
}
