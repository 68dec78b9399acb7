//! The classes of values (DWARF 5, section 7.5.5).

ghost use Rattle.std.specs.Prelude.{◌≡◌};
ghost use Rattle.dw_forms.specs.Value.{view};
ghost use Rattle.dw_forms.specs.Classes.{class_of};

use crate::value::Value;

/// A class of values (DWARF 5, section 7.5.5). Values that refer to other sections are distinguished by their forms
/// alone.
#[derive(Clone, Copy, Debug, PartialEq, Eq)]
pub enum Class {
    Address,
    Block,
    Constant,
    /// A constant of 16 bytes. This project's choice: sizes and offsets are none.
    WideConstant,
    Exprloc,
    Flag,
    /// An index of a location list or a range list.
    ListIndex,
    Reference,
    /// An offset into a section that has no strings.
    SectionOffset,
    String,
}

/// The class of a value.
pub fn class_of_value(value: &Value<'_>) -> Class
    ensures { result ≡ class_of (view value.now) }
{
    match value {
        Value::Addr(_) | Value::AddrIndex(_) => Class::Address,
        Value::Block(_) => Class::Block,
        Value::Unsigned(_) | Value::Signed(_) => Class::Constant,
        Value::Wide(_) => Class::WideConstant,
        Value::Text(_) | Value::Str(_) | Value::LineStr(_) | Value::StrIndex(_) => Class::String,
        Value::Flag(_) => Class::Flag,
        Value::RefInfo(_) | Value::RefUnit(_) | Value::RefSig(_) => Class::Reference,
        Value::SecOffset(_) => Class::SectionOffset,
        Value::Expr(_) => Class::Exprloc,
        Value::LocIndex(_) | Value::RngIndex(_) => Class::ListIndex,
    }
}
