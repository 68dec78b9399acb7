//! The numbers under attributes (DWARF 5, 2.19 and 7.5.5), and the language of a unit (3.1.1).

ghost use Rattle.std.specs.Prelude.{◌≡◌, ◌<◌, length, option_map, IfSome};
ghost use Rattle.dw_forms.specs.Value.{view};
ghost use Rattle.dw_entries.specs.ByNumber.{placed_of};
ghost use Rattle.dw_entries.specs.Views.{all_units, units_of};
ghost use Rattle.dw_links.specs.Constants.{IsOf64Bits, constant_at, constant_of, is_negative, is_present};
ghost use Rattle.dw_links.specs.Constants.{language_of, natural_of, number_of_constant};

use dw_entries::constants::*;
use dw_entries::{Attribute, Entries, EntryAt, Value};

/// What an entry has under an attribute, where values of class constant are numbers (DWARF 5, 7.5.5).
/// This project's choice: the form data16 gives no number.
#[derive(Clone, Copy, Debug, PartialEq, Eq)]
pub enum Constant {
    /// The entry doesn't have the attribute.
    Absent,
    /// A value that is no number.
    NotNumber,
    Unsigned(u64),
    Signed(i64),
}

impl Constant {
    /// Whether the entry has the attribute.
    pub fn is_present(&self) -> bool
        ensures { result ≡ is_present self.now }
    {
        !matches!(self, Constant::Absent)
    }

    /// The number, if it is one.
    pub fn number(&self) -> Option<i128>
        ensures value { result ≡ number_of_constant self.now }
        ensures range { IfSome result IsOf64Bits }
    {
        match self {
            Constant::Unsigned(n) => Some(i128::from(*n)),
            Constant::Signed(n) => Some(i128::from(*n)),
            _ => None,
        }
    }

    /// The number, if it is one of 0 or more.
    pub fn natural(&self) -> Option<u64>
        ensures { result ≡ natural_of self.now }
    {
        match self {
            Constant::Unsigned(n) => Some(*n),
            Constant::Signed(n) => if *n < 0 { None } else { Some(*n as u64) },
            _ => None,
        }
    }

    /// Whether it is a number below 0.
    pub fn is_negative(&self) -> bool
        ensures { result ≡ is_negative self.now }
    {
        matches!(self, Constant::Signed(n) if *n < 0)
    }

    /// What is under an attribute that has this value, if it is there.
    #[inline(always)]
    fn of_value(value: Option<Value<'_>>) -> Constant
        ensures { result ≡ constant_of (option_map view value.entry) }
    {
        match value {
            None => Constant::Absent,
            Some(Value::Unsigned(n)) => Constant::Unsigned(n),
            Some(Value::Signed(n)) => Constant::Signed(n),
            Some(_) => Constant::NotNumber,
        }
    }

    /// What is under an attribute of an entry.
    #[inline(always)]
    pub fn read(entry: &EntryAt<'_, '_>, attribute: Attribute) -> Constant
        ensures { result ≡ constant_at entry.now attribute }
    {
        Constant::of_value(entry.value(attribute))
    }
}

/// DW_AT_language of the first entry of a unit. It may come after many values.
pub(crate) fn language_in_unit(entries: &Entries<'_>, number: usize) -> Constant
    requires { number < length (units_of entries.now) }
    ensures { result ≡ language_of (placed_of (all_units entries.now) number) }
{
    let first = entries.unit(number).first;
    Constant::of_value(entries.value(first, DW_AT_language))
}
