//! What a value means, and its row.

ghost use Rattle.std.specs.Prelude.{◌≡◌};
ghost use Rattle.dwv_c.specs.Meanings.{named_after, text_span};
ghost use Rattle.dwv_c.specs.ValueRows.{HasMeaning, fields_of, of_number};

use crate::places::Span;
use dw_forms::Attribute;
use dw_forms::constants::DW_AT_name;

/// What a value means: no form, no index and no offset is left in it, but those that no rule is on.
#[derive(Clone, Copy, Debug)]
pub enum Meaning {
    /// A number without a sign.
    Unsigned(u64),
    /// A number with a sign.
    Signed(i64),
    Flag(bool),
    /// An address.
    Address(u64),
    /// A text without its zero byte, which follows it.
    Text(Span),
    /// Bytes whose meaning the attribute says.
    Block(Span),
    /// The bytes of an expression.
    Expression(Span),
    /// A number of 16 bytes, lowest first.
    Wide(Span),
    /// The number of the entry that a reference reaches.
    Reference(u32),
    /// An offset into a section that the attribute implies. No rule is on what is there.
    SectionOffset(u32),
    /// The index of a location list, and of a range list. No rule is on them.
    LocationList(u64),
    RangeList(u64),
}

/// A value of an entry of a sound file.
#[repr(C)]
#[derive(Clone, Copy, Debug)]
pub struct ValueRow {
    /// By its kind: the number, 0 or 1, the address, where the bytes start, the row of the target, the offset or the
    /// index.
    pub number: u64,
    /// How many bytes there are, for a kind that has bytes, else 0.
    pub length: u32,
    /// Which section they are in, else 0.
    pub section: u32,
    /// The row of its entry.
    pub entry: u32,
    /// The attribute.
    pub attribute: u32,
    /// Which of the meanings it has.
    pub kind: u32,
    /// 0.
    pub zero: u32,
}

/// The bytes of a row that has a number and no bytes.
fn of_number(number: u64) -> Span
    ensures { result ≡ of_number number }
{
    Span {
        section: 0,
        start: number,
        length: 0,
    }
}

/// The kind of a row that has this meaning, and its bytes or its number.
fn fields_of(meaning: Meaning) -> (u32, Span)
    ensures { result ≡ fields_of meaning }
{
    match meaning {
        Meaning::Unsigned(number) => (1, of_number(number)),
        Meaning::Signed(number) => (2, of_number(number.cast_unsigned())),
        Meaning::Flag(flag) => (3, of_number(u64::from(flag))),
        Meaning::Address(address) => (4, of_number(address)),
        Meaning::Text(span) => (5, span),
        Meaning::Block(span) => (6, span),
        Meaning::Expression(span) => (7, span),
        Meaning::Wide(span) => (8, span),
        Meaning::Reference(row) => (9, of_number(u64::from(row))),
        Meaning::SectionOffset(offset) => (10, of_number(u64::from(offset))),
        Meaning::LocationList(index) => (11, of_number(index)),
        Meaning::RangeList(index) => (12, of_number(index)),
    }
}

/// The row of a meaning.
pub fn value_row(entry: u32, attribute: Attribute, meaning: Meaning) -> ValueRow
    ensures entry { result.entry ≡ entry }
    ensures attribute { result.attribute ≡ attribute }
    ensures meaning { HasMeaning meaning result }
    ensures zero { result.zero ≡ 0 }
{
    let (kind, span) = fields_of(meaning);
    ValueRow {
        number: span.start,
        length: span.length,
        section: span.section,
        entry,
        attribute: u32::from(attribute.0),
        kind,
        zero: 0,
    }
}

/// The bytes of a meaning that is a text.
fn text_span(meaning: Meaning) -> Option<Span>
    ensures { result ≡ text_span meaning }
{
    match meaning {
        Meaning::Text(span) => Some(span),
        _ => None,
    }
}

/// What is known of an entry's name after one more of its attributes, with what it means: where the name is, or that it
/// is no text.
pub fn named_after(
    named: Option<Option<Span>>,
    attribute: Attribute,
    meaning: Meaning,
) -> Option<Option<Span>>
    ensures { result ≡ named_after named attribute meaning }
{
    if named.is_none() && attribute.0 == DW_AT_name.0 {
        Some(text_span(meaning))
    } else {
        named
    }
}
