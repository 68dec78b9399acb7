//! What is declared is read from: an image, and its strings.

ghost use Rattle.std.specs.Prelude.{◌≡◌, ◌<◌, ◌≤◌, ◌^◌, length, IfOk};
ghost use Rattle.dw_forms.specs.Codes.{DW_AT_bit_size};
ghost use Rattle.dw_image.specs.Contributions.{string_at};
ghost use Rattle.dw_image.specs.Images.{entries_in, sections_in};
ghost use Rattle.dw_image.specs.Slots.{IsTextPlace};
ghost use Rattle.dw_image.specs.StringSpans.{IsSpan};
ghost use Rattle.dw_image.specs.ValueTexts.{text_there};
ghost use Rattle.dw_image.specs.Constants.{constant_at, number_of_constant};
ghost use Rattle.dw_cprint.specs.LookUps.{entry_by, name_at, tag_at, type_at, flag_at, bytes_at, is_short};
ghost use Rattle.dw_cprint.specs.Shapes.{view_name};
ghost use Rattle.dw_cprint.specs.EntryShapes.{bits_of};

use crate::words::{Name, Text};
use dw_entries::constants::*;
use dw_entries::{Attribute, OptionalId, Tag, Value};
use dw_image::{EntryId, Image, StringSpan, StringValue, Strings, TextPlace};
use std::alloc::{AllocError, Global};

/// The string at an offset, by what is known of it. Its bytes are not read.
fn text_by<'a>(section: &'a [u8], offset: usize, span: StringSpan) -> Text<'a>
    requires within { offset ≤ length section.now }
    requires span { IsSpan (string_at section.now offset) span }
    ensures { result.bytes.now ≡ string_at section.now offset }
{
    let (_, bytes) = section.split_at(offset);
    let (text, _) = bytes.split_at(span.len);
    Text::new(text, span.words)
}

/// An image and the strings that its entries share, in which names are found without being read to their ends.
#[derive(Drop)]
pub struct Source<'a> {
    pub image: &'a Image<'a>,
    strings: Strings<'a>,
    ghost same: { strings.sections ≡ sections_in image.now },
}

impl<'a> Source<'a> {
    /// An image, whose two sections of strings are read once.
    pub fn read(alloc: Global, image: &'a Image<'a>) -> Result<Source<'a>, AllocError>
        ensures { IfOk result (λ it. it.image ≡ image.entry) }
    {
        let strings = Strings::read(alloc, image.sections())?;
        Ok(Source { image, strings })
    }

    /// The text at a place.
    fn text_at(&self, place: TextPlace) -> Text<'a>
        requires { IsTextPlace (sections_in self.now.image.now) place }
        ensures { result.bytes.now ≡ text_there (sections_in self.now.image.now) place }
    {
        let span = self.strings.span(place);
        let sections = self.image.sections();
        match place {
            TextPlace::Info(offset) => text_by(sections.info, offset, span),
            TextPlace::Str(offset) => text_by(sections.str, offset, span),
            TextPlace::LineStr(offset) => text_by(sections.line_str, offset, span),
        }
    }

    /// The name of an entry. One that its value has itself is read.
    #[tactic(auto, unfolding(crate::specs::LookUps::name_at))]
    pub fn name(&self, id: EntryId) -> Name<'a>
        requires { id < length (entries_in self.now.image.now) }
        ensures { view_name result ≡ name_at self.now.image.now id }
    {
        match self.image.name_string(id)? {
            StringValue::Own(bytes) => Some(Text::new(bytes, StringSpan::of(bytes).words)),
            StringValue::Shared(place) => Some(self.text_at(place)),
        }
    }
}

/// The number of a type's entry, in four bytes. A type that is absent is void.
pub type TypeAt = OptionalId;

/// The tag of an entry.
#[inline(always)]
#[tactic(auto, unfolding(crate::specs::LookUps::tag_at))]
pub fn tag_at(image: &Image<'_>, id: EntryId) -> Tag
    requires { id < length (entries_in image.now) }
    ensures { result ≡ tag_at image.now id }
{
    image.tag(id)
}

/// The type of an entry.
#[tactic(auto, unfolding(crate::specs::LookUps::type_at, dw_image::specs::Images::type_in))]
pub fn type_at(image: &Image<'_>, id: EntryId) -> TypeAt
    requires { id < length (entries_in image.now) }
    ensures { result ≡ type_at image.now id }
{
    match image.type_of(id) {
        Some(to) => TypeAt::some(to.entry().number() as u32),
        None => TypeAt::none(),
    }
}

/// Whether a flag of an entry is there and true.
#[inline(always)]
pub fn flag_at(image: &Image<'_>, id: EntryId, attribute: Attribute) -> bool
    requires { id < length (entries_in image.now) }
    ensures { result ≡ flag_at image.now id attribute }
{
    matches!(image.value(id, attribute), Some(Value::Flag(true)))
}

/// The number under an attribute of an entry. This project's choice: the form data16 gives none.
#[inline(always)]
pub fn integer_at(image: &Image<'_>, id: EntryId, attribute: Attribute) -> Option<i128>
    requires { id < length (entries_in image.now) }
    ensures { result ≡ number_of_constant (constant_at (entry_by image.now id) attribute) }
{
    match image.value(id, attribute) {
        Some(Value::Unsigned(n)) => Some(i128::from(n)),
        Some(Value::Signed(n)) => Some(i128::from(n)),
        _ => None,
    }
}

/// The size in bits of a member, if it has one. One that is no number of 1 or more gives 0.
pub fn bits_at(image: &Image<'_>, id: EntryId) -> Option<u64>
    requires { id < length (entries_in image.now) }
    ensures { result ≡ bits_of (entry_by image.now id) }
{
    match image.value(id, DW_AT_bit_size) {
        None => None,
        Some(Value::Unsigned(n)) => Some(n),
        Some(Value::Signed(n)) if n > 0 => Some(n as u64),
        Some(_) => Some(0),
    }
}

/// How many bytes there are from an entry to the next one.
#[tactic(auto, unfolding(crate::specs::LookUps::bytes_at))]
fn bytes_at(image: &Image<'_>, id: EntryId) -> usize
    requires { id < length (entries_in image.now) }
    ensures exact { result ≡ bytes_at image.now id }
    ensures few { result < 2 ^ 32 }
{
    let end = match image.nth(id.number() + 1) {
        Some(next) => image.offset(next) as usize,
        None => image.sections().info.len(),
    };
    end.saturating_sub(image.offset(id) as usize)
}

/// Whether a text of so many bytes is short compared with the children of an entry, from which it is made: it has less
/// than a quarter of their bytes. A short text is kept. All of them together have less than a quarter of the bytes of
/// the file. To make any other text again takes time in proportion to its own bytes.
pub fn is_short(image: &Image<'_>, id: EntryId, text_bytes: u32) -> bool
    requires { id < length (entries_in image.now) }
    ensures { result ≡ is_short image.now id text_bytes }
{
    let most = 4 * (text_bytes as usize + 16);
    let mut bytes = 0;
    for child in image.children(id) {
        bytes += bytes_at(image, child);
        if bytes > most {
            return true;
        }
    }
    false
}
