//! What the values of entries mean, each resolved as far as the rules go.

ghost use Rattle.std.specs.Prelude.{◌≡◌, ◌<◌, ◌++◌, ◌∷◌, ℕ, [], IfOk, true};
ghost use Rattle.dw_entries.specs.OwnBytes.{EndsAt};
ghost use Rattle.dw_forms.specs.Value.{text, view};
ghost use Rattle.dw_image.specs.Images.{sections_in, unit_count};
ghost use Rattle.dw_image.specs.Slots.{BeginsString};
ghost use Rattle.dw_image.specs.ValueTexts.{text_there};
ghost use Rattle.dw_links.specs.References.{is_reference_value};
ghost use Rattle.dw_links.specs.declared.texts.TextPlace.TheVariants.{Info};
ghost use Rattle.dwv_c.specs.Meanings.{AreThere, HasValue, IsPartOfSection, MeansIn};
ghost use Rattle.dwv_c.specs.SectionPlaces.{IsSpan, IsTextSpan};

use crate::meaning::Meaning;
use crate::places::{Holders, INFO, LINE_STR, STR, Span};
use dw_forms::Value;
use dw_image::{Image, Strings, TextPlace};
use std::alloc::{AllocError, Global};

/// What the values of an image are resolved by.
#[derive(Drop)]
pub struct Resolver<'i, 'a> {
    pub image: &'i Image<'a>,
    pub holders: Holders<'a>,
    strings: Strings<'a>,
    ghost same: { strings.sections ≡ sections_in image.now },
    ghost there: { AreThere image.now holders },
}

impl<'i, 'a> Resolver<'i, 'a> {
    /// What the values of an image are resolved by, with places that are counted from these.
    pub fn read(
        alloc: Global,
        holders: Holders<'a>,
        image: &'i Image<'a>,
    ) -> Result<Resolver<'i, 'a>, AllocError>
        requires { AreThere image.now holders }
        ensures image { IfOk result (λ it. it.image ≡ image.entry) }
        ensures holders { IfOk result (λ it. it.holders ≡ holders.entry) }
    {
        let strings = Strings::read(alloc, image.sections())?;
        Ok(Resolver {
            image,
            holders,
            strings,
        })
    }

    /// Bytes at an offset of .debug_info.
    fn span(&self, offset: usize, bytes: &[u8]) -> Span
        requires { IsPartOfSection (sections_in self.now.image.now).info.now offset bytes.now }
        ensures { IsSpan self.now.holders (Info offset) bytes.now result }
    {
        let _longest = self.holders.info.bytes.len();
        Span {
            section: INFO,
            start: (self.holders.info.start + offset) as u64,
            length: bytes.len() as u32,
        }
    }

    /// The text at an offset of .debug_info.
    fn text_in_info(&self, offset: usize, text: &[u8]) -> Span
        requires { IsPartOfSection (sections_in self.now.image.now).info.now offset (text.now ++ 0 ∷ []) }
        ensures { IsTextSpan self.now.holders text.now (Info offset) result }
    {
        let _longest = self.holders.info.bytes.len();
        Span {
            section: INFO,
            start: (self.holders.info.start + offset) as u64,
            length: text.len() as u32,
        }
    }

    /// The text at a place.
    fn text_at(&self, place: TextPlace) -> Span
        requires { BeginsString (sections_in self.now.image.now) place }
        ensures { IsTextSpan self.now.holders
            (text_there (sections_in self.now.image.now) place) place result }
    {
        let _longest = (
            self.holders.info.bytes.len(),
            self.holders.str.bytes.len(),
            self.holders.line_str.bytes.len(),
        );
        let length = self.strings.span(place).len as u32;
        let (section, start) = match place {
            TextPlace::Info(offset) => (INFO, self.holders.info.start + offset),
            TextPlace::Str(offset) => (STR, self.holders.str.start + offset),
            TextPlace::LineStr(offset) => (LINE_STR, self.holders.line_str.start + offset),
        };
        Span {
            section,
            start: start as u64,
            length,
        }
    }

    /// What a reference means.
    #[tactic(auto, unfolding(dw_image::specs::Images::units_in))]
    fn reference(&self, unit: usize, value: &Value<'a>) -> Meaning
        requires unit { unit < unit_count self.now.image.now }
        requires value { HasValue self.now.image.now unit (view value.now) }
        requires reference { is_reference_value (view value.now) ≡ true }
        ensures { (end : ℕ) → MeansIn self.now.holders self.now.image.now unit end
            (view value.now) result }
    {
        match self.image.links().reach(self.image.scanned(), unit, value) {
            Some(target) => Meaning::Reference(target.number() as u32),
            None => unreachable!(),
        }
    }

    /// What a text means that is in its value, whose bytes end at this offset of .debug_info.
    fn text(&self, unit: usize, bytes: &[u8], end: usize) -> Meaning
        requires unit { unit < unit_count self.now.image.now }
        requires place { EndsAt (sections_in self.now.image.now).info.now (text bytes.now) end }
        ensures { MeansIn self.now.holders self.now.image.now unit end (text bytes.now) result }
    {
        let offset = end - (bytes.len() + 1);
        Meaning::Text(self.text_in_info(offset, bytes))
    }

    /// What a value means. Its bytes, if it has some itself, end at this offset of .debug_info.
    #[tactic(auto, unfolding(dw_image::specs::Images::units_in, dw_image::specs::Images::sections_in))]
    pub fn meaning(&self, unit: usize, value: &Value<'a>, end: usize) -> Meaning
        requires unit { unit < unit_count self.now.image.now }
        requires value { HasValue self.now.image.now unit (view value.now) }
        requires place { EndsAt (sections_in self.now.image.now).info.now (view value.now) end }
        ensures { MeansIn self.now.holders self.now.image.now unit end (view value.now) result }
    {
        match *value {
            Value::Text(bytes) => self.text(unit, bytes, end),
            Value::Str(offset) => Meaning::Text(self.text_at(TextPlace::Str(offset as usize))),
            Value::LineStr(offset) => Meaning::Text(self.text_at(TextPlace::LineStr(
                offset as usize,
            ))),
            Value::StrIndex(index) => {
                let entries = self.image.scanned();
                Meaning::Text(self.text_at(self.image.links().place_of_index(entries, unit, index)))
            }
            Value::Block(bytes) => Meaning::Block(self.span(end - bytes.len(), bytes)),
            Value::Expr(bytes) => Meaning::Expression(self.span(end - bytes.len(), bytes)),
            Value::Wide(bytes) => Meaning::Wide(self.span(end - bytes.len(), bytes)),
            Value::Addr(address) => Meaning::Address(address),
            Value::AddrIndex(index) => {
                let entries = self.image.scanned();
                Meaning::Address(self.image.links().address_of_index(entries, unit, index))
            }
            Value::RefInfo(_) | Value::RefUnit(_) | Value::RefSig(_) => self.reference(unit, value),
            Value::Unsigned(number) => Meaning::Unsigned(number),
            Value::Signed(number) => Meaning::Signed(number),
            Value::Flag(flag) => Meaning::Flag(flag),
            Value::SecOffset(offset) => Meaning::SectionOffset(offset),
            Value::LocIndex(index) => Meaning::LocationList(index),
            Value::RngIndex(index) => Meaning::RangeList(index),
        }
    }
}
