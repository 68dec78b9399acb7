//! The dimensions of an array. What one pass over them finds is kept, and their text if it is short compared with the
//! entries that it is made from. Otherwise their counts are read from the image each time that they are written.

ghost use Rattle.std.specs.Prelude.{◌≡◌, ◌<◌, ◌&&◌, ◌||◌, List, [], Option, ℕ, length, flat_map, sum_by, OnOk};
ghost use Rattle.std.specs.Prelude.{IfOk, IfSome, nat_lt, is_none, is_some, not};
ghost use Rattle.std.specs.List.{cons_option};
ghost use Rattle.dw_image.specs.Images.{entries_in};
ghost use Rattle.dw_cprint.specs.Counted.{AreDimensions, DimensionsSoFar};
ghost use Rattle.dw_cprint.specs.Declarations.{is_miscounted};
ghost use Rattle.dw_cprint.specs.EntryShapes.{dimension_counts, dimension_at};
ghost use Rattle.dw_cprint.specs.Kept.{Writes};
ghost use Rattle.dw_cprint.specs.Lengths.{capped, count_bytes};
ghost use Rattle.dw_cprint.specs.LookUps.{is_short};
ghost use Rattle.dw_cprint.specs.Writing.{count_tokens};
ghost use Rattle.dw_cprint.specs.Wrong.{starts_open};

use crate::digits::put_decimal;
use crate::source::{is_short, tag_at};
use crate::text::{LIMIT, digit_count, plus, put};
use dw_entries::constants::*;
use dw_image::{EntryId, Image};
use std::alloc::{AllocError, Global};
use std::marker::Model;

/// The count of a child that is a dimension.
#[tactic(auto, unfolding(crate::specs::LookUps::tag_at))]
fn dimension_at(image: &Image<'_>, id: EntryId) -> Option<Option<u128>>
    requires { id < length (entries_in image.now) }
    ensures { result ≡ dimension_at image.now id }
{
    (tag_at(image, id) == DW_TAG_subrange_type).then_some(image.count_of(id))
}

/// The bytes of the brackets of a dimension.
fn count_length(count: Option<u128>) -> usize
    ensures { result ≡ capped (count_bytes count) }
{
    match count {
        None => 2,
        Some(n) => plus(2, digit_count(n)),
    }
}

/// The brackets of a dimension.
fn put_count(out: &mut Vec<u8>, count: Option<u128>) -> Result<(), AllocError>
    ensures { OnOk result (Writes (count_tokens count) out.old.items out.new.items) }
{
    match count {
        None => put(out, b"[]"),
        Some(n) => {
            put(out, b"[")?;
            put_decimal(out, n)?;
            put(out, b"]")
        }
    }
}

/// The brackets of a child that is a dimension.
fn put_next(out: &mut Vec<u8>, next: Option<Option<u128>>) -> Result<(), AllocError>
    ensures { OnOk result (Writes (flat_map count_tokens (cons_option next [])) out.old.items out.new.items) }
{
    match next {
        None => Ok(()),
        Some(count) => put_count(out, count),
    }
}

/// What a pass over dimensions finds.
#[derive(Clone, Copy, Debug)]
pub struct DimensionTally {
    /// Whether there is one.
    some: bool,
    /// Whether the first count is unknown.
    first_unknown: bool,
    /// Whether there is none, or a count after the first is unknown.
    wrong: bool,
    /// The bytes of their brackets.
    length: u32,
}

impl DimensionTally {
    /// What is found of none.
    #[tactic(auto, using(crate::proofs::CountLemmas::dimensions_start))]
    fn new() -> DimensionTally
        ensures { (all : List (Option ℕ)) → DimensionsSoFar all result all }
    {
        DimensionTally {
            some: false,
            first_unknown: false,
            wrong: true,
            length: 0,
        }
    }

    /// What is found with the next dimension, if a child is one.
    #[tactic(auto, using(crate::proofs::CountLemmas::dimensions_more))]
    fn with(self, next: Option<Option<u128>>) -> DimensionTally
        ensures { (all left : List (Option ℕ)) → DimensionsSoFar all self (cons_option next left)
            → DimensionsSoFar all result left }
    {
        let Some(count) = next else {
            return self;
        };
        DimensionTally {
            some: true,
            first_unknown: if self.some {
                self.first_unknown
            } else {
                count.is_none()
            },
            wrong: self.some && (self.wrong || count.is_none()),
            length: plus(self.length as usize, count_length(count)) as u32,
        }
    }
}

/// What a pass over the dimensions of an array finds.
fn tally_of(image: &Image<'_>, id: EntryId) -> DimensionTally
    requires { id < length (entries_in image.now) }
    ensures { AreDimensions (dimension_counts image.now id) result }
{
    let mut tally = DimensionTally::new();
    for child in image.children(id) {
        tally = tally.with(dimension_at(image, child));
    }
    tally
}

/// Writes the brackets of the dimensions of an array.
fn put_all(out: &mut Vec<u8>, image: &Image<'_>, id: EntryId) -> Result<(), AllocError>
    requires { id < length (entries_in image.now) }
    ensures { OnOk result (Writes (flat_map count_tokens (dimension_counts image.now id)) out.old.items out.new.items) }
{
    for child in image.children(id) {
        put_next(out, dimension_at(image, child))?;
    }
    Ok(())
}

/// The brackets of the dimensions of an array, if they are short. Those that are never printed have no text.
fn short_text(
    alloc: Global,
    image: &Image<'_>,
    id: EntryId,
    tally: DimensionTally,
) -> Result<Option<Box<Vec<u8>>>, AllocError>
    requires { id < length (entries_in image.now) }
    ensures short { IfOk result (λ text. is_some text
        ≡ (not (tally.wrong || nat_lt 65536 tally.length) && is_short image.now id tally.length)) }
    ensures text { IfOk result (λ text.
        IfSome text (λ text. Writes (flat_map count_tokens (dimension_counts image.now id)) [] text.value.items)) }
{
    let fits = tally.length as usize <= LIMIT;
    if tally.wrong || !fits || !is_short(image, id, tally.length) {
        return Ok(None);
    }
    let mut text = Vec::with_capacity(alloc, tally.length as usize)?;
    put_all(&mut text, image, id)?;
    Ok(Some(Box::new(alloc, text)?))
}

/// The counts of the dimensions of an array.
#[derive(Drop)]
pub struct Dimensions<'a> {
    image: &'a Image<'a>,
    id: EntryId,
    tally: DimensionTally,
    text: Option<Box<Vec<u8>>>,
}

impl<'a> Model for Dimensions<'a> {
    ghost use Rattle.std.specs.Prelude.{◌<◌, ℕ, List, [], Option, IfSome, flat_map, length};
    ghost use Rattle.dw_image.specs.Images.{entries_in};

    ghost Value = { List (Option ℕ) };

    ghost use Rattle.dw_cprint.specs.EntryShapes.{dimension_counts};
    ghost use Rattle.dw_cprint.specs.Counted.{AreDimensions};
    ghost use Rattle.dw_cprint.specs.Kept.{Writes};
    ghost use Rattle.dw_cprint.specs.Writing.{count_tokens};

    ghost view = { λ it. dimension_counts it.image.now it.id };

    ghost invariant = { λ it. (it.id < length (entries_in it.image.now))
        × AreDimensions (dimension_counts it.image.now it.id) it.tally
        × IfSome it.text (λ text.
        Writes (flat_map count_tokens (dimension_counts it.image.now it.id)) [] text.value.items) };
}

impl<'a> Dimensions<'a> {
    /// Reads those of an array once.
    pub fn read(
        alloc: Global,
        image: &'a Image<'a>,
        id: EntryId,
    ) -> Result<Dimensions<'a>, AllocError>
        requires { id < length (entries_in image.now) }
        ensures { IfOk result (λ it. it ≡ dimension_counts image.now id) }
    {
        let tally = tally_of(image, id);
        let text = short_text(alloc, image, id, tally)?;
        Ok(Dimensions {
            image,
            id,
            tally,
            text,
        })
    }

    /// Whether the first count is unknown.
    pub fn start_open(&self) -> bool
        ensures { result ≡ starts_open self.now }
    {
        self.tally.first_unknown
    }

    /// Whether there is none, or a count after the first is unknown.
    pub fn are_miscounted(&self) -> bool
        ensures { result ≡ is_miscounted self.now }
    {
        self.tally.wrong
    }

    /// The bytes of their brackets.
    pub fn length(&self) -> usize
        ensures { result ≡ capped (sum_by count_bytes self.now) }
    {
        self.tally.length as usize
    }

    /// Writes their brackets.
    pub fn write(&self, out: &mut Vec<u8>) -> Result<(), AllocError>
        ensures { OnOk result (Writes (flat_map count_tokens self.now) out.old.items out.new.items) }
    {
        match &self.text {
            Some(text) => put(out, text),
            None => put_all(out, self.image, self.id),
        }
    }
}
