//! The enumerators of an enumeration. What one pass over them finds is kept, and their text if it is short compared
//! with the entries that it is made from. Otherwise they are read from the image each time that they are written.

ghost use Rattle.std.specs.Prelude.{◌≡◌, ◌<◌, ◌&&◌, ◌||◌, List, [], ℕ, length, IfOk, OnOk};
ghost use Rattle.std.specs.Prelude.{IfSome, nat_lt, option_map, is_some, not};
ghost use Rattle.std.specs.List.{cons_option, list_any};
ghost use Rattle.dw_image.specs.Images.{entries_in};
ghost use Rattle.dw_cprint.specs.Counted.{AreEnumerators, EnumeratorsSoFar};
ghost use Rattle.dw_cprint.specs.EntryShapes.{enumerator_at, enumerators_in};
ghost use Rattle.dw_cprint.specs.Kept.{EnumeratorsLeft, WritesEnumerator, WritesEnumerators};
ghost use Rattle.dw_cprint.specs.Lengths.{capped, enumerator_bytes, enumerators_bytes};
ghost use Rattle.dw_cprint.specs.LookUps.{is_short};
ghost use Rattle.dw_cprint.specs.Shapes.{EnumeratorOf, view_enumerator};
ghost use Rattle.dw_cprint.specs.Wrong.{is_wrong_enumeration, lacks_identifier};

use crate::names::lacks_name;
use crate::source::{Source, integer_at, is_short, tag_at};
use crate::text::{LIMIT, name_length, plus, put, put_comma, put_name, put_value, value_length};
use crate::words::Name;
use dw_entries::constants::*;
use dw_image::EntryId;
use std::alloc::{AllocError, Global};
use std::marker::Model;

/// An enumerator, and its DW_AT_const_value where that is a number.
#[derive(Clone, Copy, Debug)]
pub struct Enumerator<'a> {
    pub name: Name<'a>,
    pub value: Option<i128>,
}

/// A child that is an enumerator.
fn enumerator_at<'a>(source: &Source<'a>, id: EntryId) -> Option<Enumerator<'a>>
    requires { id < length (entries_in source.now.image.now) }
    ensures { option_map view_enumerator result ≡ enumerator_at source.now.image.now id }
{
    if tag_at(source.image, id) != DW_TAG_enumerator {
        return None;
    }
    Some(Enumerator {
        name: source.name(id),
        value: integer_at(source.image, id, DW_AT_const_value),
    })
}

/// The bytes of an enumerator, ` = ` and its value, and of the comma or the brace before it and a space.
fn enumerator_length(enumerator: &Enumerator<'_>) -> usize
    ensures { result ≡ capped (enumerator_bytes (view_enumerator enumerator.now)) }
{
    plus(
        plus(name_length(enumerator.name), 5),
        value_length(enumerator.value),
    )
}

/// An enumerator and its value.
fn put_enumerator(out: &mut Vec<u8>, enumerator: &Enumerator<'_>) -> Result<(), AllocError>
    ensures { OnOk result (WritesEnumerator (view_enumerator enumerator.now) out.old.items out.new.items) }
{
    put_name(out, enumerator.name)?;
    put(out, b" = ")?;
    match enumerator.value {
        None => Ok(()),
        Some(value) => put_value(out, value),
    }
}

/// Writes the next enumerator, if a child is one, after a comma if others are before it. Whether one is written.
fn put_next(
    out: &mut Vec<u8>,
    others: bool,
    next: Option<Enumerator<'_>>,
) -> Result<bool, AllocError>
    ensures { IfOk result (λ some. (all left : List EnumeratorOf) (begin : List ℕ)
        → EnumeratorsLeft all begin others (cons_option (option_map view_enumerator next.entry) left) out.old.items
        → EnumeratorsLeft all begin some left out.new.items) }
{
    let Some(enumerator) = next else {
        return Ok(others);
    };
    put_comma(out, others)?;
    put_enumerator(out, &enumerator)?;
    Ok(true)
}

/// What a pass over enumerators finds.
#[derive(Clone, Copy, Debug)]
pub struct EnumeratorTally {
    /// Whether there is one.
    some: bool,
    /// Whether one lacks an identifier.
    nameless: bool,
    /// Whether there is none, or one has no value.
    wrong: bool,
    /// The bytes of their text, in braces.
    length: u32,
}

impl EnumeratorTally {
    /// What is found of none.
    #[tactic(auto, using(crate::proofs::CountLemmas::enumerators_start))]
    fn new() -> EnumeratorTally
        ensures { (all : List EnumeratorOf) → EnumeratorsSoFar all result all }
    {
        EnumeratorTally {
            some: false,
            nameless: false,
            wrong: true,
            length: 4,
        }
    }

    /// What is found with the next enumerator, if a child is one.
    #[tactic(auto, using(crate::proofs::CountLemmas::enumerators_more))]
    fn with(self, next: Option<Enumerator<'_>>) -> EnumeratorTally
        ensures { (all left : List EnumeratorOf)
            → EnumeratorsSoFar all self (cons_option (option_map view_enumerator next.entry) left)
            → EnumeratorsSoFar all result left }
    {
        let Some(enumerator) = next else {
            return self;
        };
        let before = if self.some { self.length } else { 2 };
        EnumeratorTally {
            some: true,
            nameless: self.nameless || lacks_name(enumerator.name),
            wrong: self.some && self.wrong || enumerator.value.is_none(),
            length: plus(before as usize, enumerator_length(&enumerator)) as u32,
        }
    }
}

/// What a pass over the enumerators of an enumeration finds.
fn tally_of(source: &Source<'_>, id: EntryId) -> EnumeratorTally
    requires { id < length (entries_in source.now.image.now) }
    ensures { AreEnumerators (enumerators_in source.now.image.now id) result }
{
    let mut tally = EnumeratorTally::new();
    for child in source.image.children(id) {
        tally = tally.with(enumerator_at(source, child));
    }
    tally
}

/// Writes the enumerators of an enumeration, in braces.
pub fn put_all(out: &mut Vec<u8>, source: &Source<'_>, id: EntryId) -> Result<(), AllocError>
    requires { id < length (entries_in source.now.image.now) }
    ensures { OnOk result (WritesEnumerators (enumerators_in source.now.image.now id) out.old.items out.new.items) }
{
    put(out, b"{ ")?;
    let mut some = false;
    for child in source.image.children(id) {
        some = put_next(out, some, enumerator_at(source, child))?;
    }
    put(out, b" }")
}

/// The text of the enumerators of an enumeration, if it is short. Those that are never printed have none.
fn short_text(
    alloc: Global,
    source: &Source<'_>,
    id: EntryId,
    tally: EnumeratorTally,
) -> Result<Option<Box<Vec<u8>>>, AllocError>
    requires { id < length (entries_in source.now.image.now) }
    ensures short { IfOk result (λ text. is_some text
        ≡ (not (tally.nameless || tally.wrong || nat_lt 65536 tally.length)
        && is_short source.now.image.now id tally.length)) }
    ensures text { IfOk result (λ text.
        IfSome text (λ text. WritesEnumerators (enumerators_in source.now.image.now id) [] text.value.items)) }
{
    let fits = tally.length as usize <= LIMIT;
    if tally.nameless || tally.wrong || !fits || !is_short(source.image, id, tally.length) {
        return Ok(None);
    }
    let mut text = Vec::with_capacity(alloc, tally.length as usize)?;
    put_all(&mut text, source, id)?;
    Ok(Some(Box::new(alloc, text)?))
}

/// The enumerators of an enumeration.
#[derive(Drop)]
pub struct Enumerators<'a> {
    source: &'a Source<'a>,
    id: EntryId,
    tally: EnumeratorTally,
    text: Option<Box<Vec<u8>>>,
}

impl<'a> Model for Enumerators<'a> {
    ghost use Rattle.std.specs.Prelude.{◌<◌, List, [], IfSome, length};
    ghost use Rattle.dw_image.specs.Images.{entries_in};
    ghost use Rattle.dw_cprint.specs.Enumerators.{EnumeratorOf};

    ghost Value = { List EnumeratorOf };

    ghost use Rattle.dw_cprint.specs.EntryShapes.{enumerators_in};
    ghost use Rattle.dw_cprint.specs.Counted.{AreEnumerators};
    ghost use Rattle.dw_cprint.specs.Kept.{WritesEnumerators};

    ghost view = { λ it. enumerators_in it.source.now.image.now it.id };

    ghost invariant = { λ it. (it.id < length (entries_in it.source.now.image.now))
        × AreEnumerators (enumerators_in it.source.now.image.now it.id) it.tally
        × IfSome it.text (λ text.
        WritesEnumerators (enumerators_in it.source.now.image.now it.id) [] text.value.items) };
}

impl<'a> Enumerators<'a> {
    /// Reads those of an enumeration once.
    pub fn read(source: &'a Source<'a>, id: EntryId) -> Enumerators<'a>
        requires { id < length (entries_in source.now.image.now) }
        ensures { result ≡ enumerators_in source.now.image.now id }
    {
        Enumerators {
            source,
            id,
            tally: tally_of(source, id),
            text: None,
        }
    }

    /// The same with their text, if it is short: they may be written many times.
    pub fn kept(self, alloc: Global) -> Result<Enumerators<'a>, AllocError>
        ensures { IfOk result (λ it. it ≡ self.entry) }
    {
        let text = short_text(alloc, self.source, self.id, self.tally)?;
        Ok(Enumerators { text, ..self })
    }

    /// Whether one lacks an identifier.
    pub fn lack_name(&self) -> bool
        ensures { result ≡ list_any lacks_identifier self.now }
    {
        self.tally.nameless
    }

    /// Whether there is none, or one has no value.
    pub fn is_wrong(&self) -> bool
        ensures { result ≡ is_wrong_enumeration self.now }
    {
        self.tally.wrong
    }

    /// The bytes of their text, in braces.
    pub fn length(&self) -> usize
        ensures { result ≡ capped (enumerators_bytes self.now) }
    {
        self.tally.length as usize
    }

    /// Writes them, in braces.
    pub fn write(&self, out: &mut Vec<u8>) -> Result<(), AllocError>
        ensures { OnOk result (WritesEnumerators self.now out.old.items out.new.items) }
    {
        match &self.text {
            Some(text) => put(out, text),
            None => put_all(out, self.source, self.id),
        }
    }
}
