//! The declaration of one entry, and the listing of all named types.

ghost use Rattle.std.specs.Prelude.{◌≡◌, ◌≢◌, ◌<◌, ◌++◌, length, map, filter, slice_get, slice_index, flat_map};
ghost use Rattle.std.specs.Prelude.{All, AllPairs, IfOk, OnOk, OnErr, Err, Some};
ghost use Rattle.std.specs.List.{filter_map, range_with_len};
ghost use Rattle.dw_image.specs.Images.{entries_in};
ghost use Rattle.dw_cprint.specs.EntryShapes.{body_in, shape_in, subject_in};
ghost use Rattle.dw_cprint.specs.Judgements.{AreKinds, AreNames, AreRefusals, IsKindOf, IsNameOf, IsPrintedNumber};
ghost use Rattle.dw_cprint.specs.Judgements.{is_printed, refused_number};
ghost use Rattle.dw_cprint.specs.Kept.{WritesBody, WritesDeclaration};
ghost use Rattle.dw_cprint.specs.Listings.{AreNamedTypes, IsListing, declared_line, listing_text};
ghost use Rattle.dw_cprint.specs.Listings.{named_steps, refused_line, refused_line_in};
ghost use Rattle.dw_cprint.specs.Refusals.{AppendsDeclaration, HasOneReading, IsPrinted, Refuses};
ghost use Rattle.dw_cprint.specs.Shapes.{view_subject};
ghost use Rattle.dw_cprint.specs.Summaries.{IsSurveyOf};
ghost use Rattle.dw_cprint.specs.declared.fault.PrintFault.{PrintFault as PrintFaultOf};
ghost use Rattle.dw_cprint.specs.declared.fault.PrintFault.TheVariants.{Memory};

use crate::digits::put_hex;
use crate::enumerators;
use crate::fault::PrintFault;
use crate::levels::numbers_in_order;
use crate::named::{Named, NamedKind, all_types, named_types};
use crate::reaching::put_declared_types;
use crate::shape::Subject;
use crate::shape_reader::{body_at, members_at, subject_of};
use crate::source::Source;
use crate::survey::Survey;
use crate::text::{put, put_front};
use crate::words::TagKeyword::OfAggregate;
use crate::words::{TagKeyword, Text};
use crate::writing::DEPTH;
use dw_image::{EntryId, Image, NoMemory};
use indexmap::IndexSet;
use std::alloc::{AllocError, Global};

/// Appends the C declaration of an entry (DWARF 5, chapter 5): a typedef, a variable, a structure, a union or an
/// enumeration. The text has at most 65,536 bytes and no line feed.
///
/// An error says why the entry is not printed, or that an allocation failed; `out` is then as it was. Each call reads
/// all strings, and makes a table with an element for each entry of the image: for all types call `declare_all`.
pub fn declare(
    alloc: Global,
    image: &Image<'_>,
    id: EntryId,
    out: &mut Vec<u8>,
) -> Result<(), PrintFault>
    requires { id < length (entries_in image.now) }
    ensures printed { OnOk result (IsPrinted (shape_in image.now) (subject_in image.now id)) }
    ensures text { OnOk result
        (AppendsDeclaration (shape_in image.now) (subject_in image.now id) out.old.items out.new.items) }
    // No other declaration has that text.
    ensures one { OnOk result (HasOneReading (shape_in image.now) (subject_in image.now id)) }
    ensures err { OnErr result (out.new.items ≡ out.old.items) }
    ensures refused { (rule : PrintFaultOf) → rule ≢ Memory → result ≡ Err rule
        → Refuses (shape_in image.now) (subject_in image.now id) rule }
{
    let source = Source::read(alloc, image)?;
    let subject = subject_of(alloc, &source, id)?;
    let mut types = Vec::new(alloc);
    put_declared_types(&mut types, &subject)?;
    let survey = Survey::new(alloc, &source, types)?;
    let mut types = Vec::new(alloc);
    if let Some(fault) = survey.refusal(&mut types, &subject)? {
        return Err(fault);
    }
    let mut text = Vec::new(alloc);
    survey.put_declaration(alloc, &mut text, &subject)?;
    out.extend_from_slice(&text)?;
    Ok(())
}

/// The named types of an image: those that are printed, those that are refused, and the text of both.
#[derive(Drop)]
pub struct Listing {
    /// Those that are printed, by rising level and then by rising offset, so each after those of them that it holds by
    /// value.
    pub order: Vec<EntryId>,
    /// A line for each in `order`, its declaration; then a comment line for each in `refused`.
    pub text: Vec<u8>,
    /// Those that are refused, in rising offset, and why.
    pub refused: Vec<(EntryId, PrintFault)>,
}

/// What is declared at a named type.
fn subject_at<'a>(
    alloc: Global,
    source: &'a Source<'a>,
    id: EntryId,
    name: Text<'a>,
    kind: &NamedKind,
) -> Result<Subject<'a>, AllocError>
    requires id { id < length (entries_in source.now.image.now) }
    requires name { IsNameOf source.now.image.now id name }
    requires kind { IsKindOf source.now.image.now id kind.now }
    ensures { IfOk result (λ subject. view_subject subject ≡ subject_in source.now.image.now id) }
{
    match kind {
        NamedKind::Typedef(at) => Ok(Subject::Typedef(Some(name), *at)),
        NamedKind::Defined(word) => Ok(Subject::Defined(
            Some(name),
            body_at(alloc, source, id, *word)?,
        )),
    }
}

/// Why each named type is refused, if it is, in rising offset. No text is written for that.
fn refusals_of<'a>(
    alloc: Global,
    source: &'a Source<'a>,
    survey: &Survey<'a>,
    named: &Named<'a>,
) -> Result<Vec<Option<PrintFault>>, AllocError>
    requires named { AreNamedTypes source.now.image.now named.now.ids.items }
    requires names { AreNames source.now.image.now named.now.ids.items named.now.names.items }
    requires kinds { AreKinds source.now.image.now named.now.ids.items named.now.kinds.items }
    requires survey { IsSurveyOf (shape_in source.now.image.now)
        (named_steps source.now.image.now named.now.ids.items) survey.now }
    ensures { IfOk result (λ refusals. AreRefusals source.now.image.now named.now.ids.items refusals.items) }
{
    let mut refusals = Vec::with_capacity(alloc, named.ids.len())?;
    let mut types = Vec::new(alloc);
    for k in 0..named.ids.len() {
        let id = named.ids[k];
        let name = named.names[k];
        let kind = &named.kinds[k];
        let subject = subject_at(alloc, source, id, name, kind)?;
        let refusal = survey.refusal(&mut types, &subject)?;
        refusals.push(refusal)?;
    }
    Ok(refusals)
}

/// Whether the named type with a number has no refusal.
#[inline]
fn is_printed(refusals: &[Option<PrintFault>], number: u32) -> bool
    ensures { result ≡ is_printed refusals.now number }
{
    matches!(refusals.get(number as usize), Some(None))
}

/// The numbers of those that are printed, in the order of their lines. They are below the count of named types: no
/// file chooses a key.
fn printed_of(
    alloc: Global,
    numbers: &[u32],
    refusals: &[Option<PrintFault>],
) -> Result<IndexSet<u32>, AllocError>
    requires { AllPairs (λ j k. j ≢ k) numbers.now }
    ensures { IfOk result (λ printed. printed.keys ≡ filter (is_printed refusals.now) numbers.now) }
{
    let mut printed = IndexSet::with_capacity(alloc, numbers.len())?;
    for number in numbers {
        if is_printed(refusals, *number) {
            printed.insert(*number)?;
        }
    }
    Ok(printed)
}

/// Writes the body of a named type. Only what is written is read.
fn put_body_at<'a>(
    alloc: Global,
    out: &mut Vec<u8>,
    source: &'a Source<'a>,
    survey: &Survey<'a>,
    id: EntryId,
    word: TagKeyword,
    name: Text<'a>,
) -> Result<(), AllocError>
    requires { id < length (entries_in source.now.image.now) }
    ensures { OnOk result (WritesBody survey.now 65 (Some name.entry.bytes.now) (body_in source.now.image.now id word)
        out.old.items out.new.items) }
{
    match word {
        OfAggregate(word) => {
            let members = members_at(alloc, source, id)?;
            survey.put_aggregate(alloc, out, word, Some(name), &members, DEPTH)
        }
        TagKeyword::Enum => {
            put_front(out, TagKeyword::Enum, Some(name))?;
            enumerators::put_all(out, source, id)
        }
    }
}

/// Writes the declaration of a named type.
fn put_named_type<'a>(
    alloc: Global,
    out: &mut Vec<u8>,
    source: &'a Source<'a>,
    survey: &Survey<'a>,
    id: EntryId,
    name: Text<'a>,
    kind: &NamedKind,
) -> Result<(), AllocError>
    requires id { id < length (entries_in source.now.image.now) }
    requires name { IsNameOf source.now.image.now id name }
    requires kind { IsKindOf source.now.image.now id kind.now }
    ensures { OnOk result
        (WritesDeclaration survey.now (subject_in source.now.image.now id) out.old.items out.new.items) }
{
    match kind {
        NamedKind::Typedef(at) => {
            survey.put_declaration(alloc, out, &Subject::Typedef(Some(name), *at))
        }
        NamedKind::Defined(word) => {
            put_body_at(alloc, out, source, survey, id, *word, name)?;
            put(out, b";")
        }
    }
}

/// Writes the lines of those that are printed.
fn put_lines<'a>(
    alloc: Global,
    out: &mut Vec<u8>,
    source: &'a Source<'a>,
    survey: &Survey<'a>,
    named: &Named<'a>,
    printed: &IndexSet<u32>,
) -> Result<(), AllocError>
    requires named { AreNamedTypes source.now.image.now named.now.ids.items }
    requires names { AreNames source.now.image.now named.now.ids.items named.now.names.items }
    requires kinds { AreKinds source.now.image.now named.now.ids.items named.now.kinds.items }
    requires survey { IsSurveyOf (shape_in source.now.image.now)
        (named_steps source.now.image.now named.now.ids.items) survey.now }
    requires printed { All (IsPrintedNumber source.now.image.now named.now.ids.items) printed.now.keys }
    ensures { OnOk result (out.new.items ≡ out.old.items
        ++ flat_map (declared_line source.now.image.now) (map (slice_index named.now.ids.items) printed.now.keys)) }
{
    for number in printed {
        let id = named.ids[*number as usize];
        let name = named.names[*number as usize];
        let kind = &named.kinds[*number as usize];
        put_named_type(alloc, out, source, survey, id, name, kind)?;
        out.push(b'\n')?;
    }
    Ok(())
}

/// The named type with a number.
#[inline]
fn named_at(named: &[EntryId], number: u32) -> Option<EntryId>
    ensures { result ≡ slice_get named.now number }
{
    named.get(number as usize).copied()
}

/// Those that are printed, in the order of their lines.
fn order_of(
    alloc: Global,
    named: &[EntryId],
    printed: &IndexSet<u32>,
) -> Result<Vec<EntryId>, AllocError>
    ensures { IfOk result (λ order. order.items ≡ filter_map (slice_get named.now) printed.now.keys) }
{
    printed
        .iter()
        .filter_map(|number| named_at(named, *number))
        .collect(alloc)
}

/// The named type with a number and why it is refused, if it is.
fn refused_at(
    named: &[EntryId],
    refusals: &[Option<PrintFault>],
    number: usize,
) -> Option<(EntryId, PrintFault)>
    ensures { result ≡ refused_number named.now refusals.now number }
{
    let id = named.get(number)?;
    match refusals.get(number) {
        Some(Some(fault)) => Some((*id, *fault)),
        _ => None,
    }
}

/// Those that are refused, in rising offset.
fn refused_of(
    alloc: Global,
    named: &[EntryId],
    refusals: &[Option<PrintFault>],
) -> Result<Vec<(EntryId, PrintFault)>, AllocError>
    ensures { IfOk result (λ refused. refused.items
        ≡ filter_map (refused_number named.now refusals.now) (range_with_len 0 (length named.now))) }
{
    (0..named.len())
        .filter_map(|number| refused_at(named, refusals, number))
        .collect(alloc)
}

/// The line of a named type that is refused.
fn put_refused(out: &mut Vec<u8>, offset: u32, fault: PrintFault) -> Result<(), AllocError>
    ensures { OnOk result (out.new.items ≡ out.old.items ++ refused_line offset fault) }
{
    out.extend_from_slice(b"/* 0x")?;
    put_hex(out, offset, 8)?;
    out.push(b' ')?;
    out.extend_from_slice(fault.code().as_bytes())?;
    out.push(b' ')?;
    out.extend_from_slice(fault.name().as_bytes())?;
    out.extend_from_slice(b" */\n")?;
    Ok(())
}

/// The lines of those that are refused.
fn put_all_refused(
    out: &mut Vec<u8>,
    image: &Image<'_>,
    refused: &[(EntryId, PrintFault)],
) -> Result<(), AllocError>
    requires { All (λ r. r.0 < length (entries_in image.now)) refused.now }
    ensures { OnOk result (out.new.items ≡ out.old.items ++ flat_map (refused_line_in image.now) refused.now) }
{
    for (entry, fault) in refused {
        put_refused(out, image.offset(*entry), *fault)?;
    }
    Ok(())
}

/// Lists all named types of the image.
fn listing_of<'a>(alloc: Global, source: &'a Source<'a>) -> Result<Listing, AllocError>
    ensures listing { IfOk result (λ it. IsListing source.now.image.now it.order.items it.refused.items) }
    ensures text { IfOk result (λ it.
        it.text.items ≡ listing_text source.now.image.now it.order.items it.refused.items) }
{
    let mut named = named_types(alloc, source)?;
    let numbers = numbers_in_order(alloc, source.image, &named.ids)?;
    let types = all_types(alloc, source.image, &named)?;
    let survey = Survey::new(alloc, source, types)?;
    let refusals = refusals_of(alloc, source, &survey, &named)?;
    let printed = printed_of(alloc, &numbers, &refusals)?;
    drop(numbers);
    let mut text = Vec::new(alloc);
    put_lines(alloc, &mut text, source, &survey, &named, &printed)?;
    drop(survey);
    named.names = Vec::new(alloc);
    let order = order_of(alloc, &named.ids, &printed)?;
    let refused = refused_of(alloc, &named.ids, &refusals)?;
    put_all_refused(&mut text, source.image, &refused)?;
    Ok(Listing {
        order,
        text,
        refused,
    })
}

/// Lists all named types of an image, each printed or refused: typedefs with a name, and structures, unions and
/// enumerations that have a name and are not only declared (DWARF 5, 2.15 and chapter 5).
///
/// The text has at most 65,537 bytes for each of them. The one error is that an allocation failed.
pub fn declare_all(alloc: Global, image: &Image<'_>) -> Result<Listing, NoMemory>
    ensures listing { IfOk result (λ it. IsListing image.now it.order.items it.refused.items) }
    ensures text { IfOk result (λ it. it.text.items ≡ listing_text image.now it.order.items it.refused.items) }
{
    let source = Source::read(alloc, image)?;
    let listing = listing_of(alloc, &source)?;
    Ok(listing)
}
