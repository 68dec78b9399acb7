//! What is known of the strings that entries share. A string is not read again for each of its suffixes.

ghost use Rattle.std.specs.Prelude.{◌≡◌, ◌≤◌, length, drop, IfOk};
ghost use Rattle.std.specs.List.{list_all};
ghost use Rattle.dw_links.specs.Contributions.{string_at};
ghost use Rattle.dw_links.specs.Slots.{IsTextPlace};
ghost use Rattle.dw_links.specs.ValueTexts.{text_there};
ghost use Rattle.dw_links.specs.StringSpans.{AreSpans, IsSpan, is_word_byte};

use crate::texts::{TextPlace, string_from};
use dw_elf::Sections;
use std::alloc::{AllocError, Global};

/// How many bytes lie between two offsets whose strings are known. A string is read up to the next of them.
const BLOCK: usize = 64;

/// What is known of a string.
#[derive(Clone, Copy, Debug)]
pub struct StringSpan {
    /// How many bytes it has, without its zero byte.
    pub len: usize,
    /// Whether all of them are letters, digits or underscores.
    pub words: bool,
}

/// Whether all bytes are letters, digits or underscores.
fn are_words(bytes: &[u8]) -> bool
    ensures { result ≡ list_all is_word_byte bytes.now }
{
    let mut words = true;
    // No byte ends the loop, so that several are looked at by one instruction.
    for (k, b) in bytes.iter().enumerate() {
        words = words & (b.is_ascii_alphanumeric() | (*b == b'_'));
    }
    words
}

impl StringSpan {
    /// What is known of a text, which is read.
    pub fn of(text: &[u8]) -> StringSpan
        ensures { IsSpan text.now result }
    {
        StringSpan {
            len: text.len(),
            words: are_words(text),
        }
    }
}

/// What the string at the front of some bytes is, by that at an offset: no byte after the offset is read.
fn span_by(bytes: &[u8], offset: usize, next: StringSpan) -> StringSpan
    requires within { offset ≤ length bytes.now }
    requires next { IsSpan (string_at (drop offset bytes.now) 0) next }
    ensures { IsSpan (string_at bytes.now 0) result }
{
    let (before, _) = bytes.split_at(offset);
    let front = StringSpan::of(string_from(before, 0));
    if front.len < offset {
        return front;
    }
    StringSpan {
        len: offset + next.len,
        words: front.words && next.words,
    }
}

/// A section of strings, and what is known of those at some offsets.
#[derive(Drop)]
pub struct StringTable<'a> {
    pub section: &'a [u8],
    /// What the string is that has 0, 64, 128, .. bytes of the section from its start to the section's end.
    spans: Vec<StringSpan>,
    ghost known: { AreSpans section.now spans.items },
}

impl<'a> StringTable<'a> {
    /// The strings of a section, which is read once.
    fn read(alloc: Global, section: &'a [u8]) -> Result<StringTable<'a>, AllocError>
        ensures { IfOk result (λ it. it.section ≡ section.entry) }
    {
        let mut spans = Vec::with_capacity(alloc, section.len() / BLOCK + 1)?;
        let mut span = StringSpan {
            len: 0,
            words: true,
        };
        spans.push(span)?;
        for k in 0..section.len() / BLOCK {
            let (_, bytes) = section.split_at(section.len() - (k + 1) * BLOCK);
            span = span_by(bytes, BLOCK, span);
            spans.push(span)?;
        }
        Ok(StringTable { section, spans })
    }

    /// What the string at an offset is. Fewer than 64 bytes of it are read.
    fn span(&self, offset: usize) -> StringSpan
        requires { offset ≤ length self.now.section.now }
        ensures { IsSpan (string_at self.now.section.now offset) result }
    {
        let (_, bytes) = self.section.split_at(offset);
        let next = self.spans[bytes.len() / BLOCK];
        span_by(bytes, bytes.len() % BLOCK, next)
    }
}

/// Sections, and what is known of the strings that their entries share.
#[derive(Drop)]
pub struct Strings<'a> {
    pub sections: Sections<'a>,
    /// The strings of .debug_str.
    str: StringTable<'a>,
    /// Those of .debug_line_str.
    line_str: StringTable<'a>,
    ghost same_str: { str.section ≡ sections.str },
    ghost same_line_str: { line_str.section ≡ sections.line_str },
}

impl<'a> Strings<'a> {
    /// What is known of the strings of sections, whose .debug_str and .debug_line_str are read once.
    pub fn read(alloc: Global, sections: &Sections<'a>) -> Result<Strings<'a>, AllocError>
        ensures { IfOk result (λ it. it.sections ≡ sections.now) }
    {
        let str = StringTable::read(alloc, sections.str)?;
        let line_str = StringTable::read(alloc, sections.line_str)?;
        Ok(Strings {
            sections: *sections,
            str,
            line_str,
        })
    }

    /// What the text at a place is. One in .debug_info is read to its end.
    pub fn span(&self, place: TextPlace) -> StringSpan
        requires { IsTextPlace self.now.sections place }
        ensures { IsSpan (text_there self.now.sections place) result }
    {
        match place {
            TextPlace::Info(offset) => StringSpan::of(string_from(self.sections.info, offset)),
            TextPlace::Str(offset) => self.str.span(offset),
            TextPlace::LineStr(offset) => self.line_str.span(offset),
        }
    }
}
