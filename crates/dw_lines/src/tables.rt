//! The tables of directories and files (DWARF 5, 6.2.4 and 6.2.4.1; DWARF 4, 6.2.4).

ghost use Rattle.std.specs.Prelude.{◌≡◌, ◌<◌, ℕ, List, length, map, option_map, IfOk};
ghost use Rattle.dw_elf.specs.Elf.{IsAfterLastZero};
ghost use Rattle.dw_forms.specs.Stops.{GivesOrMemory};
ghost use Rattle.dw_forms.specs.Value.{view};
ghost use Rattle.dw_forms.specs.ValueReading.{Gives};
ghost use Rattle.dw_lines.specs.Files as spec;
ghost use Rattle.dw_lines.specs.Files.{path_view, file_view};

use crate::program::{FileEntry, LinePath, LineSections};
use crate::rule::LineRule::{LineCut, LineForm, LineNumber};
use crate::rule::{LineRule, Reading};
use dw_forms::{Form, Stop, Value, read_value, take_byte, take_uleb};
use memchr::memchr;
use std::alloc::Global;

/// An entry that is no file.
const NO_FILE: FileEntry<'static> = FileEntry {
    path: LinePath::Header(&[]),
    directory: 0,
    md5: None,
};

/// The number of a directory, where there are so many.
fn in_directory(count: usize, directory: u64) -> Result<usize, LineRule>
    ensures { (bytes : List ℕ) → Gives (λ n. (n, bytes)) result ((spec.in_directory count directory).read bytes) }
{
    if directory < count as u64 {
        return Ok(directory as usize);
    }
    Err(LineRule::LineDirectory)
}

/// A path in versions 2 to 4, or none where an empty one ends a table.
fn path_or_end<'a>(bytes: &mut &'a [u8]) -> Result<Option<LinePath<'a>>, LineRule>
    ensures exact { Gives (λ x. (option_map path_view x, bytes.new.now)) result (spec.path_or_end.read bytes.old.now) }
    ensures shorter { IfOk result (λ _. length bytes.new.now < length bytes.old.now) }
{
    let len = memchr(0, bytes).ok_or(LineCut)?;
    let path = LinePath::Header(&bytes[..len]);
    *bytes = &bytes[len + 1..];
    Ok((len > 0).then_some(path))
}

/// The entries of a table of versions 2 to 4. Only files have more than a path, and each is in one of so many
/// directories.
fn entries4<'a>(
    alloc: Global,
    directories: Option<usize>,
    bytes: &mut &'a [u8],
) -> Reading<Vec<FileEntry<'a>>>
    ensures { GivesOrMemory (λ x. (map file_view x.items, bytes.new.now)) result
        ((spec.entries4 directories).read bytes.old.now) }
{
    let mut entries = Vec::new(alloc);
    entries.push(NO_FILE)?;
    while let Some(path) = path_or_end(bytes)? {
        let mut entry = FileEntry { path, ..NO_FILE };
        if let Some(count) = directories {
            entry.directory = in_directory(count, take_uleb(LineCut, LineNumber, bytes)?)?;
            let _time = take_uleb(LineCut, LineNumber, bytes)?;
            let _size = take_uleb(LineCut, LineNumber, bytes)?;
        }
        entries.push(entry)?;
    }
    Ok(entries)
}

/// The codes of contents (DWARF 5, 7.22).
const DW_LNCT_path: u64 = 1;

const DW_LNCT_directory_index: u64 = 2;

const DW_LNCT_timestamp: u64 = 3;

const DW_LNCT_size: u64 = 4;

const DW_LNCT_MD5: u64 = 5;

/// A content of an entry, and its form.
#[derive(Clone, Copy, Debug)]
pub(crate) struct Content {
    pub(crate) kind: u64,
    pub(crate) form: Form,
}

/// Whether a content of this kind may have a form. The forms of strings by index are left out: they need the unit.
fn may_have(kind: u64, form: Form) -> bool
    ensures { result ≡ spec.may_have kind form }
{
    // Of a content that the standard does not name, the form alone says how long it is.
    let other = kind < DW_LNCT_path || kind > DW_LNCT_MD5;
    match form {
        Form::Text | Form::Strp | Form::LineStrp => other || kind == DW_LNCT_path,
        Form::Data1 | Form::Data2 => other
            || matches!(kind, DW_LNCT_directory_index | DW_LNCT_size),
        Form::Data4 | Form::Data8 => other || matches!(kind, DW_LNCT_timestamp | DW_LNCT_size),
        Form::Udata => kind != DW_LNCT_path && kind != DW_LNCT_MD5,
        Form::Block => other || kind == DW_LNCT_timestamp,
        Form::Data16 => other || kind == DW_LNCT_MD5,
        _ => false,
    }
}

/// Whether one of the contents is of this kind.
fn has_kind(contents: &[Content], kind: u64) -> bool
    ensures { result ≡ spec.has_kind kind contents.now }
{
    contents.iter().any(|content| content.kind == kind)
}

/// Whether each content has a form that it may have, and none is there twice.
fn are_valid(contents: &[Content]) -> bool
    ensures { result ≡ spec.are_contents contents.now }
{
    let [content, others @ ..] = contents else {
        return true;
    };
    may_have(content.kind, content.form) && !has_kind(others, content.kind) && are_valid(others)
}

/// The format of the entries of a table, and how many there are. Entries have a path, which takes a byte at least.
fn table_head(alloc: Global, bytes: &mut &[u8]) -> Reading<(Vec<Content>, u64)>
    ensures { GivesOrMemory (λ x. ((x.0.items, x.1), bytes.new.now)) result (spec.table_head.read bytes.old.now) }
{
    let mut contents = Vec::new(alloc);
    for _ in 0..take_byte(LineCut, bytes)? {
        let kind = take_uleb(LineCut, LineNumber, bytes)?;
        let form = Form::from_code(take_uleb(LineCut, LineNumber, bytes)?).ok_or(LineForm)?;
        contents.push(Content { kind, form })?;
    }
    if !are_valid(&contents) {
        return Err(Stop::Fault(LineForm));
    }
    let count = take_uleb(LineCut, LineNumber, bytes)?;
    if has_kind(&contents, DW_LNCT_path) || count == 0 {
        return Ok((contents, count));
    }
    Err(Stop::Fault(LineForm))
}

/// The string at an offset of a section, whose last zero byte is just before `end`. Where the string ends is not looked
/// for, because any number of entries may have it.
fn string_at(section: &[u8], end: usize, offset: u32) -> Result<LinePath<'_>, LineRule>
    requires { IsAfterLastZero section.now end }
    ensures { (bytes : List ℕ) → Gives (λ p. (path_view p, bytes)) result
        ((spec.string_at section.now offset).read bytes) }
{
    if (offset as usize) < end {
        return Ok(LinePath::Section(&section[offset as usize..]));
    }
    Err(LineRule::LineString)
}

impl<'a> LineSections<'a> {
    /// Adds a content of this kind, which has this value, to an entry.
    fn add(&self, kind: u64, value: Value<'a>, entry: &mut FileEntry<'a>) -> Result<(), LineRule>
        ensures { (bytes : List ℕ) → Gives (λ _. (file_view entry.new, bytes)) result
            ((spec.with_value self.now kind (file_view entry.old) (view value.entry)).read bytes) }
    {
        let path = match value {
            Value::Text(string) => LinePath::Header(string),
            Value::Str(offset) => string_at(self.str, self.str_end, offset)?,
            Value::LineStr(offset) => string_at(self.line_str, self.line_str_end, offset)?,
            _ => entry.path,
        };
        match (kind, value) {
            (DW_LNCT_path, _) => entry.path = path,
            (DW_LNCT_directory_index, Value::Unsigned(number)) => entry.directory = number as usize,
            (DW_LNCT_MD5, Value::Wide(sum)) => entry.md5 = Some(sum),
            _ => {}
        }
        Ok(())
    }

    /// An entry with these contents. It has directory 0 where none is given, and a file is in one of so many.
    fn entry(
        &self,
        contents: &[Content],
        directories: Option<usize>,
        bytes: &mut &'a [u8],
    ) -> Result<FileEntry<'a>, LineRule>
        ensures { Gives (λ x. (file_view x, bytes.new.now)) result
            ((spec.table_entry self.now contents.now directories).read bytes.old.now) }
    {
        let mut entry = NO_FILE;
        for content in contents {
            let (value, len) = read_value(5, content.form, 8, bytes)?;
            *bytes = &bytes[len..];
            self.add(content.kind, value, &mut entry)?;
        }
        if let Some(count) = directories {
            in_directory(count, entry.directory as u64)?;
        }
        Ok(entry)
    }

    /// The entries of a table: of directories, or of files, each of which is in one of so many directories.
    pub(crate) fn entries(
        &self,
        alloc: Global,
        version: u16,
        directories: Option<usize>,
        bytes: &mut &'a [u8],
    ) -> Reading<Vec<FileEntry<'a>>>
        ensures { GivesOrMemory (λ x. (map file_view x.items, bytes.new.now)) result
            ((spec.entries self.now version directories).read bytes.old.now) }
    {
        if version < 5 {
            return entries4(alloc, directories, bytes);
        }
        let (contents, count) = table_head(alloc, bytes)?;
        let mut entries = Vec::new(alloc);
        for _ in 0..count {
            entries.push(self.entry(&contents, directories, bytes)?)?;
        }
        Ok(entries)
    }
}
