//! The paths of files (DWARF 5, 6.2.4 and 6.2.4.1; DWARF 4, 6.2.4).

ghost use Rattle.std.specs.Prelude.{◌≡◌, ◌≤◌, ◌++◌, length, take, drop, true, OnOk, OnErr};
ghost use Rattle.dw_lines.specs.Files.{has_file};
ghost use Rattle.dw_addresses.specs.Paths.{begins_with_slash, directory_path, ends_with_slash, file_path, joined};
ghost use Rattle.dw_lines.specs.Programs.{fields_of};

use dw_lines::LineHeader;
use std::alloc::AllocError;

/// Whether a slash is first.
fn has_slash_first(part: &[u8]) -> bool
    ensures { result ≡ begins_with_slash part.now }
{
    match part {
        [first, ..] => *first == b'/',
        [] => false,
    }
}

/// Whether a slash is last, or nothing is there.
fn has_slash_last(path: &[u8]) -> bool
    ensures { result ≡ ends_with_slash path.now }
{
    match path {
        [.., last] => *last == b'/',
        [] => true,
    }
}

/// Appends a part of a path, which starts at an index of a text. If an allocation fails, a slash may be appended.
fn push_part(text: &mut Vec<u8>, start: usize, part: &[u8]) -> Result<(), AllocError>
    requires { start ≤ length text.old.items }
    ensures ok { OnOk result
        (text.new.items ≡ take start text.old.items ++ joined (drop start text.old.items) part.now) }
    ensures before { take start text.new.items ≡ take start text.old.items }
{
    if has_slash_first(part) {
        text.truncate(start);
        return text.extend_from_slice(part);
    }
    if has_slash_last(&text.as_slice()[start..]) || part.is_empty() {
        return text.extend_from_slice(part);
    }
    text.push(b'/')?;
    text.extend_from_slice(part)
}

/// The path of a directory by its number, which is empty if there is none.
fn directory<'h>(header: &'h LineHeader<'_>, number: usize) -> &'h [u8]
    ensures { result.now ≡ directory_path (fields_of header.now).tables number }
{
    match header.directories.get(number) {
        Some(entry) => entry.path.bytes(),
        None => &[],
    }
}

/// Appends the path of a file. If an allocation fails, a part of it may be there.
fn push_parts(
    header: &LineHeader<'_>,
    comp_dir: &[u8],
    file: u64,
    text: &mut Vec<u8>,
) -> Result<(), AllocError>
    requires { has_file header.now.files file ≡ true }
    ensures ok { OnOk result
        (text.new.items ≡ text.old.items ++ file_path (fields_of header.now) comp_dir.now file) }
    ensures before { take (length text.old.items) text.new.items ≡ text.old.items }
{
    let start = text.len();
    let entry = header.files.entries[file as usize];
    let base = if header.version < 5 {
        comp_dir
    } else {
        directory(header, 0)
    };
    let directory = if entry.directory == 0 {
        &[]
    } else {
        directory(header, entry.directory)
    };
    push_part(text, start, base)?;
    push_part(text, start, directory)?;
    push_part(text, start, entry.path.bytes())
}

/// Appends the path of a file by its number in a header. `comp_dir` is the unit's DW_AT_comp_dir, or empty if it has
/// none.
pub fn push_path(
    header: &LineHeader<'_>,
    comp_dir: &[u8],
    file: u64,
    text: &mut Vec<u8>,
) -> Result<(), AllocError>
    requires { has_file header.now.files file ≡ true }
    ensures ok { OnOk result
        (text.new.items ≡ text.old.items ++ file_path (fields_of header.now) comp_dir.now file) }
    ensures err { OnErr result (text.new.items ≡ text.old.items) }
{
    let start = text.len();
    let result = push_parts(header, comp_dir, file, text);
    if result.is_err() {
        text.truncate(start);
    }
    result
}
