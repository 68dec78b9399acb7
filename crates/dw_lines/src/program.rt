//! Line programs: the sections that they are read from, what their headers say, and the bytes of their opcodes
//! (DWARF 5, 6.2.4 and 6.2.4.1; DWARF 4, 6.2.4).

ghost use Rattle.std.specs.Prelude.{◌≡◌, ◌+◌, ◌≤◌, ◌<◌, ◌^◌, length};
ghost use Rattle.dw_elf.specs.Elf.{IsAfterLastZero};

use dw_elf::end_of_texts;
use memchr::memchr;

/// The contents of these sections. One that the file does not have is empty.
#[derive(Clone, Copy, Debug)]
pub struct LineSections<'a> {
    /// `.debug_line`.
    pub line: &'a [u8],
    /// `.debug_line_str`.
    pub line_str: &'a [u8],
    /// `.debug_str`.
    pub str: &'a [u8],
    /// The count of bytes of `.debug_line_str` up to its last zero byte, with it, or 0.
    pub(crate) line_str_end: usize,
    /// The same of `.debug_str`.
    pub(crate) str_end: usize,
    ghost line_str_ends: { IsAfterLastZero line_str.now line_str_end },
    ghost str_ends: { IsAfterLastZero str.now str_end },
}

impl<'a> LineSections<'a> {
    /// The sections, and where the strings of two of them end, which is looked for once.
    pub fn new(line: &'a [u8], line_str: &'a [u8], str: &'a [u8]) -> LineSections<'a>
        ensures line { result.line ≡ line.entry }
        ensures line_str { result.line_str ≡ line_str.entry }
        ensures str { result.str ≡ str.entry }
    {
        LineSections {
            line,
            line_str,
            str,
            line_str_end: end_of_texts(line_str),
            str_end: end_of_texts(str),
        }
    }
}

/// A path, by the bytes that it is in.
#[derive(Clone, Copy, Debug)]
pub enum LinePath<'a> {
    /// In the header: these bytes, without the zero byte after them.
    Header(&'a [u8]),
    /// In another section: the bytes from its start on. The first zero byte of them ends it.
    Section(&'a [u8]),
}

impl<'a> LinePath<'a> {
    ghost use Rattle.dw_lines.specs.Files.{path_view};

    /// The bytes of the path. In another section its end is looked for.
    pub fn bytes(self) -> &'a [u8]
        ensures { result.now ≡ path_view self.entry }
    {
        match self {
            LinePath::Header(path) => path,
            LinePath::Section(rest) => &rest[..memchr(0, rest).unwrap_or(rest.len())],
        }
    }
}

/// A file or a directory: its path, the number of a file's directory, and its MD5 sum.
#[derive(Clone, Copy, Debug)]
pub struct FileEntry<'a> {
    pub path: LinePath<'a>,
    pub directory: usize,
    /// The 16 bytes of DW_LNCT_MD5, in the order of the header (DWARF 5, 6.2.4.1). None before version 5, or if the
    /// format of the entries does not have it.
    pub md5: Option<&'a [u8]>,
}

/// The files by number. Before version 5 the first has number 1, and an entry that is no file is in place of number 0.
#[derive(Debug, Drop)]
pub struct Files<'a> {
    pub entries: Vec<FileEntry<'a>>,
    /// The least number of a file: 0 in version 5, otherwise 1.
    pub first: u8,
}

impl Files<'_> {
    ghost use Rattle.dw_lines.specs.Files.{has_file};

    /// Whether a number is that of a file.
    #[inline(always)]
    pub fn has(&self, number: u64) -> bool
        ensures { result ≡ has_file self.now number }
    {
        number >= u64::from(self.first) && number < self.entries.len() as u64
    }
}

/// The fields of a header that say what opcodes mean, under their names there.
#[derive(Clone, Copy, Debug)]
pub struct Parameters {
    /// 4 or 8.
    pub address_size: u8,
    pub minimum_instruction_length: u8,
    /// 1 before version 4.
    pub maximum_operations_per_instruction: u8,
    pub default_is_stmt: bool,
    pub line_base: i8,
    pub line_range: u8,
    pub opcode_base: u8,
    ghost operations: { 1 ≤ maximum_operations_per_instruction },
    ghost range: { 1 ≤ line_range },
    ghost base: { 1 ≤ opcode_base },
    ghost size: { 4 ≤ address_size },
    ghost width: { address_size ≤ 8 },
}

/// What the header of a line program says.
#[derive(Debug, Drop)]
pub struct LineHeader<'a> {
    /// 2 to 5.
    pub version: u16,
    pub parameters: Parameters,
    /// How many operands each opcode below opcode_base has, from 1 on.
    pub standard_opcode_lengths: &'a [u8],
    /// The directories by number. Number 0 is the directory of the compilation: before version 5 the unit names it, and
    /// its path is empty here.
    pub directories: Vec<FileEntry<'a>>,
    pub files: Files<'a>,
}

/// A line program.
#[derive(Debug, Drop)]
pub struct Program<'a> {
    pub header: LineHeader<'a>,
    /// The offset of the first opcode in `.debug_line`.
    pub opcodes_at: usize,
    /// The bytes of the opcodes.
    pub opcodes: &'a [u8],
    ghost fits: { opcodes_at + length opcodes.now < 2 ^ 64 },
}
