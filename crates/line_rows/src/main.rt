//! Prints the rows that the line programs of each file make, in the words of `llvm-dwarfdump --debug-line`, to compare
//! `dw_lines` with other readers. After the word `--tables` it prints directories and files too, and after `--count`
//! how many rows a program makes in place of the rows.
#![tactic(auto)]

use dw_elf::{OtherSection, find, find_other};
use dw_forms::Stop;
use dw_lines::{LineFault, LinePath, LineSections, Program, Row, read_program};
use std::rt::{Env, Files};
use std::{env, fs, io};

/// What is printed of a program.
#[derive(Clone, Copy, Debug, PartialEq, Eq)]
enum Shown {
    Rows,
    /// Directories and files, and then the rows.
    Tables,
    /// How many rows there are, and the sum of their lines.
    Count,
}

/// The word of a flag, if a row has it.
fn word(flag: bool, text: &'static str) -> &'static str {
    if flag { text } else { "" }
}

/// A line for a row.
fn print_row<R: Print + AllocGlobal>(rt: &R, row: Row) -> io::Result<()> {
    println!(rt;
        "0x{:016x} {:>6} {:>6} {:>6} {:>3} {:>13} {:>7} {}{}{}{}{}",
        row.address,
        row.line,
        row.column,
        row.file,
        row.isa,
        row.discriminator,
        row.op_index,
        word(row.is_stmt, " is_stmt"),
        word(row.basic_block, " basic_block"),
        word(row.prologue_end, " prologue_end"),
        word(row.epilogue_begin, " epilogue_begin"),
        word(row.end_sequence, " end_sequence")
    )
}

/// A line for a fault.
fn print_fault<R: Print + AllocGlobal>(rt: &R, fault: LineFault) -> io::Result<()> {
    println!(rt;
        "fault {} {} at 0x{:08x}",
        fault.rule.code(),
        fault.rule.name(),
        fault.at
    )
}

/// The lines of a program's rows, and of the fault after them.
fn print_rows<R: Print + AllocGlobal>(rt: &R, program: &Program<'_>) -> io::Result<()> {
    let mut rows = program.rows();
    // An opcode appends one row at most.
    for _ in 0..=program.opcodes.len() {
        match rows.next() {
            Ok(Some(row)) => print_row(rt, row)?,
            Ok(None) => break,
            Err(fault) => return print_fault(rt, fault),
        }
    }
    Ok(())
}

/// How many rows a program makes, the sum of their lines, and the fault after them.
#[inline(never)]
fn count_rows(program: &Program<'_>) -> (u64, u64, Option<LineFault>) {
    let mut rows = program.rows();
    let mut count = 0_u64;
    let mut lines = 0_u64;
    for _ in 0..=program.opcodes.len() {
        match rows.next() {
            Ok(Some(row)) => {
                count = count.saturating_add(1);
                lines = lines.saturating_add(u64::from(row.line));
            }
            Ok(None) => break,
            Err(fault) => return (count, lines, Some(fault)),
        }
    }
    (count, lines, None)
}

/// The lines of the count of a program's rows, and of the fault after them.
fn print_count<R: Print + AllocGlobal>(rt: &R, program: &Program<'_>) -> io::Result<()> {
    let (count, lines, fault) = count_rows(program);
    println!(rt; "{count} rows, lines {lines}")?;
    match fault {
        Some(fault) => print_fault(rt, fault),
        None => Ok(()),
    }
}

/// A path in quotes. Bytes other than those of printed ASCII, and quotes and backslashes, are in octal.
fn print_path<R: Print + AllocGlobal>(rt: &R, path: LinePath<'_>) -> io::Result<()> {
    print!(rt; "\"")?;
    for byte in path.bytes() {
        match byte {
            b' ' | b'!' | b'#'..=b'[' | b']'..=b'~' => print!(rt; "{}", char::from(*byte))?,
            _ => print!(rt; "\\{byte:03o}")?,
        }
    }
    print!(rt; "\"")
}

/// The MD5 sum of a file, if it has one, and the end of the line.
fn print_sum<R: Print + AllocGlobal>(rt: &R, md5: Option<&[u8]>) -> io::Result<()> {
    if let Some(sum) = md5 {
        print!(rt; " ")?;
        for byte in sum {
            print!(rt; "{byte:02x}")?;
        }
    }
    println!(rt)
}

/// The lines of a program's directories and files, by number: before version 5 from 1 on.
fn print_tables<R: Print + AllocGlobal>(rt: &R, program: &Program<'_>) -> io::Result<()> {
    let first = usize::from(program.header.files.first);
    for (number, directory) in program.header.directories.iter().enumerate().skip(first) {
        print!(rt; "directory {number} ")?;
        print_path(rt, directory.path)?;
        println!(rt)?;
    }
    for (number, file) in program.header.files.entries.iter().enumerate().skip(first) {
        print!(rt; "file {number} {} ", file.directory)?;
        print_path(rt, file.path)?;
        print_sum(rt, file.md5)?;
    }
    Ok(())
}

/// The lines of a program.
fn print_program<R: Print + AllocGlobal>(
    rt: &R,
    program: &Program<'_>,
    shown: Shown,
) -> io::Result<()> {
    match shown {
        Shown::Rows => print_rows(rt, program),
        Shown::Tables => {
            print_tables(rt, program)?;
            print_rows(rt, program)
        }
        Shown::Count => print_count(rt, program),
    }
}

/// Whether addresses have 4 bytes, as a header of version 5 says. Otherwise they have 8.
fn is_short(line: &[u8], offset: usize) -> bool {
    matches!(line.get(offset..), Some([_, _, _, _, 5, 0, 4, ..]))
}

/// The offset of the next program. None where the length of this one is not read.
fn after(line: &[u8], offset: usize) -> Option<usize> {
    let length = line.get(offset..)?.first_chunk::<4>()?;
    let length = u32::from_le_bytes(*length);
    if length >= 0xffff_fff0 {
        return None;
    }
    offset.checked_add(4)?.checked_add(length as usize)
}

/// The lines of the programs of a file.
fn print_programs<R: Print + AllocGlobal>(
    rt: &R,
    sections: &LineSections<'_>,
    shown: Shown,
) -> io::Result<()> {
    let mut offset = 0;
    // A program has four bytes at least. The first is read even if the section is empty.
    for _ in 0..=sections.line.len() {
        if 0 < offset && offset >= sections.line.len() {
            return Ok(());
        }
        println!(rt; "debug_line[0x{offset:08x}]")?;
        let program = if is_short(sections.line, offset) {
            read_program(rt.alloc(), sections, offset, 4)
        } else {
            read_program(rt.alloc(), sections, offset, 8)
        };
        match program {
            Ok(program) => print_program(rt, &program, shown)?,
            Err(Stop::Fault(fault)) => print_fault(rt, fault)?,
            Err(Stop::Memory) => return println!(rt; "out of memory"),
        }
        match after(sections.line, offset) {
            Some(next) => offset = next,
            None => return Ok(()),
        }
    }
    Ok(())
}

/// The sections that line programs are read from, or the line of the first check of the file that fails.
fn sections_of<'a, R: Print + AllocGlobal>(
    rt: &R,
    file: &'a [u8],
) -> io::Result<Option<LineSections<'a>>> {
    let found = find(file).and_then(|sections| Ok((
        sections,
        find_other(file, OtherSection::Line)?,
    )));
    match found {
        Ok((sections, line)) => Ok(Some(LineSections::new(line, sections.line_str, sections.str))),
        Err(fault) => {
            println!(rt;
                "fault {} {} at section {}",
                fault.rule.code(),
                fault.rule.name(),
                fault.section
            )?;
            Ok(None)
        }
    }
}

/// The name of a file, and its lines.
fn print_file<R: Files + Print + AllocGlobal>(rt: &R, name: &str, shown: Shown) -> io::Result<()> {
    let file = fs::read(rt, name)?;
    println!(rt; "{name}:")?;
    match sections_of(rt, file.as_slice())? {
        Some(sections) => print_programs(rt, &sections, shown),
        None => Ok(()),
    }
}

fn run<R: Env + Files + Print + AllocGlobal>(rt: &R) -> io::Result<()> {
    let mut shown = Shown::Rows;
    for word in env::args(rt)?.skip(1) {
        match word.as_str() {
            "--tables" => shown = Shown::Tables,
            "--count" => shown = Shown::Count,
            name => print_file(rt, name, shown)?,
        }
    }
    Ok(())
}

fn main(rt: HostRuntime) -> io::Result<()> {
    run(&rt)
}
