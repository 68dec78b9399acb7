//! The lines of a report, one function a kind of line or part.

ghost use Rattle.std.specs.Prelude.{◌≡◌, ◌++◌, OnOk};
ghost use Rattle.std.specs.List.{flat_map};
ghost use Rattle.dw_report.specs.Lines.{offset_text, sound_line, elf_fault_line, fault_lines, cycle_line, cycle_offset};
ghost use Rattle.dw_report.specs.Lines.{rule_part, place_part, place_line, hex};

use dw_cprint::{put_decimal, put_hex};
use dw_elf::ElfFault;
use dw_image::Fault;
use dw_units::Counts;
use std::alloc::AllocError;

/// An offset: `0x` and eight digits.
#[tactic(auto, unfolding(crate::specs::Lines::offset_text))]
pub fn put_offset(text: &mut Vec<u8>, n: u32) -> Result<(), AllocError>
    ensures ok { OnOk result (text.new.items ≡ text.old.items ++ offset_text n) }
{
    text.extend_from_slice(b"0x")?;
    put_hex(text, n, 8)
}

/// `sound: U units, E entries, T types`.
#[tactic(auto, unfolding(crate::specs::Lines::sound_line))]
pub fn put_sound_line(text: &mut Vec<u8>, counts: Counts) -> Result<(), AllocError>
    ensures ok { OnOk result (text.new.items ≡ text.old.items ++ sound_line counts.units counts.entries counts.types) }
{
    text.extend_from_slice(b"sound: ")?;
    put_decimal(text, counts.units as u128)?;
    text.extend_from_slice(b" units, ")?;
    put_decimal(text, counts.entries as u128)?;
    text.extend_from_slice(b" entries, ")?;
    put_decimal(text, counts.types as u128)?;
    text.extend_from_slice(b" types\n")
}

/// `fault RULE NAME`.
#[tactic(auto, unfolding(crate::specs::Lines::rule_part))]
fn put_rule(text: &mut Vec<u8>, code: &[u8], name: &[u8]) -> Result<(), AllocError>
    ensures ok { OnOk result (text.new.items ≡ text.old.items ++ rule_part code.now name.now) }
{
    text.extend_from_slice(b"fault ")?;
    text.extend_from_slice(code)?;
    text.extend_from_slice(b" ")?;
    text.extend_from_slice(name)
}

/// `fault RULE NAME at section N`.
#[tactic(auto, unfolding(crate::specs::Lines::elf_fault_line))]
pub fn put_elf_fault_line(text: &mut Vec<u8>, fault: ElfFault) -> Result<(), AllocError>
    ensures ok { OnOk result (text.new.items ≡ text.old.items ++ elf_fault_line fault) }
{
    let code = fault.rule.code().as_bytes();
    let name = fault.rule.name().as_bytes();
    put_rule(text, code, name)?;
    text.extend_from_slice(b" at section ")?;
    put_decimal(text, u128::from(fault.section))?;
    text.extend_from_slice(b"\n")
}

/// ` at SECTION+0xOOOOOOOO attribute 0xA`.
#[tactic(auto, unfolding(crate::specs::Lines::place_part))]
fn put_place(text: &mut Vec<u8>, section: &[u8], at: u32, attribute: u16) -> Result<(), AllocError>
    ensures ok { OnOk result (text.new.items ≡ text.old.items ++ place_part section.now at attribute) }
{
    text.extend_from_slice(b" at ")?;
    text.extend_from_slice(section)?;
    text.extend_from_slice(b"+")?;
    put_offset(text, at)?;
    text.extend_from_slice(b" attribute 0x")?;
    put_short_hex(text, attribute)
}

/// An offset of a cycle, after a space.
#[tactic(auto, unfolding(crate::specs::Lines::cycle_offset))]
fn put_cycle_offset(text: &mut Vec<u8>, offset: u32) -> Result<(), AllocError>
    ensures ok { OnOk result (text.new.items ≡ text.old.items ++ cycle_offset offset) }
{
    text.extend_from_slice(b" ")?;
    put_offset(text, offset)
}

/// The offsets of a cycle.
fn put_offsets(text: &mut Vec<u8>, offsets: &[u32]) -> Result<(), AllocError>
    ensures ok { OnOk result (text.new.items ≡ text.old.items ++ flat_map cycle_offset offsets.now) }
{
    for offset in offsets {
        put_cycle_offset(text, *offset)?;
    }
    Ok(())
}

/// `cycle` and the offsets, if there are any.
#[tactic(auto, unfolding(crate::specs::Lines::cycle_line))]
fn put_cycle_line(text: &mut Vec<u8>, cycle: &[u32]) -> Result<(), AllocError>
    ensures ok { OnOk result (text.new.items ≡ text.old.items ++ cycle_line cycle.now) }
{
    if cycle.is_empty() {
        return Ok(());
    }
    text.extend_from_slice(b"cycle")?;
    put_offsets(text, cycle)?;
    text.extend_from_slice(b"\n")
}

/// `fault RULE NAME at SECTION+0xOOOOOOOO attribute 0xA`, on a line.
#[tactic(auto, unfolding(crate::specs::Lines::place_line))]
pub fn put_place_line(
    text: &mut Vec<u8>,
    code: &[u8],
    name: &[u8],
    section: &[u8],
    at: u32,
    attribute: u16,
) -> Result<(), AllocError>
    ensures ok { OnOk result (text.new.items
        ≡ text.old.items ++ place_line code.now name.now section.now at attribute) }
{
    put_rule(text, code, name)?;
    put_place(text, section, at, attribute)?;
    text.extend_from_slice(b"\n")
}

/// `fault RULE NAME at SECTION+0xOOOOOOOO attribute 0xA`, and the line of the cycle.
#[tactic(auto, unfolding(crate::specs::Lines::fault_lines))]
pub fn put_fault_lines(text: &mut Vec<u8>, fault: &Fault) -> Result<(), AllocError>
    ensures ok { OnOk result (text.new.items ≡ text.old.items ++ fault_lines fault.now) }
{
    let code = fault.rule.code().as_bytes();
    let name = fault.rule.name().as_bytes();
    let section = fault.section.name().as_bytes();
    put_place_line(text, code, name, section, fault.at, fault.attribute)?;
    put_cycle_line(text, fault.cycle.as_slice())
}

/// Appends the hexadecimal digits of a number, without leading zeros.
#[tactic(auto, unfolding(crate::specs::Lines::hex))]
fn put_short_hex(text: &mut Vec<u8>, n: u16) -> Result<(), AllocError>
    ensures ok { OnOk result (text.new.items ≡ text.old.items ++ hex n) }
{
    let n = u32::from(n);
    if n < 0x10 {
        return put_hex(text, n, 1);
    }
    if n < 0x100 {
        return put_hex(text, n, 2);
    }
    if n < 0x1000 {
        return put_hex(text, n, 3);
    }
    put_hex(text, n, 4)
}
