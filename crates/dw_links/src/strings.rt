//! The rules on strings and addresses (DWARF 5, sections 7.26 and 7.27), by what is read once of a unit, and the search
//! for the first failure, unit by unit.

ghost use Rattle.std.specs.Prelude.{◌≡◌, ◌<◌, length, OnOk, IfErr};
ghost use Rattle.dw_elf.specs.Elf.{IsAfterLastZero};
ghost use Rattle.dw_forms.specs.Value.{view};
ghost use Rattle.dw_entries.specs.Failures.{HasNone, IsFirst, IsLeast, IsPlainFault};
ghost use Rattle.dw_entries.specs.ByNumber.{entry_of};
ghost use Rattle.dw_entries.specs.Views.{sections_of, all_entries, units_of};
ghost use Rattle.dw_links.specs.Strings.{OffsetFails, BaseFails, StringIndexFails, AddressIndexFails, StringFailures};
ghost use Rattle.dw_links.specs.UnitAtHand.{FailsByText};
ghost use Rattle.dw_links.specs.UnitContributions.{AreContributions, IsReady, FailsByTexts};
ghost use Rattle.dw_links.specs.RulesOfAttributes.{AtHead};

use crate::class::plain_fault_at;
use crate::contribution::{base_in_unit, count_named, count_slots, number};
use dw_elf::{Sections, end_of_texts};
use dw_entries::constants::*;
use dw_entries::{Entries, EntryHead, EntryId, Fault, PlainFault, Rule, UnitHead};
use dw_forms::{Attribute, Value};
use std::alloc::Global;

/// The rule on an offset into a section whose strings begin below `end`.
fn ask_offset(section: &[u8], end: usize, offset: u32) -> Option<Rule>
    requires { IsAfterLastZero section.now end }
    ensures { IsLeast (OffsetFails section.now offset) result }
{
    if (offset as usize) < end {
        None
    } else {
        Some(Rule::StringEnd)
    }
}

/// What is read once of a unit to check the rules on its strings and addresses.
#[derive(Clone, Copy)]
pub struct UnitContributions<'a> {
    /// The number of the unit.
    pub unit: usize,
    pub head: UnitHead,
    /// The base of its contribution to .debug_str_offsets, if its first entry gives one.
    pub str_base: Option<u32>,
    /// The same in .debug_addr.
    pub addr_base: Option<u32>,
    /// How many slots its contribution to .debug_str_offsets has, if it has one whose header is well-formed.
    pub strings: Option<u64>,
    /// The same in .debug_addr.
    pub addresses: Option<u64>,
    pub sections: Sections<'a>,
    /// The offset in .debug_str after its last zero byte.
    pub str_end: usize,
    /// The same in .debug_line_str.
    pub line_str_end: usize,
}

impl UnitContributions<'_> {
    /// The rule at a base on the unit's first entry.
    #[inline(never)]
    fn ask_base(&self, attribute: Attribute, base: u32) -> Option<Rule>
        requires { IsReady self.now }
        ensures { IsLeast (BaseFails self.now.sections self.now.head.header attribute base) result }
    {
        let size = self.head.header.address_size;
        let (count, rule) = match attribute {
            DW_AT_str_offsets_base => (
                count_slots(self.sections.str_offsets, 4, 0, base),
                Rule::BadStrBase,
            ),
            DW_AT_addr_base => (
                count_slots(self.sections.addr, size, size, base),
                Rule::BadAddrBase,
            ),
            _ => return None,
        };
        match count {
            Some(_) => None,
            None => Some(rule),
        }
    }

    /// The rule at a string by its offset into .debug_str.
    pub(crate) fn ask_text(&self, offset: u32) -> Option<Rule>
        requires { IsReady self.now }
        ensures { IsLeast (OffsetFails self.now.sections.str.now offset) result }
    {
        ask_offset(self.sections.str, self.str_end, offset)
    }

    /// The rules at an indexed string.
    #[inline(never)]
    pub(crate) fn ask_string(&self, index: u64) -> Option<Rule>
        requires { IsReady self.now }
        ensures { IsLeast (StringIndexFails self.now.sections self.now.str_base index) result }
    {
        match (self.str_base, self.strings) {
            (None, _) => Some(Rule::BadStrBase),
            (Some(_), None) => None,
            (Some(base), Some(count)) => {
                if index >= count {
                    return Some(Rule::StrIndex);
                }
                let at = base as usize + 4 * index as usize;
                let offset = number(self.sections.str_offsets, at, 4);
                if offset < self.str_end as u64 {
                    None
                } else {
                    Some(Rule::StringEnd)
                }
            }
        }
    }

    /// The rules at an indexed address.
    #[inline(never)]
    pub(crate) fn ask_address(&self, index: u64) -> Option<Rule>
        requires { IsReady self.now }
        ensures { IsLeast (AddressIndexFails self.now.sections self.now.head.header self.now.addr_base index) result }
    {
        match (self.addr_base, self.addresses) {
            (None, _) => Some(Rule::BadAddrBase),
            (Some(_), Some(count)) if index >= count => Some(Rule::AddrIndex),
            _ => None,
        }
    }

    /// The rule on strings and addresses that fails at an attribute.
    #[inline(always)]
    pub fn ask(&self, head: &EntryHead, attribute: Attribute, value: &Value<'_>) -> Option<Rule>
        requires { IsReady self.now }
        ensures { IsLeast (FailsByTexts self.now head.now attribute (view value.now)) result }
    {
        match *value {
            Value::Str(offset) => self.ask_text(offset),
            Value::LineStr(offset) => ask_offset(self.sections.line_str, self.line_str_end, offset),
            Value::StrIndex(index) => self.ask_string(index),
            Value::AddrIndex(index) => self.ask_address(index),
            Value::SecOffset(base)
                if head.parent.is_none() && self.head.header.kind.version() != 4 => {
                self.ask_base(attribute, base)
            }
            _ => None,
        }
    }
}

/// Reads what is needed of a unit, if the strings of the two sections end at these offsets.
pub fn read_texts<'a>(
    entries: &Entries<'a>,
    str_end: usize,
    line_str_end: usize,
    number: usize,
) -> UnitContributions<'a>
    requires str_end { IsAfterLastZero (sections_of entries.now).str.now str_end }
    requires line_str_end { IsAfterLastZero (sections_of entries.now).line_str.now line_str_end }
    requires number { number < length (units_of entries.now) }
    ensures texts { AreContributions entries.now result }
    ensures unit { result.unit ≡ number }
{
    let sections = *entries.sections();
    let head = entries.unit(number);
    let size = head.header.address_size;
    let str_base = base_in_unit(entries, number, DW_AT_str_offsets_base);
    let addr_base = base_in_unit(entries, number, DW_AT_addr_base);
    UnitContributions {
        unit: number,
        head,
        str_base,
        addr_base,
        strings: count_named(sections.str_offsets, 4, 0, str_base),
        addresses: count_named(sections.addr, size, size, addr_base),
        sections,
        str_end,
        line_str_end,
    }
}

/// Keeps what was read of a unit, or reads it of the next, if that is another.
pub fn keep_texts<'a>(texts: &mut UnitContributions<'a>, entries: &Entries<'a>, next: usize)
    requires next { next < length (units_of entries.now) }
    requires texts { AreContributions entries.now texts.old }
    ensures texts { AreContributions entries.now texts.new }
    ensures unit { texts.new.unit ≡ next }
{
    if next != texts.unit {
        *texts = read_texts(entries, texts.str_end, texts.line_str_end, next);
    }
}

/// The first failure of the rules on strings and addresses at an entry.
fn check_entry(
    texts: &UnitContributions<'_>,
    entries: &Entries<'_>,
    id: EntryId,
) -> Result<(), PlainFault>
    requires id { id < length (all_entries entries.now) }
    requires texts { AreContributions entries.now texts.now }
    requires unit { texts.now.unit ≡ (entry_of (all_entries entries.now) id).unit }
    ensures ok { OnOk result (HasNone (AtHead (FailsByText entries.now) (entry_of (all_entries entries.now) id))) }
    ensures err { IfErr result (IsFirst (AtHead (FailsByText entries.now) (entry_of (all_entries entries.now) id))) }
{
    let entry = entries.at(id);
    let head = entry.head();
    let mut leading = entry.leading();
    while let Some(led) = leading.take() {
        let item = led.item();
        if let Some(rule) = texts.ask(&head, item.0, &item.1) {
            return Err(plain_fault_at(&head, item.0, rule));
        }
    }
    Ok(())
}

/// Finds the first base, index or offset at which there is no contribution, string or address: one of the faults
/// `BadStrBase`, `StrIndex`, `StringEnd`, `BadAddrBase` and `AddrIndex` at the entry's offset. It allocates nothing, so
/// it does not run out of memory.
pub fn check_strings(alloc: Global, entries: &Entries<'_>) -> Result<(), Fault>
    ensures ok { OnOk result (HasNone (StringFailures (sections_of entries.now) (units_of entries.now))) }
    ensures fault { IfErr result
        (IsPlainFault (IsFirst (StringFailures (sections_of entries.now) (units_of entries.now)))) }
{
    if entries.unit_count() == 0 {
        return Ok(());
    }
    let sections = entries.sections();
    let str_end = end_of_texts(sections.str);
    let line_str_end = end_of_texts(sections.line_str);
    let mut texts = read_texts(entries, str_end, line_str_end, 0);
    for number in 0..entries.count() {
        let id = entries.id(number);
        keep_texts(&mut texts, entries, entries.unit_of(id));
        if let Err(broken) = check_entry(&texts, entries, id) {
            return Err(broken.into_fault(alloc));
        }
    }
    Ok(())
}
