//! The rules on sizes: which are wrong, and whether a plain member ends inside its container (DWARF 5, 5.1, 5.5, 5.7
//! and 5.8).

ghost use Rattle.std.specs.Prelude.{◌≡◌, ◌^◌, ◌<◌, ◌≤◌, ◌≤ℤ◌, ℕ, pos, List, false, true, length, IfOk, IfSome, OnOk};
ghost use Rattle.dw_forms.specs.Codes.{is_type_tag};
ghost use Rattle.dw_entries.specs.Entries.{entries_of};
ghost use Rattle.dw_entries.specs.Failures.{IsLeast};
ghost use Rattle.dw_entries.specs.Units.{DebugUnit};
ghost use Rattle.dw_links.specs.Constants.{natural_of};
ghost use Rattle.dw_types.specs.SizeFaults.{differ, fails_size, has_no_size, has_wrong_size, is_too_great};
ghost use Rattle.dw_types.specs.SizeFaults.{type_may_fail, reads_own, wants_own};
ghost use Rattle.dw_types.specs.Sizes.{ObeysSizeLines};
ghost use Rattle.dw_types.specs.SizeTables.{size_at, HasSizePlaces, Size};
ghost use Rattle.dw_types.specs.StoredSizes.{ObeysCappedLines, TellAsked};
ghost use Rattle.dw_types.specs.Extents.{bits_end_past, end_past, ends_past, is_outside, start_of};
ghost use Rattle.dw_types.specs.Entries.{byte_size, entry_in};
ghost use Rattle.dw_types.specs.Held.{entries_held, units_held};
ghost use Rattle.dw_types.specs.TypeFailures.{IsFirstFound};
ghost use Rattle.dw_types.specs.Kinds.{has_members, kind_of};

use crate::flags::Flags;
use crate::kind::{Kind, is_enumeration, kind_of};
use crate::linked::LinkedEntries;
use crate::shape_rules::{is_plain, stands_alone};
use crate::size_table::SizeTable;
use dw_entries::constants::*;
use dw_entries::{EntryAt, EntryId, Rule};
use dw_links::Constant;
use std::alloc::{AllocError, Global};

/// Whether so many bits from a bit on end past some bytes, or one of the numbers is negative.
fn bits_end_past(bytes: u64, size: Option<u64>, start: Option<u64>) -> bool
    ensures { result ≡ bits_end_past bytes size start }
{
    let (Some(size), Some(start)) = (size, start) else {
        return true;
    };
    u128::from(bytes) * 8 < u128::from(size) + u128::from(start)
}

/// Whether so many bytes from a bit on end past some bytes, or that bit is negative.
fn end_past(bytes: u64, start: i128, size: u64) -> bool
    requires { start ≤ℤ pos (2 ^ 70) }
    ensures { result ≡ end_past bytes start size }
{
    if start < 0 {
        return true;
    }
    u128::from(bytes) * 8 < start as u128 + u128::from(size) * 8
}

impl Kind {
    /// Whether the size of such an entry reads its own byte size.
    fn reads_own(self) -> bool
        ensures { result ≡ reads_own self }
    {
        matches!(
            self,
            Kind::OwnSized | Kind::Pointer | Kind::Enumeration | Kind::Array
        )
    }
}

/// Whether two sizes are known and not the same.
fn differ(a: Option<u64>, b: Option<u64>) -> bool
    ensures { result ≡ differ a b }
{
    match (a, b) {
        (Some(a), Some(b)) => a != b,
        _ => false,
    }
}

/// The bit at which a member starts, if it is known.
#[inline(always)]
fn start_of(member: &EntryAt<'_, '_>) -> Option<i128>
    ensures value { result ≡ start_of member.now }
    ensures small { IfSome result (λ n. n ≤ℤ pos (2 ^ 70)) }
{
    let location = Constant::read(member, DW_AT_data_member_location);
    if location.is_present() {
        return Some(location.number()? * 8);
    }
    let offset = Constant::read(member, DW_AT_data_bit_offset);
    if offset.is_present() {
        return offset.number();
    }
    Some(0)
}

/// Whether a member, whose type has a size, ends past the bytes of its container.
#[inline(always)]
fn ends_past(member: &EntryAt<'_, '_>, bytes: u64, size: Option<u64>) -> bool
    ensures { result ≡ ends_past bytes member.now size }
{
    let bit_size = Constant::read(member, DW_AT_bit_size);
    if bit_size.is_present() {
        let offset = Constant::read(member, DW_AT_data_bit_offset);
        return bit_size.number().is_some()
            && offset.number().is_some()
            && bits_end_past(bytes, bit_size.natural(), offset.natural());
    }
    match (start_of(member), size) {
        (Some(start), Some(size)) => end_past(bytes, start, size),
        _ => false,
    }
}

/// Whether something is wrong where the byte size of an entry of this kind is absent.
#[inline(always)]
fn wants_own(entry: &EntryAt<'_, '_>, kind: Kind) -> bool
    requires { kind ≡ kind_of entry.now }
    ensures { result ≡ wants_own entry.now }
{
    match entry.tag() {
        DW_TAG_base_type => !Constant::read(entry, DW_AT_bit_size).is_present(),
        DW_TAG_structure_type | DW_TAG_union_type => !matches!(kind, Kind::Declared)
            && stands_alone(entry),
        DW_TAG_array_type => Constant::read(entry, DW_AT_byte_stride).is_negative(),
        _ => false,
    }
}

/// Whether the byte size of an entry is negative where it is read, or none is there where one is wanted. The entry is
/// looked up here, so that the caller's need not be in memory.
#[inline(never)]
fn has_no_size(entries: &LinkedEntries<'_, '_>, id: EntryId) -> bool
    requires { id < length (entries_held entries.now) }
    ensures { result ≡ has_no_size (entry_in (units_held entries.now) id) }
{
    let entry = entries.look_up(id);
    let kind = kind_of(&entry);
    let size = Constant::read(&entry, DW_AT_byte_size);
    (kind.reads_own() && size.is_negative()) || (!size.is_present() && wants_own(&entry, kind))
}

/// The same of an entry that has this size or none. Where it has a size, its byte size is not read again.
#[inline(always)]
fn lacks_size(entries: &LinkedEntries<'_, '_>, id: EntryId, size: Option<u64>) -> bool
    requires id { id < length (entries_held entries.now) }
    requires size { IfSome size (λ _. has_no_size (entry_in (units_held entries.now) id) ≡ false) }
    ensures { result ≡ has_no_size (entry_in (units_held entries.now) id) }
{
    size.is_none() && has_no_size(entries, id)
}

/// Whether an entry, which is at hand, is an enumeration with neither a byte size nor a type, or with one that is not
/// its type's.
#[inline(always)]
fn has_wrong_size(
    entries: &LinkedEntries<'_, '_>,
    sizes: &SizeTable,
    id: EntryId,
    entry: &EntryAt<'_, '_>,
) -> bool
    requires places { HasSizePlaces (units_held entries.now) sizes.now id }
    requires entry { entry.now ≡ entry_in (units_held entries.now) id }
    ensures { result ≡ has_wrong_size (units_held entries.now) (size_at sizes.now) id }
{
    if !is_enumeration(entry) {
        return false;
    }
    let own = Constant::read(entry, DW_AT_byte_size);
    if !own.is_present() {
        return entries.type_target(id).is_none() && stands_alone(entry);
    }
    differ(own.natural(), sizes.get_to(entries.type_target(id)))
}

/// Whether a size is 2^63 or more.
#[inline(always)]
fn is_too_great(size: Option<u64>) -> bool
    ensures { result ≡ is_too_great size }
{
    matches!(size, Some(size) if size >= 1 << 63)
}

/// The rule on sizes that a type, which is at hand, violates: the one with the least number.
#[inline(always)]
fn broken_type(
    entries: &LinkedEntries<'_, '_>,
    sizes: &SizeTable,
    id: EntryId,
    entry: &EntryAt<'_, '_>,
) -> Option<Rule>
    requires places { HasSizePlaces (units_held entries.now) sizes.now id }
    requires lines { ObeysCappedLines (units_held entries.now) (size_at sizes.now) }
    requires entry { entry.now ≡ entry_in (units_held entries.now) id }
    requires typed { is_type_tag entry.now.head.decl.tag ≡ true }
    ensures { IsLeast (λ rule. fails_size (units_held entries.now) (size_at sizes.now) id rule ≡ true) result }
{
    let size = sizes.get(id);
    if lacks_size(entries, id, size) {
        return Some(Rule::NoSize);
    }
    if is_too_great(size) {
        return Some(Rule::SizeTooGreat);
    }
    if has_wrong_size(entries, sizes, id, entry) {
        return Some(Rule::EnumSize);
    }
    None
}

/// Whether an entry, which is at hand, is a plain member that ends outside its container. What its parent is, is looked
/// up only if it does.
#[inline(always)]
fn is_outside(
    alloc: Global,
    entries: &mut LinkedEntries<'_, '_>,
    sizes: &SizeTable,
    id: EntryId,
    member: &EntryAt<'_, '_>,
) -> Result<bool, AllocError>
    requires places { HasSizePlaces (units_held entries.old) sizes.now id }
    requires member { member.now ≡ entry_in (units_held entries.old) id }
    ensures same { OnOk result (units_held entries.new ≡ units_held entries.old) }
    ensures outside { IfOk result (λ outside. outside ≡ is_outside (units_held entries.old) (size_at sizes.now) id) }
{
    if !matches!(member.tag(), DW_TAG_member) {
        return Ok(false);
    }
    let Some(bytes) = sizes.get_to(entries.parent(id)) else {
        return Ok(false);
    };
    let size = sizes.get_to(entries.type_target(id));
    if !ends_past(member, bytes, size) {
        return Ok(false);
    }
    is_plain(alloc, entries, id)
}

/// The rule on sizes that an entry violates, by the sizes of all: the one with the least number.
#[inline(always)]
fn broken_size(
    alloc: Global,
    entries: &mut LinkedEntries<'_, '_>,
    sizes: &SizeTable,
    id: EntryId,
) -> Result<Option<Rule>, AllocError>
    requires places { HasSizePlaces (units_held entries.old) sizes.now id }
    requires lines { ObeysCappedLines (units_held entries.old) (size_at sizes.now) }
    ensures same { OnOk result (units_held entries.new ≡ units_held entries.old) }
    ensures least { IfOk result
        (IsLeast (λ rule. fails_size (units_held entries.old) (size_at sizes.now) id rule ≡ true)) }
{
    let entry = entries.at(id);
    if entry.is_type() {
        return Ok(broken_type(entries, sizes, id, &entry));
    }
    if is_outside(alloc, entries, sizes, id, &entry)? {
        return Ok(Some(Rule::MemberOutside));
    }
    Ok(None)
}

/// Whether a rule on sizes may fail at a type that has this size or none.
#[inline(always)]
pub(crate) fn may_fail(
    entries: &LinkedEntries<'_, '_>,
    id: EntryId,
    entry: &EntryAt<'_, '_>,
    size: Option<u64>,
) -> bool
    requires id { id < length (entries_held entries.now) }
    requires entry { entry.now ≡ entry_in (units_held entries.now) id }
    requires size { IfSome size (λ _. has_no_size entry.now ≡ false) }
    ensures { result ≡ type_may_fail entry.now size }
{
    lacks_size(entries, id, size)
        || is_too_great(size)
        || matches!(entry.tag(), DW_TAG_enumeration_type)
}

/// The first entry that violates a rule on sizes, by the sizes of all and the flags of those at which one may fail, and
/// its least rule.
pub(crate) fn first_broken(
    alloc: Global,
    entries: &mut LinkedEntries<'_, '_>,
    sizes: &SizeTable,
    asked: &Flags,
) -> Result<Option<(EntryId, Rule)>, AllocError>
    requires long { length sizes.now ≡ length (entries_held entries.old) }
    requires lines { ObeysCappedLines (units_held entries.old) (size_at sizes.now) }
    requires asked { TellAsked (units_held entries.old) (size_at sizes.now) asked.now }
    ensures same { OnOk result (units_held entries.new ≡ units_held entries.old) }
    ensures first { IfOk result
        (IsFirstFound (entries_held entries.old) (fails_size (units_held entries.old) (size_at sizes.now))) }
{
    let count = entries.count();
    let mut node = asked.next(0, count);
    while node < count {
        let id = entries.id(node);
        if let Some(rule) = broken_size(alloc, entries, sizes, id)? {
            return Ok(Some((id, rule)));
        }
        let next = asked.next(node + 1, count);
        node = next;
    }
    Ok(None)
}

/// The size of a structure or union that is not declared is its own byte size. So the container of a plain
/// member, whose size the members are measured by, has the bytes that it says itself.
pub fn container_has_its_own_size()
    ensures { (us : List DebugUnit) (table : ℕ → Size) (node : ℕ)
        → ObeysSizeLines us table → node < length (entries_of us)
        → has_members (entry_in us node) ≡ true → table node ≡ natural_of (byte_size (entry_in us node)) }
{}
