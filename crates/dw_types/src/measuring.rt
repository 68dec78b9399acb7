//! The sizes of all entries, computed in the order of the ranks.

ghost use Rattle.std.specs.Prelude.{◌≡◌, ◌<◌, ◌≤◌, ◌^◌, ◌&&◌, ◌||◌, ℕ, length, nat_eq, slice_set};
ghost use Rattle.std.specs.Prelude.{IfOk, IfErr, IfSome, OnOk};
ghost use Rattle.dw_entries.specs.Failures.{HasNone};
ghost use Rattle.dw_entries.specs.Stopped.{IfPlainFault};
ghost use Rattle.dw_entries.specs.Views.{all_entries, units_of};
ghost use Rattle.dw_types.specs.Sizes.{array_size, size_line, IsSizeTable};
ghost use Rattle.dw_types.specs.SizeTables.{size_at, cap_size, HasSizePlaces, OnlyTypesAreSized};
ghost use Rattle.dw_types.specs.StoredSizes.{ObeysCappedLines, TellAsked};
ghost use Rattle.dw_types.specs.Entries.{entry_in};
ghost use Rattle.dw_types.specs.Held.{entries_held, units_held};
ghost use Rattle.dw_types.specs.Kinds.{kind_of};
ghost use Rattle.dw_types.specs.Orders.{IsOrderOf};
ghost use Rattle.dw_types.specs.SizeFaults.{IsFirstSizeFault, SizeFailures, may_fail};
ghost use Rattle.dw_types.specs.StoredFlags.{flag_at, flag_count};
ghost use Rattle.dw_types.specs.StepFlags.{TellSizeFlags};
ghost use Rattle.dw_types.specs.Steps.{by_value};

use crate::count::{capped_times, count_elements, natural_or};
use crate::flags::{Flags, SizeFlags};
use crate::graph::Order;
use crate::kind::{Kind, kind_of};
use crate::linked::LinkedEntries;
use crate::size_rules::{first_broken, may_fail};
use crate::size_table::SizeTable;
use dw_entries::constants::*;
use dw_entries::{Entries, EntryAt, EntryId, Fault, Stop};
use dw_links::{Constant, Links};
use std::alloc::{AllocError, Global};

/// A size, where 2^63 represents all that is no smaller.
fn capped(size: Option<u64>) -> Option<u64>
    ensures value { result ≡ cap_size (2 ^ 63) size }
    ensures small { IfSome result (λ n. n ≤ 2 ^ 63) }
{
    Some(size?.min(1 << 63))
}

/// The capped size of an array without a byte size of its own: element storage times all counts.
#[inline(always)]
fn capped_array(
    entries: &mut LinkedEntries<'_, '_>,
    sizes: &SizeTable,
    id: EntryId,
    entry: &EntryAt<'_, '_>,
) -> Option<u64>
    requires places { HasSizePlaces (units_held entries.old) sizes.now id }
    requires entry { entry.now ≡ entry_in (units_held entries.old) id }
    ensures same { units_held entries.new ≡ units_held entries.old }
    ensures value { result ≡ cap_size (2 ^ 63) (array_size (units_held entries.old) (size_at sizes.now) id) }
    ensures small { IfSome result (λ n. n ≤ 2 ^ 63) }
{
    if Constant::read(entry, DW_AT_bit_stride).is_present() {
        return None;
    }
    let stride = Constant::read(entry, DW_AT_byte_stride);
    let storage = natural_or(stride, sizes.get_to(entries.type_target(id)));
    let elements = count_elements(entries, id);
    capped_times(storage, elements)
}

/// The capped size of an entry of this kind, by those of others.
#[inline(always)]
fn capped_size(
    entries: &mut LinkedEntries<'_, '_>,
    sizes: &SizeTable,
    id: EntryId,
    entry: &EntryAt<'_, '_>,
    kind: Kind,
) -> Option<u64>
    requires places { HasSizePlaces (units_held entries.old) sizes.now id }
    requires entry { entry.now ≡ entry_in (units_held entries.old) id }
    requires kind { kind ≡ kind_of entry.now }
    ensures same { units_held entries.new ≡ units_held entries.old }
    ensures value { result ≡ cap_size (2 ^ 63) (size_line (units_held entries.old) (size_at sizes.now) id) }
    ensures small { IfSome result (λ n. n ≤ 2 ^ 63) }
{
    match kind {
        Kind::Declared => capped(sizes.get_to(entries.signature_target(id))),
        Kind::OwnSized => capped(Constant::read(entry, DW_AT_byte_size).natural()),
        Kind::Pointer => {
            let own = Constant::read(entry, DW_AT_byte_size);
            capped(natural_or(own, Some(u64::from(entries.address_size(id, entry)))))
        }
        Kind::Alias => capped(sizes.get_to(entries.type_target(id))),
        Kind::Enumeration => {
            let own = Constant::read(entry, DW_AT_byte_size);
            capped(natural_or(own, sizes.get_to(entries.type_target(id))))
        }
        Kind::Array => {
            let own = Constant::read(entry, DW_AT_byte_size);
            capped(natural_or(own, capped_array(entries, sizes, id, entry)))
        }
        Kind::Subroutine | Kind::NoType => None,
    }
}

/// Writes the size of an entry if it is a type, by those of what it holds by value, and sets its flag if a rule on
/// sizes may fail there.
#[inline(always)]
fn measure(
    alloc: Global,
    entries: &mut LinkedEntries<'_, '_>,
    sizes: &mut SizeTable,
    asked: &mut Flags,
    id: EntryId,
) -> Result<(), AllocError>
    requires places { HasSizePlaces (units_held entries.old) sizes.old id }
    requires room { length (entries_held entries.old) < flag_count asked.old }
    requires untyped { OnlyTypesAreSized (units_held entries.old) (size_at sizes.old) }
    ensures same { OnOk result (units_held entries.new ≡ units_held entries.old) }
    ensures size { OnOk result (sizes.new
        ≡ slice_set sizes.old id (cap_size (2 ^ 63) (size_line (units_held entries.old) (size_at sizes.old) id))) }
    ensures room { OnOk result (flag_count asked.new ≡ flag_count asked.old) }
    ensures asked { OnOk result ((k : ℕ) → flag_at asked.new k ≡ ((may_fail (entry_in (units_held entries.old) id)
        (cap_size (2 ^ 63) (size_line (units_held entries.old) (size_at sizes.old) id)) && nat_eq k id)
        || flag_at asked.old k)) }
{
    let decl = entries.decl(id);
    if !decl.is_type() {
        asked.set_if(id.number(), decl.tag() == DW_TAG_member);
        return Ok(());
    }
    let entry = entries.at(id);
    let size = capped_size(entries, sizes, id, &entry, kind_of(&entry));
    asked.set_if(id.number(), may_fail(entries, id, &entry, size));
    sizes.set(alloc, id, size)
}

/// The capped sizes of all entries, and a flag for each at which a rule on sizes may fail. The types without steps are
/// measured first, and then the others in the order of the ranks.
fn measure_all(
    alloc: Global,
    entries: &mut LinkedEntries<'_, '_>,
    order: &Order,
    flags: &SizeFlags,
) -> Result<(SizeTable, Flags), AllocError>
    requires flags { TellSizeFlags (units_held entries.old) flags.now }
    requires order { IsOrderOf (by_value (units_held entries.old)) order.now }
    ensures same { OnOk result (units_held entries.new ≡ units_held entries.old) }
    ensures long { IfOk result (λ made. length made.0 ≡ length (entries_held entries.old)) }
    ensures lines { IfOk result (λ made. ObeysCappedLines (units_held entries.old) (size_at made.0)) }
    ensures asked { IfOk result (λ made. TellAsked (units_held entries.old) (size_at made.0) made.1) }
{
    let mut sizes = SizeTable::none(alloc, entries.count())?;
    let mut asked = flags.members.copy(alloc)?;
    let count = entries.count();
    let mut leaf = flags.leaves.next(0, count);
    let mut rank = order.leaves();
    while leaf < count || rank < order.count() {
        let node = if leaf < count { leaf } else { order.node(rank) };
        let id = entries.id(node);
        measure(alloc, entries, &mut sizes, &mut asked, id)?;
        if leaf < count {
            let next = flags.leaves.next(leaf + 1, count);
            leaf = next;
        } else {
            rank += 1;
        }
    }
    Ok((sizes, asked))
}

/// The one table of sizes, or the first fault of sizes, by flags of the entries.
fn sizes_by(
    alloc: Global,
    linked: &mut LinkedEntries<'_, '_>,
    order: &Order,
    flags: &SizeFlags,
) -> Result<SizeTable, Stop<Fault>>
    requires flags { TellSizeFlags (units_held linked.old) flags.now }
    requires order { IsOrderOf (by_value (units_held linked.old)) order.now }
    ensures long { IfOk result (λ table. length table ≡ length (entries_held linked.old)) }
    ensures only { IfOk result (λ table. IsSizeTable (units_held linked.old) (size_at table)) }
    ensures sound { IfOk result (λ table. HasNone (SizeFailures (units_held linked.old) (size_at table))) }
    ensures fault { IfErr result (IfPlainFault (IsFirstSizeFault (units_held linked.old))) }
{
    let (sizes, asked) = measure_all(alloc, linked, order, flags)?;
    if let Some(found) = first_broken(alloc, linked, &sizes, &asked)? {
        return Err(linked.fault(alloc, found.0, found.1));
    }
    Ok(sizes)
}

/// The one table of sizes, or the first fault of sizes. The order is that of the graph of the entries' steps by value.
pub fn sizes(
    alloc: Global,
    entries: &Entries<'_>,
    links: &Links<'_, '_>,
    order: &Order,
) -> Result<SizeTable, Stop<Fault>>
    requires entries { links.now.entries.now ≡ entries.now }
    requires order { IsOrderOf (by_value (units_of links.now.entries.now)) order.now }
    ensures long { IfOk result (λ table. length table ≡ length (all_entries links.now.entries.now)) }
    ensures only { IfOk result (λ table. IsSizeTable (units_of links.now.entries.now) (size_at table)) }
    ensures sound { IfOk result (λ table. HasNone (SizeFailures (units_of links.now.entries.now) (size_at table))) }
    ensures fault { IfErr result (IfPlainFault (IsFirstSizeFault (units_of links.now.entries.now))) }
{
    let mut linked = LinkedEntries::new(entries, links.tables());
    let flags = SizeFlags::read(alloc, &mut linked)?;
    sizes_by(alloc, &mut linked, order, &flags)
}

/// The same, by the flags that were found with the steps, so that no entry is looked at again for these.
pub fn sizes_with(
    alloc: Global,
    links: &Links<'_, '_>,
    order: &Order,
    flags: &SizeFlags,
) -> Result<SizeTable, Stop<Fault>>
    requires flags { TellSizeFlags (units_of links.now.entries.now) flags.now }
    requires order { IsOrderOf (by_value (units_of links.now.entries.now)) order.now }
    ensures long { IfOk result (λ table. length table ≡ length (all_entries links.now.entries.now)) }
    ensures only { IfOk result (λ table. IsSizeTable (units_of links.now.entries.now) (size_at table)) }
    ensures sound { IfOk result (λ table. HasNone (SizeFailures (units_of links.now.entries.now) (size_at table))) }
    ensures fault { IfErr result (IfPlainFault (IsFirstSizeFault (units_of links.now.entries.now))) }
{
    let mut linked = LinkedEntries::new(links.entries, links.tables());
    sizes_by(alloc, &mut linked, order, flags)
}
