//! The count of a dimension, and how many elements an array has: the product of the counts of its dimensions (DWARF 5,
//! 5.5 and 5.13).

ghost use Rattle.std.specs.Prelude.{◌≡◌, ◌≤◌, ◌^◌, ◌<◌, length, IfSome};
ghost use Rattle.dw_entries.specs.Views.{all_entries, units_of};
ghost use Rattle.dw_links.specs.Constants.{IsOf64Bits};
ghost use Rattle.dw_links.specs.Tables.{AreTables};
ghost use Rattle.dw_types.specs.Counts.{count_at, count_from, count_of};
ghost use Rattle.dw_types.specs.Counts.{known_natural, lower_of, reads_bounds, upper_of};
ghost use Rattle.dw_types.specs.Entries.{entry_in};
ghost use Rattle.dw_types.specs.Held.{entries_held, units_held};
ghost use Rattle.dw_types.specs.SizeTables.{cap_size};
ghost use Rattle.dw_types.specs.Sizes.{constant_or, element_count, factor_of, times};

use crate::kind::is_subrange;
use crate::linked::LinkedEntries;
use dw_entries::constants::*;
use dw_entries::{Entries, EntryAt, EntryId};
use dw_links::{Constant, LinkTables};

/// A number of 0 or more, or another size where the attribute is absent.
pub(crate) fn natural_or(constant: Constant, other: Option<u64>) -> Option<u64>
    ensures { result ≡ constant_or constant other }
{
    match constant {
        Constant::Absent => other,
        _ => constant.natural(),
    }
}

/// Whether bounds are read in a unit of this language. This project's choice: they are where no
/// language is named, or one whose default lower bound is 0 and which the list has (DWARF 5, 7.12).
fn reads_bounds(language: Constant) -> bool
    ensures { result ≡ reads_bounds language }
{
    if !language.is_present() {
        return true;
    }
    match language.natural() {
        Some(code) => code <= 0xffff
            && matches!(
                Language(code as u16),
                DW_LANG_C89
                    | DW_LANG_C
                    | DW_LANG_C_plus_plus
                    | DW_LANG_C99
                    | DW_LANG_C_plus_plus_11
                    | DW_LANG_Rust
                    | DW_LANG_C11
                    | DW_LANG_C_plus_plus_14
            ),
        None => false,
    }
}

/// The upper bound. This project's choice: the greatest number of 64 bits is read as -1.
fn upper_bound(bound: Constant) -> Option<i128>
    ensures value { result ≡ upper_of bound }
    ensures range { IfSome result IsOf64Bits }
{
    match bound {
        Constant::Unsigned(u64::MAX) => Some(-1),
        _ => bound.number(),
    }
}

/// The lower bound, 0 where it is absent.
fn lower_bound(bound: Constant) -> Option<i128>
    ensures value { result ≡ lower_of bound }
    ensures range { IfSome result IsOf64Bits }
{
    match bound {
        Constant::Absent => Some(0),
        _ => bound.number(),
    }
}

/// The count that a count attribute gives, or else two bounds in a unit of a language. It may be below 0.
fn count_from(count: Constant, language: Constant, upper: Constant, lower: Constant) -> Option<i128>
    ensures { result ≡ count_from count language upper lower }
{
    if count.is_present() {
        return count.number();
    }
    if !reads_bounds(language) {
        return None;
    }
    let (upper, lower) = (upper_bound(upper)?, lower_bound(lower)?);
    Some(upper - lower + 1)
}

/// A count, if it is known and 0 or more.
fn known_natural(count: Option<i128>) -> Option<u128>
    ensures { result ≡ known_natural count }
{
    let n = count?;
    if n < 0 { None } else { Some(n as u128) }
}

/// The count of a dimension. It may be below 0.
#[inline(always)]
pub(crate) fn count_of(
    entries: &LinkedEntries<'_, '_>,
    id: EntryId,
    entry: &EntryAt<'_, '_>,
) -> Option<i128>
    requires { entry.now ≡ entry_in (units_held entries.now) id }
    ensures { result ≡ count_of (units_held entries.now) id }
{
    let count = Constant::read(entry, DW_AT_count);
    if count.is_present() {
        return count.number();
    }
    count_from(
        count,
        entries.language(entry),
        Constant::read(entry, DW_AT_upper_bound),
        Constant::read(entry, DW_AT_lower_bound),
    )
}

/// The known count of a dimension, and none for any other entry.
pub fn count_at(entries: &Entries<'_>, tables: &LinkTables, id: EntryId) -> Option<u128>
    requires id { id < length (all_entries entries.now) }
    requires tables { AreTables entries.now tables.now }
    ensures { result ≡ count_at (units_of entries.now) id }
{
    let mut linked = LinkedEntries::new(entries, tables);
    let entry = linked.at(id);
    if !is_subrange(&entry) || !linked.is_in_array(id) {
        return None;
    }
    known_natural(count_of(&linked, id, &entry))
}

/// By how much an entry, a child of an array, multiplies the number of elements. An index of another kind, and a
/// stride on a dimension, leave it unknown. 2^63 represents each factor that is no smaller.
#[inline(always)]
fn capped_factor(
    entries: &LinkedEntries<'_, '_>,
    id: EntryId,
    entry: &EntryAt<'_, '_>,
) -> Option<u64>
    requires { entry.now ≡ entry_in (units_held entries.now) id }
    ensures { result ≡ cap_size (2 ^ 63) (factor_of (units_held entries.now) id) }
{
    match entry.tag() {
        DW_TAG_enumeration_type | DW_TAG_generic_subrange => None,
        DW_TAG_subrange_type => {
            if Constant::read(entry, DW_AT_bit_stride).is_present()
                || Constant::read(entry, DW_AT_byte_stride).is_present()
            {
                return None;
            }
            let count = known_natural(count_of(entries, id, entry))?;
            Some(count.min(1 << 63) as u64)
        }
        _ => Some(1),
    }
}

/// The product where both are known. 2^63 represents each product that is no smaller.
pub(crate) fn capped_times(a: Option<u64>, b: Option<u64>) -> Option<u64>
    ensures value { result ≡ cap_size (2 ^ 63) (times a b) }
    ensures small { IfSome result (λ n. n ≤ 2 ^ 63) }
{
    let (a, b) = (a?, b?);
    Some((u128::from(a) * u128::from(b)).min(1 << 63) as u64)
}

/// How many elements the children of an entry give, were it an array, if it is known.
pub(crate) fn count_elements(entries: &mut LinkedEntries<'_, '_>, id: EntryId) -> Option<u64>
    requires { id < length (entries_held entries.old) }
    ensures same { units_held entries.new ≡ units_held entries.old }
    ensures counted { result ≡ cap_size (2 ^ 63) (element_count (units_held entries.old) id) }
{
    let mut product = Some(1);
    let mut has_dimension = false;
    for child in entries.children(id) {
        let entry = entries.at(child);
        product = capped_times(product, capped_factor(entries, child, &entry));
        has_dimension |= is_subrange(&entry);
    }
    if has_dimension { product } else { None }
}
