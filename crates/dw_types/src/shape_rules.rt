//! The rules on the types of arrays and members and on counts (DWARF 5, 5.5, 5.7.6 and 5.13).

ghost use Rattle.std.specs.Prelude.{◌≡◌, ◌<◌, true, length, IfOk, OnOk};
ghost use Rattle.dw_forms.specs.KeptDecls.{decl_view};
ghost use Rattle.dw_entries.specs.Failures.{IsLeast};
ghost use Rattle.dw_types.specs.Entries.{entry_in};
ghost use Rattle.dw_types.specs.Held.{entries_held, units_held};
ghost use Rattle.dw_types.specs.Shapes.{fails_shape, has_bad_count, is_defined_member, is_plain, misses_type};
ghost use Rattle.dw_types.specs.Shapes.{sight, stands_alone};

use crate::count::count_of;
use crate::kind::is_array;
use crate::linked::LinkedEntries;
use dw_entries::constants::*;
use dw_entries::{EntryAt, EntryId, Rule};
use dw_forms::DeclAt;
use dw_links::Constant;
use std::alloc::{AllocError, Global};

/// Whether an entry takes nothing over from another one.
#[inline(always)]
pub(crate) fn stands_alone(entry: &EntryAt<'_, '_>) -> bool
    ensures { result ≡ stands_alone entry.now }
{
    !Constant::read(entry, DW_AT_specification).is_present()
        && !Constant::read(entry, DW_AT_abstract_origin).is_present()
}

/// Whether an entry is a member that is not declared.
#[inline(always)]
pub(crate) fn is_defined_member(entries: &mut LinkedEntries<'_, '_>, id: EntryId) -> bool
    requires { id < length (entries_held entries.old) }
    ensures same { units_held entries.new ≡ units_held entries.old }
    ensures member { result ≡ is_defined_member (entry_in (units_held entries.old) id) }
{
    matches!(entries.decl(id).tag(), DW_TAG_member) && !entries.is_declared(id)
}

/// Whether an entry is a plain member.
pub(crate) fn is_plain(
    alloc: Global,
    entries: &mut LinkedEntries<'_, '_>,
    id: EntryId,
) -> Result<bool, AllocError>
    requires { id < length (entries_held entries.old) }
    ensures same { OnOk result (units_held entries.new ≡ units_held entries.old) }
    ensures plain { IfOk result (λ plain. plain ≡ is_plain (units_held entries.old) id) }
{
    if !is_defined_member(entries, id) {
        return Ok(false);
    }
    entries.is_in_members(alloc, id)
}

/// Whether an entry with this tag is an array or a plain member with no type, and takes none over.
#[inline(always)]
#[tactic(auto, using(crate::proofs::ShapeLemmas::passes_any))]
fn misses_type(
    alloc: Global,
    entries: &mut LinkedEntries<'_, '_>,
    id: EntryId,
    tag: Tag,
) -> Result<bool, AllocError>
    requires id { id < length (entries_held entries.old) }
    requires tag { tag ≡ (entry_in (units_held entries.old) id).head.decl.tag }
    ensures same { OnOk result (units_held entries.new ≡ units_held entries.old) }
    ensures misses { IfOk result (λ misses. misses ≡ misses_type (sight (units_held entries.old) id)) }
{
    if !matches!(tag, DW_TAG_array_type | DW_TAG_member) || entries.type_target(id).is_some() {
        return Ok(false);
    }
    let entry = entries.at(id);
    if !stands_alone(&entry) {
        return Ok(false);
    }
    if is_array(&entry) {
        return Ok(true);
    }
    is_plain(alloc, entries, id)
}

/// Whether an entry with this tag is a dimension with a known count below 0.
#[inline(always)]
fn has_bad_count(entries: &mut LinkedEntries<'_, '_>, id: EntryId, tag: Tag) -> bool
    requires id { id < length (entries_held entries.old) }
    requires tag { tag ≡ (entry_in (units_held entries.old) id).head.decl.tag }
    ensures same { units_held entries.new ≡ units_held entries.old }
    ensures bad { result ≡ has_bad_count (sight (units_held entries.old) id) }
{
    if !matches!(tag, DW_TAG_subrange_type) {
        return false;
    }
    let entry = entries.at(id);
    matches!(count_of(entries, id, &entry), Some(n) if n < 0) && entries.is_in_array(id)
}

/// The rule on shapes that an entry with this declaration violates: the one with the least number. None but types and
/// members violate one.
#[inline(always)]
pub(crate) fn broken_shape(
    alloc: Global,
    entries: &mut LinkedEntries<'_, '_>,
    id: EntryId,
    decl: DeclAt<'_>,
) -> Result<Option<Rule>, AllocError>
    requires id { id < length (entries_held entries.old) }
    requires decl { decl_view decl ≡ (entry_in (units_held entries.old) id).head.decl }
    ensures same { OnOk result (units_held entries.new ≡ units_held entries.old) }
    ensures least { IfOk result (IsLeast (λ rule. fails_shape (units_held entries.old) id rule ≡ true)) }
{
    if misses_type(alloc, entries, id, decl.tag())? {
        return Ok(Some(Rule::MissingType));
    }
    if has_bad_count(entries, id, decl.tag()) {
        return Ok(Some(Rule::BadCount));
    }
    Ok(None)
}
