//! What is true of the values of entries if no rule fails.

ghost use Rattle.std.specs.Prelude.{ℕ, ◌≡◌, ◌↔◌, List, Some};
ghost use Rattle.dw_elf.specs.declared.sections.Sections.{Sections};
ghost use Rattle.dw_forms.specs.Value.{ref_info, ref_unit, ref_sig};
ghost use Rattle.dw_entries.specs.Units.{DebugUnit, Spells};
ghost use Rattle.dw_entries.specs.Entries.{entries_of, placed};
ghost use Rattle.dw_entries.specs.Failures.{HasNone};
ghost use Rattle.dw_entries.specs.EntriesAt.{IsEntryAt, ReachesInUnit};
ghost use Rattle.dw_links.specs.References.{ReferenceFailures};
ghost use Rattle.dw_links.specs.Signatures.{HaveDistinctSignatures};
ghost use Rattle.dw_links.specs.Strings.{StringFailures};
ghost use Rattle.dw_links.specs.Targets.{reach_of};
ghost use Rattle.dw_links.specs.LinkLaws.{ReachesBySignature, HaveTargets, HaveTypes, HasTexts};

/// The target of a reference, by its form: the one entry that begins at an offset of .debug_info; that begins at an
/// offset from the header of the value's unit; or at the type offset of the one type unit with a signature.
pub fn one_entry_is_reached()
    ensures info { («abbrev» info : List ℕ) (units : List DebugUnit) → Spells «abbrev» units info
        → (unit offset id : ℕ) → (reach_of (entries_of units) (placed units) unit (ref_info offset) ≡ Some id)
        ↔ IsEntryAt (entries_of units) offset id }
    ensures unit { («abbrev» info : List ℕ) (units : List DebugUnit) → Spells «abbrev» units info
        → (unit offset id : ℕ) → (reach_of (entries_of units) (placed units) unit (ref_unit offset) ≡ Some id)
        ↔ ReachesInUnit (entries_of units) (placed units) unit offset id }
    ensures signature { («abbrev» info : List ℕ) (units : List DebugUnit) → Spells «abbrev» units info
        → HaveDistinctSignatures (placed units) → (unit signature id : ℕ)
        → (reach_of (entries_of units) (placed units) unit (ref_sig signature) ≡ Some id)
        ↔ ReachesBySignature (entries_of units) (placed units) signature id }
{}

/// If no rule on references fails, each reference has a target, and each type unit a type and a signature of its
/// own.
pub fn references_have_targets()
    ensures targets { («abbrev» info : List ℕ) (units : List DebugUnit) → Spells «abbrev» units info
        → HasNone (ReferenceFailures units) → HaveTargets units }
    ensures types { («abbrev» info : List ℕ) (units : List DebugUnit) → Spells «abbrev» units info
        → HasNone (ReferenceFailures units) → HaveTypes units }
{}

/// If no rule on strings and addresses fails, each string ends in its section, and each index has its slot.
pub fn strings_have_texts()
    ensures { (s : Sections) (units : List DebugUnit) → HasNone (StringFailures s units) → HasTexts s units }
{}
