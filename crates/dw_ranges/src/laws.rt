//! Laws of the definitions, which callers may cite: each is proved as the contract of an empty function.

ghost use Rattle.std.specs.Prelude.{◌≡◌, ◌++◌, ◌↔◌, ℕ, List, All, Any, Contains, Option};
ghost use Rattle.dw_entries.specs.declared.entries.Entries.{Entries as AnyEntries};
ghost use Rattle.dw_ranges.specs.Addresses.{IsBounded};
ghost use Rattle.dw_ranges.specs.Areas.{AreAreas, Has};
ghost use Rattle.dw_ranges.specs.Files.{AreFunctionsAt, FileViolates, HasFile};
ghost use Rattle.dw_ranges.specs.Functions.{HasFunctions, Known as AnyKnown, Violates};
ghost use Rattle.dw_ranges.specs.RangeLists.{SpellsList, ListFails};
ghost use Rattle.dw_ranges.specs.Spans.{AreNested, AreOrdered, HasOne, IsChain, IsInSpan};
ghost use Rattle.dw_ranges.specs.declared.addresses.UnitAddresses.{UnitAddresses as AnyUnitAddresses};
ghost use Rattle.dw_ranges.specs.declared.bounds.RangeSections.{RangeSections as AnySections};
ghost use Rattle.dw_ranges.specs.declared.fault.ListFault.{ListFault as AnyListFault};
ghost use Rattle.dw_ranges.specs.declared.fault.RangeFault.{RangeFault as AnyRangeFault};
ghost use Rattle.dw_ranges.specs.declared.file.FileFunctions.{FileFunctions as AnyFile};
ghost use Rattle.dw_ranges.specs.declared.range.Range.{Range as AnyRange};
ghost use Rattle.dw_ranges.specs.declared.spans.Span.{Span as AnySpan};
ghost use Rattle.dw_ranges.specs.declared.totals.Totals.{Totals as AnyTotals};

/// No range list begins another, and there is one fault where no list is at an offset.
pub fn range_lists_are_apart()
    ensures apart { (unit : AnyUnitAddresses) (end offset : ℕ) (a b x y : List ℕ) (p q : List AnyRange)
        → SpellsList unit end offset a p → SpellsList unit end offset b q → a ++ x ≡ b ++ y → (a ≡ b) × (p ≡ q) }
    ensures one_fault { (unit : AnyUnitAddresses) (section : List ℕ) (offset : ℕ) (f g : AnyListFault)
        → ListFails unit section offset f → ListFails unit section offset g → f ≡ g }
{}

/// No range of a list ends before it starts or passes the greatest address.
pub fn ranges_are_bounded()
    ensures { (unit : AnyUnitAddresses) (end offset : ℕ) (text : List ℕ) (ranges : List AnyRange)
        → SpellsList unit end offset text ranges → All (IsBounded unit.address_size) ranges }
{}

/// The functions whose ranges have an address are those of the chain that `functions_at` returns, if at most one of
/// them is not inlined, and if each inlined one has only addresses of the function that it is inlined in.
pub fn functions_are_one_chain()
    ensures only { (spans : List AnySpan) (a : ℕ) (fs : List ℕ) → IsChain spans 0 a fs → (f : ℕ) → Contains fs f
        → Any (λ s. (s.function ≡ f) × IsInSpan a s) spans }
    ensures every { (spans : List AnySpan) (a : ℕ) (fs : List ℕ) → AreOrdered spans → AreNested spans → HasOne spans a
        → IsChain spans 0 a fs → (s : AnySpan) → Contains spans s → IsInSpan a s → Contains fs s.function }
    ensures one { (spans : List AnySpan) (a : ℕ) (fs gs : List ℕ) → AreOrdered spans → HasOne spans a
        → IsChain spans 0 a fs → IsChain spans 0 a gs → fs ≡ gs }
{}

/// Areas that have the same addresses are the same.
pub fn areas_are_unique()
    ensures { (xs ys : List AnyRange) → AreAreas xs → AreAreas ys → ((a : ℕ) → Has xs a ↔ Has ys a) → xs ≡ ys }
{}

/// Each function of a unit whose ranges have an address is on the chain that `functions_at` returns, if one function
/// that is not inlined has the address, and so no linker has put two functions in one place.
pub fn functions_of_a_unit_are_one_chain()
    ensures nested { (sections : AnySections) (code : List AnyRange) (entries : AnyEntries) (number : ℕ)
        (before : AnyTotals) (known : AnyKnown) → HasFunctions sections code entries number before known
        → AreNested known.spans }
    ensures every { (sections : AnySections) (code : List AnyRange) (entries : AnyEntries) (number : ℕ)
        (before : AnyTotals) (known : AnyKnown) → HasFunctions sections code entries number before known
        → (a : ℕ) (fs : List ℕ) → HasOne known.spans a → IsChain known.spans 0 a fs
        → (s : AnySpan) → Contains known.spans s → IsInSpan a s → Contains fs s.function }
{}

/// A unit has one list of functions, or one rule that it violates first.
pub fn functions_are_unique()
    ensures one { (sections : AnySections) (code : List AnyRange) (entries : AnyEntries) (number : ℕ)
        (before : AnyTotals) (known other : AnyKnown) → HasFunctions sections code entries number before known
        → HasFunctions sections code entries number before other → known ≡ other }
    ensures no_fault { (sections : AnySections) (code : List AnyRange) (entries : AnyEntries) (number : ℕ)
        (before : AnyTotals) (known : AnyKnown) (fault : AnyRangeFault)
        → HasFunctions sections code entries number before known
        → Violates sections code entries number before fault → ⊥ }
    ensures one_fault { (sections : AnySections) (code : List AnyRange) (entries : AnyEntries) (number : ℕ)
        (before : AnyTotals) (fault other : AnyRangeFault) → Violates sections code entries number before fault
        → Violates sections code entries number before other → fault ≡ other }
{}

/// A file has one list of the functions of its units, one count of them, and one unit for each address, or one rule
/// that it violates first.
pub fn functions_of_a_file_are_unique()
    ensures units { (sections : AnySections) (code : List AnyRange) (entries : AnyEntries) (budget : ℕ)
        (file other : AnyFile) (one : HasFile sections code entries budget file)
        (two : HasFile sections code entries budget other) → one.units ≡ two.units }
    ensures totals { (sections : AnySections) (code : List AnyRange) (entries : AnyEntries) (budget : ℕ)
        (file other : AnyFile) → HasFile sections code entries budget file
        → HasFile sections code entries budget other → file.totals ≡ other.totals }
    ensures unit { (units : List AnyKnown) (a : ℕ) (unit other : Option ℕ) (fs gs : List ℕ)
        → AreFunctionsAt units a unit fs → AreFunctionsAt units a other gs → unit ≡ other }
    ensures no_fault { (sections : AnySections) (code : List AnyRange) (entries : AnyEntries) (budget : ℕ)
        (file : AnyFile) (fault : AnyRangeFault) → HasFile sections code entries budget file
        → FileViolates sections code entries budget fault → ⊥ }
    ensures one_fault { (sections : AnySections) (code : List AnyRange) (entries : AnyEntries) (budget : ℕ)
        (fault other : AnyRangeFault) → FileViolates sections code entries budget fault
        → FileViolates sections code entries budget other → fault ≡ other }
{}
