//! Laws of the definitions, which callers may cite: each is proved as the contract of an empty function.

ghost use Rattle.std.specs.Prelude.{◌≡◌, ◌++◌, ◌≤◌, ℕ, ℤ, List, length, drop, Some};
ghost use Rattle.dw_forms.specs.declared.leb.NumberFault.{NumberFault as AnyNumberFault};
ghost use Rattle.dw_forms.specs.declared.value.ValueFault.{ValueFault as AnyValueFault};
ghost use Rattle.dw_forms.specs.declared.form.Form.{Form as AnyForm};
ghost use Rattle.dw_forms.specs.declared.fault.AbbrevFault.{AbbrevFault as AnyBrokenTable};
ghost use Rattle.dw_forms.specs.declared.abbrev.AttributeSpec.{AttributeSpec as AnyAttributeSpec};
ghost use Rattle.dw_forms.specs.Sizes.{fixed_sum, ValuesEnd};
ghost use Rattle.dw_forms.specs.Abbrev.{Declaration, Decls, TableFails};
ghost use Rattle.dw_forms.specs.FormCodes.{bare, code_of, form_of};
ghost use Rattle.dw_forms.specs.TableGrammar.{IsReadByGrammar};
ghost use Rattle.dw_forms.specs.Leb.{Uleb, UlebFails, Sleb, SlebFails};
ghost use Rattle.dw_forms.specs.Value.{Datum};
ghost use Rattle.dw_forms.specs.ValueFormats.{Val, ValFails};

/// No unsigned number begins another, and bytes that begin with none have one fault.
pub fn unsigned_numbers_are_apart()
    ensures apart { (a b x y : List ℕ) (m n : ℕ) → Uleb a m → Uleb b n → a ++ x ≡ b ++ y → (a ≡ b) × (m ≡ n) }
    ensures one_fault { (bytes : List ℕ) (f g : AnyNumberFault) → UlebFails bytes f → UlebFails bytes g → f ≡ g }
{}

/// No signed number begins another, and bytes that begin with none have one fault.
pub fn signed_numbers_are_apart()
    ensures apart { (a b x y : List ℕ) (m n : ℤ) → Sleb a m → Sleb b n → a ++ x ≡ b ++ y → (a ≡ b) × (m ≡ n) }
    ensures one_fault { (bytes : List ℕ) (f g : AnyNumberFault) → SlebFails bytes f → SlebFails bytes g → f ≡ g }
{}

/// No value of a form begins another, and bytes that begin with none have one fault.
pub fn values_are_apart()
    ensures apart { (version : ℕ) (form : AnyForm) (size : ℕ) (a b x y : List ℕ) (v w : Datum)
        → Val version form size a v → Val version form size b w → a ++ x ≡ b ++ y → (a ≡ b) × (v ≡ w) }
    ensures one_fault { (version : ℕ) (form : AnyForm) (size : ℕ) (bytes : List ℕ) (f g : AnyValueFault)
        → ValFails version form size bytes f → ValFails version form size bytes g → f ≡ g }
{}

/// No table begins another, and bytes that begin with none have one fault.
pub fn tables_are_apart()
    ensures apart { (a b x y : List ℕ) (ds es : List Declaration) → Decls a ds → Decls b es → a ++ x ≡ b ++ y → (a ≡ b)
        × (ds ≡ es) }
    ensures one_fault { (section : List ℕ) (offset : ℕ) (f g : AnyBrokenTable) → offset ≤ length section
        → TableFails section offset f → TableFails section offset g → f ≡ g }
{}

/// Reading a table from left to right gives the table that the section spells from an offset on, or, where it spells
/// none, the fault that the grammar names. Each form is the one of its code.
pub fn tables_are_read_by_grammar()
    ensures tables { (section : List ℕ) (offset : ℕ) → IsReadByGrammar section offset }
    ensures forms { (form : AnyForm) → form_of (code_of form) ≡ Some (bare form) }
{}

/// Where all values of a declaration have one size and there are enough bytes, they are read, and they take as many
/// bytes as the sum of the sizes says.
pub fn fixed_values_take_their_sum()
    ensures { (version size : ℕ) (specs : List AnyAttributeSpec) (n : ℕ) (bytes : List ℕ)
        → fixed_sum version size specs ≡ Some n → n ≤ length bytes → ValuesEnd version size specs bytes (drop n bytes) }
{}
