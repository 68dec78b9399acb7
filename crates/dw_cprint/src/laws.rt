//! What holds of all texts of declarations.

ghost use Rattle.std.specs.Prelude.{◌≡◌, ◌<◌, ◌++◌, ℕ, List, Some, length, All, AllPairs, IsSome};
ghost use Rattle.dw_cprint.specs.Declarations.{declaration_of};
ghost use Rattle.dw_cprint.specs.EntryShapes.{shape_in, subject_in};
ghost use Rattle.dw_cprint.specs.Listings.{HoldsByValue, IsListing};
ghost use Rattle.dw_cprint.specs.Refusals.{HasOneReading, HoldsNoneBelow, IsPrinted, Refuses};
ghost use Rattle.dw_cprint.specs.Shapes.{ShapeOf, SubjectOf};
ghost use Rattle.dw_cprint.specs.Steps.{AreSameFor, steps_reached};
ghost use Rattle.dw_cprint.specs.declared.fault.PrintFault.{PrintFault};
ghost use Rattle.dw_image.specs.declared.image.Image.{Image as ImageOf};
ghost use Rattle.dw_image.specs.Images.{entries_in, steps_in};
ghost use Rattle.dw_cprint.specs.LookUps.{type_at};
ghost use Rattle.dw_types.specs.Sizes.{has_elements};
ghost use Rattle.dw_cprint.specs.Declarators.{before, after};
ghost use Rattle.dw_cprint.specs.Legible.{IsLegibleDeclaration};
ghost use Rattle.dw_cprint.specs.Reading.{declaration_of_text};
ghost use Rattle.dw_cprint.specs.Terms.{CDeclaration, Qualifier, Term};
ghost use Rattle.dw_cprint.specs.Tokens.{Token};
ghost use Rattle.dw_cprint.specs.Writing.{spell, written};

/// Each text is read back as what it was written from, so no other declaration has that text.
pub fn one_reading()
    ensures read_back { (d : CDeclaration) → IsLegibleDeclaration d → declaration_of_text (written d) ≡ Some d }
    ensures no_other { (d e : CDeclaration) → IsLegibleDeclaration d → IsLegibleDeclaration e → written d ≡ written e
        → d ≡ e }
{}

/// The text of a type is what is before its declarator, the declarator, and what is after it.
pub fn text_in_parts()
    ensures { (qs : List Qualifier) (t : Term) (d : List Token)
        → spell qs t d ≡ before qs t (has_elements d) ++ (d ++ after t) }
{}

/// The types that an entry of an image has, and that its shape names, are entries.
pub fn types_are_entries()
    ensures one { (image : ImageOf) (id to : ℕ) → type_at image id ≡ Some to → to < length (entries_in image) }
    ensures all { (image : ImageOf) (id : ℕ)
        → All (λ to. to < length (entries_in image)) (steps_reached (shape_in image) id) }
{}

/// An entry of which none of P1 to P5 holds has a declaration. If none of P1 to P4 holds, its declaration can be read
/// back from its text, so no other declaration has that text.
pub fn declared_if_not_refused()
    ensures there { (shapes : ℕ → ShapeOf) (subject : SubjectOf) → HoldsNoneBelow 6 shapes subject
        → IsSome (declaration_of shapes subject) }
    ensures legible { (shapes : ℕ → ShapeOf) (subject : SubjectOf) → HoldsNoneBelow 5 shapes subject
        → (d : CDeclaration) → declaration_of shapes subject ≡ Some d → IsLegibleDeclaration d }
    ensures one { (shapes : ℕ → ShapeOf) (subject : SubjectOf) → HoldsNoneBelow 5 shapes subject
        → HasOneReading shapes subject }
{}

/// A declaration that is printed of an image has one reading: no other legible declaration has its text.
pub fn printed_ones_have_one_reading()
    ensures { (image : ImageOf) (id : ℕ) → IsPrinted (shape_in image) (subject_in image id)
        → HasOneReading (shape_in image) (subject_in image id) }
{}

/// Declarations and refusals depend only on the shapes of the entries that are reached.
pub fn shapes_reached_decide()
    ensures declared { (shapes others : ℕ → ShapeOf) (subject : SubjectOf) → AreSameFor shapes others subject
        → declaration_of shapes subject ≡ declaration_of others subject }
    ensures refused { (shapes others : ℕ → ShapeOf) (subject : SubjectOf) (rule : PrintFault)
        → AreSameFor shapes others subject → Refuses shapes subject rule → Refuses others subject rule }
    ensures printed { (shapes others : ℕ → ShapeOf) (subject : SubjectOf)
        → AreSameFor shapes others subject → IsPrinted shapes subject → IsPrinted others subject }
    ensures one { (shapes others : ℕ → ShapeOf) (subject : SubjectOf)
        → AreSameFor shapes others subject → HasOneReading shapes subject → HasOneReading others subject }
{}

/// In a listing, each printed type comes after the printed ones that it contains by value: as its type, as the type of
/// a member, by its signature, or through others (DWARF 5, chapter 5).
pub fn held_types_come_first()
    ensures { (image : ImageOf) (order : List ℕ) (refused : List (ℕ × PrintFault)) → IsListing image order refused
        → AllPairs (λ a b. HoldsByValue (steps_in image) a b → ⊥) order }
{}
