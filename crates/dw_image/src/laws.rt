//! What holds of all sections.
#![tactic(auto, using(crate::proofs::JoinLemmas::one_list_of, crate::proofs::JoinLemmas::sound_image))]

ghost use Rattle.std.specs.Prelude.{◌≡◌, List};
ghost use Rattle.dw_elf.specs.declared.sections.Sections.{Sections};
ghost use Rattle.dw_entries.specs.declared.fault.Fault.{Fault};
ghost use Rattle.dw_entries.specs.Units.{DebugUnit};
ghost use Rattle.dw_image.specs.Valid.{SpellsInfo, IsValid};
ghost use Rattle.dw_image.specs.FirstFault.{IsFirstFault, IsOneFault};
ghost use Rattle.dw_image.specs.declared.image.Image.{Image};
ghost use Rattle.dw_image.specs.Headline.{IsImageOf};
ghost use Rattle.dw_image.specs.Images.{sections_in};

/// Two lists of units that spell the same sections are one.
pub fn one_list()
    ensures { (s : Sections) (units others : List DebugUnit) → SpellsInfo s units → SpellsInfo s others
        → units ≡ others }
{}

/// Sections are never both valid and faulty.
pub fn valid_has_no_fault()
    ensures { (s : Sections) (fault : Fault) → IsValid s → IsFirstFault s fault → ⊥ }
{}

/// There is one first fault at most, if several cycles count as one.
pub fn one_first_fault()
    ensures { (s : Sections) (fault other : Fault) → IsFirstFault s fault → IsFirstFault s other
        → IsOneFault fault other }
{}

/// Each image has all that a sound verdict says, of the sections that it was made of.
pub fn images_are_sound()
    ensures { (image : Image) → IsImageOf (sections_in image) image }
{}
