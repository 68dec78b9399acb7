//! The rules of the ELF layout of a file, each with its code and its name.
//! Its variants, and the arms of its functions, are made by docs/make-rules.py from docs/rules.tsv.

ghost use Rattle.std.specs.Prelude.{◌≡◌};

/// A rule of the file's layout (System V ABI, chapter 4). The six sections are .debug_abbrev,
/// .debug_info, .debug_str, .debug_line_str, .debug_str_offsets and .debug_addr. In a fault of `find_other` the section
/// that it looks for takes their place.
#[derive(Clone, Copy, Debug, PartialEq, Eq)]
pub enum ElfRule {
    /// E1: the file has more than 4,294,967,296 bytes, or one of the six sections has more than 1,073,741,824.
    ///
    /// `find` looks at the sections alone: their limit is `SECTION_LIMIT`.
    TooLarge,
    /// E2: the file has fewer than 64 bytes, or the first seven are not those of a 64-bit little-endian ELF file of
    /// version 1.
    NotElf64,
    /// E3: the file is neither an executable (type 2) nor a shared object (type 3).
    NotLinked,
    /// E4: there are no section headers, they do not have 64 bytes each, they pass the file's end, or the section of
    /// names is missing: its number is 0 or not that of a header, or it has type 8 or passes the file's end.
    SectionTable,
    /// E5: the name of a section starts outside the section of names, or no zero byte ends it there.
    ///
    /// This is checked for every section header except number 0.
    SectionName,
    /// E6: one of the six sections passes the file's end.
    SectionRange,
    /// E7: one of the six sections is compressed (its flags have 0x800), or the name of a section starts with
    /// `.zdebug_`.
    ///
    /// Compressed bytes are never decompressed. This project's choice: a name that starts so is refused, whatever
    /// follows the prefix.
    Compressed,
    /// E8: one of the six sections has the name of an earlier one.
    SectionTwice,
    /// E9: no section is named `.debug_info`.
    ///
    /// This project's choice: each other of the six may be missing.
    NoInfo,
    /// E10: one of the six sections has no bytes in the file (type 8).
    NoBits,
}

impl ElfRule {
    ghost use Rattle.dw_elf.specs.RuleTexts.{code_text, name_text};

    /// The code of the rule, and its name.
    #[tactic(auto, unfolding(crate::specs::RuleTexts::code_text, crate::specs::RuleTexts::name_text))]
    fn texts(self) -> (&'static str, &'static str)
        ensures code { result.0.now ≡ code_text self }
        ensures name { result.1.now ≡ name_text self }
    {
        match self {
            ElfRule::TooLarge => ("E1", "TooLarge"),
            ElfRule::NotElf64 => ("E2", "NotElf64"),
            ElfRule::NotLinked => ("E3", "NotLinked"),
            ElfRule::SectionTable => ("E4", "SectionTable"),
            ElfRule::SectionName => ("E5", "SectionName"),
            ElfRule::SectionRange => ("E6", "SectionRange"),
            ElfRule::Compressed => ("E7", "Compressed"),
            ElfRule::SectionTwice => ("E8", "SectionTwice"),
            ElfRule::NoInfo => ("E9", "NoInfo"),
            ElfRule::NoBits => ("E10", "NoBits"),
        }
    }

    /// The short code of the rule, as `E4`.
    pub fn code(self) -> &'static str
        ensures { result.now ≡ code_text self }
    {
        self.texts().0
    }

    /// The name of the rule, as `SectionTable`.
    pub fn name(self) -> &'static str
        ensures { result.now ≡ name_text self }
    {
        self.texts().1
    }
}
