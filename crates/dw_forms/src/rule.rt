//! The rules that sections can break, each with its code and its name.
//! Its variants, and the arms of its functions, are made by docs/make-rules.py from docs/rules.tsv.

ghost use Rattle.std.specs.Prelude.{◌≡◌};

/// A rule. The letter of its code names the group that it belongs to, and the number its place there.
#[derive(Clone, Copy, Debug, PartialEq, Eq)]
pub enum Rule {
    /// A1: a part of a declaration, or the end of the table, passes the end of `.debug_abbrev`.
    AbbrevCut,
    /// A2: a number in a table has more than 10 bytes or more than 64 bits.
    AbbrevNumber,
    /// A3: an earlier declaration of the table has the code.
    CodeTwice,
    /// A4: a tag is 0 or above 0xffff.
    BadTag,
    /// A5: the byte that says whether there are children is neither 0 nor 1.
    BadChildren,
    /// A6: one of an attribute and its form alone is 0, or the attribute is above 0xffff.
    BadPair,
    /// A7: no form has the code.
    UnknownForm,
    /// A8: a declaration has an attribute twice.
    AttributeTwice,
    /// U1: a unit passes the end of `.debug_info`, or its header passes the unit's end.
    UnitCut,
    /// U2: the unit's length is 0xfffffff0 or more, which means 64-bit DWARF or is reserved.
    Not32Bit,
    /// U3: the version is neither 4 nor 5.
    BadVersion,
    /// U4: the type of a unit of version 5 is not compile (1), type (2) or partial (3).
    BadUnitType,
    /// U5: an address has neither 4 nor 8 bytes.
    BadAddressSize,
    /// U6: no byte of `.debug_abbrev` is at the table's offset.
    BadAbbrevOffset,
    /// U7: a null or nothing is in place of the unit's first entry.
    NoUnitEntry,
    /// U8: the first entry's tag is not the one of the unit's type.
    WrongUnitTag,
    /// U9: something other than nulls follows the unit's tree.
    LeftOver,
    /// G1: the unit's table has no declaration with the code.
    UndeclaredCode,
    /// G2: a code or a value passes the unit's end.
    Cut,
    /// G3: a code, or a number in a value, has more than 10 bytes or more than 64 bits.
    BadNumber,
    /// G4: an indirect value names no form, a form that it may not name, or a form that the unit's version does not
    /// have.
    BadIndirect,
    /// G5: the unit has version 4, and version 4 does not have the form of an attribute.
    FormVersion,
    /// K1: the value has none of the classes that the attribute may have.
    WrongClass,
    /// S1: the header before the unit's base in `.debug_str_offsets` is malformed, or the unit names no base and has an
    /// indexed string.
    BadStrBase,
    /// S2: the index of a string is not below the number of slots of the unit's contribution to `.debug_str_offsets`.
    StrIndex,
    /// S3: a string starts outside its section, or no zero byte ends it there.
    StringEnd,
    /// S4: the header before the unit's base in `.debug_addr` is malformed, or the unit names no base and has an
    /// indexed address.
    BadAddrBase,
    /// S5: the index of an address is not below the number of slots of the unit's contribution to `.debug_addr`.
    AddrIndex,
    /// R1: no entry starts at the offset that a reference refers to, in its unit or, in form ref_addr, in
    /// `.debug_info`.
    NoEntry,
    /// R2: a reference has a form that its attribute does not permit, or refers to an entry of a kind that it does not
    /// permit.
    WrongKind,
    /// R3: a sibling attribute refers to another entry than the next sibling, or there is no next sibling.
    NotNextSibling,
    /// R4: no type unit has the signature.
    NoSignature,
    /// R5: an earlier type unit has the signature.
    SignatureTwice,
    /// R6: no type of the type unit starts at its type offset.
    BadTypeOffset,
    /// Y1: an array or a plain member has neither a type nor a DW_AT_specification nor a DW_AT_abstract_origin.
    MissingType,
    /// Y2: a dimension has a known count below 0.
    BadCount,
    /// C1: a type contains itself by value.
    ContainsItself,
    /// Z1: a base type, or a structure or union that is not declared, has no size; or a byte size that is read, or the
    /// stride of an array without a byte size, is negative.
    NoSize,
    /// Z2: a size is 2^63 or more.
    SizeTooGreat,
    /// Z3: a plain member ends outside its structure or union.
    MemberOutside,
    /// Z4: an enumeration that is not declared has neither a byte size nor a type nor a DW_AT_specification nor a
    /// DW_AT_abstract_origin, or its byte size is not the size of its type.
    EnumSize,
}

impl Rule {
    ghost use Rattle.dw_forms.specs.Rules.{code_text, group_of, name_text};

    /// The code of the rule, and its name.
    #[tactic(auto, unfolding(crate::specs::Rules::code_text, crate::specs::Rules::name_text))]
    fn texts(self) -> (&'static str, &'static str)
        ensures code { result.0.now ≡ code_text self }
        ensures name { result.1.now ≡ name_text self }
    {
        match self {
            Rule::AbbrevCut => ("A1", "AbbrevCut"),
            Rule::AbbrevNumber => ("A2", "AbbrevNumber"),
            Rule::CodeTwice => ("A3", "CodeTwice"),
            Rule::BadTag => ("A4", "BadTag"),
            Rule::BadChildren => ("A5", "BadChildren"),
            Rule::BadPair => ("A6", "BadPair"),
            Rule::UnknownForm => ("A7", "UnknownForm"),
            Rule::AttributeTwice => ("A8", "AttributeTwice"),
            Rule::UnitCut => ("U1", "UnitCut"),
            Rule::Not32Bit => ("U2", "Not32Bit"),
            Rule::BadVersion => ("U3", "BadVersion"),
            Rule::BadUnitType => ("U4", "BadUnitType"),
            Rule::BadAddressSize => ("U5", "BadAddressSize"),
            Rule::BadAbbrevOffset => ("U6", "BadAbbrevOffset"),
            Rule::NoUnitEntry => ("U7", "NoUnitEntry"),
            Rule::WrongUnitTag => ("U8", "WrongUnitTag"),
            Rule::LeftOver => ("U9", "LeftOver"),
            Rule::UndeclaredCode => ("G1", "UndeclaredCode"),
            Rule::Cut => ("G2", "Cut"),
            Rule::BadNumber => ("G3", "BadNumber"),
            Rule::BadIndirect => ("G4", "BadIndirect"),
            Rule::FormVersion => ("G5", "FormVersion"),
            Rule::WrongClass => ("K1", "WrongClass"),
            Rule::BadStrBase => ("S1", "BadStrBase"),
            Rule::StrIndex => ("S2", "StrIndex"),
            Rule::StringEnd => ("S3", "StringEnd"),
            Rule::BadAddrBase => ("S4", "BadAddrBase"),
            Rule::AddrIndex => ("S5", "AddrIndex"),
            Rule::NoEntry => ("R1", "NoEntry"),
            Rule::WrongKind => ("R2", "WrongKind"),
            Rule::NotNextSibling => ("R3", "NotNextSibling"),
            Rule::NoSignature => ("R4", "NoSignature"),
            Rule::SignatureTwice => ("R5", "SignatureTwice"),
            Rule::BadTypeOffset => ("R6", "BadTypeOffset"),
            Rule::MissingType => ("Y1", "MissingType"),
            Rule::BadCount => ("Y2", "BadCount"),
            Rule::ContainsItself => ("C1", "ContainsItself"),
            Rule::NoSize => ("Z1", "NoSize"),
            Rule::SizeTooGreat => ("Z2", "SizeTooGreat"),
            Rule::MemberOutside => ("Z3", "MemberOutside"),
            Rule::EnumSize => ("Z4", "EnumSize"),
        }
    }

    /// The code of the rule: the letter of its group and its number there.
    pub fn code(self) -> &'static str
        ensures { result.now ≡ code_text self }
    {
        self.texts().0
    }

    /// The name of the rule, which is its variant's.
    pub fn name(self) -> &'static str
        ensures { result.now ≡ name_text self }
    {
        self.texts().1
    }

    /// The group of the rule. A group is checked only where no rule of an earlier one fails: 1 for units with their
    /// tables and items (A, U, G), 2 for classes (K), 3 for strings and addresses (S), 4 for references (R), 5 for
    /// types and counts (Y), 6 for containment (C), 7 for sizes (Z).
    pub fn group(self) -> u8
        ensures { result ≡ group_of self }
    {
        match self {
            Rule::AbbrevCut => 1,
            Rule::AbbrevNumber => 1,
            Rule::CodeTwice => 1,
            Rule::BadTag => 1,
            Rule::BadChildren => 1,
            Rule::BadPair => 1,
            Rule::UnknownForm => 1,
            Rule::AttributeTwice => 1,
            Rule::UnitCut => 1,
            Rule::Not32Bit => 1,
            Rule::BadVersion => 1,
            Rule::BadUnitType => 1,
            Rule::BadAddressSize => 1,
            Rule::BadAbbrevOffset => 1,
            Rule::NoUnitEntry => 1,
            Rule::WrongUnitTag => 1,
            Rule::LeftOver => 1,
            Rule::UndeclaredCode => 1,
            Rule::Cut => 1,
            Rule::BadNumber => 1,
            Rule::BadIndirect => 1,
            Rule::FormVersion => 1,
            Rule::WrongClass => 2,
            Rule::BadStrBase => 3,
            Rule::StrIndex => 3,
            Rule::StringEnd => 3,
            Rule::BadAddrBase => 3,
            Rule::AddrIndex => 3,
            Rule::NoEntry => 4,
            Rule::WrongKind => 4,
            Rule::NotNextSibling => 4,
            Rule::NoSignature => 4,
            Rule::SignatureTwice => 4,
            Rule::BadTypeOffset => 4,
            Rule::MissingType => 5,
            Rule::BadCount => 5,
            Rule::ContainsItself => 6,
            Rule::NoSize => 7,
            Rule::SizeTooGreat => 7,
            Rule::MemberOutside => 7,
            Rule::EnumSize => 7,
        }
    }
}
