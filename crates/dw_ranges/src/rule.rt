//! The rules on the addresses of entries, each with its code and its name.
//! Its variants, and the arms of its functions, are made by docs/make-rules.py from docs/rules.tsv.

ghost use Rattle.std.specs.Prelude.{◌≡◌};
ghost use Rattle.dw_ranges.specs.RangeRules.{code_text, name_text};

/// A rule on the addresses of an entry.
#[derive(Clone, Copy, Debug, PartialEq, Eq)]
pub enum RangeRule {
    /// X1: DW_AT_high_pc is without DW_AT_low_pc or with DW_AT_ranges, or one of the three has a value of another
    /// class.
    BadBounds,
    /// X2: DW_AT_high_pc is below DW_AT_low_pc, or passes the greatest address.
    BadHigh,
    /// X3: no range list is at the offset or the index.
    NoList,
    /// X4: a range list passes the end of its section, or has a number of more than 64 bits or an entry of no kind.
    BadList,
    /// X5: an entry of a range list counts from a base address, and there is none.
    NoBase,
    /// X6: an entry of a range list ends before it starts, or passes the greatest address.
    BadRange,
    /// X7: an address has an index that is not below the count of the unit's contribution to .debug_addr.
    RangeIndex,
    /// X8: two ranges of an entry share an address of the program's code, and differ.
    RangesMeet,
    /// X9: an address of a function is not one of its unit.
    OutsideUnit,
    /// X10: an address of an inlined function is not one of the function that it is inlined in.
    OutsideParent,
    /// X11: two functions that are inlined in one share an address.
    InlinedMeet,
    /// X12: two functions of a unit share an address, and their areas that have it differ.
    FunctionsMeet,
    /// X13: the range list of an entry is longer than what is left of the caller's budget.
    ListBudget,
}

impl RangeRule {
    /// The code of the rule, and its name.
    #[tactic(auto, unfolding(crate::specs::RangeRules::code_text, crate::specs::RangeRules::name_text))]
    fn texts(self) -> (&'static str, &'static str)
        ensures code { result.0.now ≡ code_text self }
        ensures name { result.1.now ≡ name_text self }
    {
        match self {
            RangeRule::BadBounds => ("X1", "BadBounds"),
            RangeRule::BadHigh => ("X2", "BadHigh"),
            RangeRule::NoList => ("X3", "NoList"),
            RangeRule::BadList => ("X4", "BadList"),
            RangeRule::NoBase => ("X5", "NoBase"),
            RangeRule::BadRange => ("X6", "BadRange"),
            RangeRule::RangeIndex => ("X7", "RangeIndex"),
            RangeRule::RangesMeet => ("X8", "RangesMeet"),
            RangeRule::OutsideUnit => ("X9", "OutsideUnit"),
            RangeRule::OutsideParent => ("X10", "OutsideParent"),
            RangeRule::InlinedMeet => ("X11", "InlinedMeet"),
            RangeRule::FunctionsMeet => ("X12", "FunctionsMeet"),
            RangeRule::ListBudget => ("X13", "ListBudget"),
        }
    }

    /// The code of the rule: the letter of its group and a number.
    pub fn code(self) -> &'static str
        ensures { result.now ≡ code_text self }
    {
        self.texts().0
    }

    /// The name of the rule, which is its variant's.
    pub fn name(self) -> &'static str
        ensures { result.now ≡ name_text self }
    {
        self.texts().1
    }
}
