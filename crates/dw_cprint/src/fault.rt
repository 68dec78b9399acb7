//! Why an entry is not printed.
//! All variants but `Memory`, and the arms of its functions, are made by docs/make-rules.py from docs/rules.tsv.

ghost use Rattle.std.specs.Prelude.{◌≡◌};
ghost use Rattle.dw_cprint.specs.FaultTexts.{code_text, name_text};
ghost use Rattle.dw_cprint.specs.declared.fault.PrintFault.TheVariants.{Memory};

use std::alloc::{AllocError, AllocFailed};

/// Why an entry is not printed. If several reasons hold, it is the first of them in this order.
#[derive(Clone, Copy, Debug, PartialEq, Eq)]
pub enum PrintFault {
    /// P1: the entry is not a typedef, variable, structure, union or enumeration, or what it uses has a cycle.
    NotPrintable,
    /// P2: a name that is printed is missing, or is not valid in C.
    BadName,
    /// P3: the entry uses a type of another language or an unspecified type, or a body has a base class or a variant
    /// part.
    Foreign,
    /// P4: C has no such type.
    Unspeakable,
    /// P5: a path from the entry has more than 64 steps.
    TooDeep,
    /// P6: the text has more than 65,536 bytes.
    TooLong,
    /// An allocation failed.
    Memory,
}

impl PrintFault {
    /// The short name in reports.
    pub fn code(self) -> &'static str
        ensures { result.now ≡ code_text self }
    {
        match self {
            PrintFault::NotPrintable => "P1",
            PrintFault::BadName => "P2",
            PrintFault::Foreign => "P3",
            PrintFault::Unspeakable => "P4",
            PrintFault::TooDeep => "P5",
            PrintFault::TooLong => "P6",
            PrintFault::Memory => "",
        }
    }

    /// The long name in reports.
    pub fn name(self) -> &'static str
        ensures { result.now ≡ name_text self }
    {
        match self {
            PrintFault::NotPrintable => "NotPrintable",
            PrintFault::BadName => "BadName",
            PrintFault::Foreign => "Foreign",
            PrintFault::Unspeakable => "Unspeakable",
            PrintFault::TooDeep => "TooDeep",
            PrintFault::TooLong => "TooLong",
            PrintFault::Memory => "Memory",
        }
    }
}

impl From<AllocError> for PrintFault {
    ghost from_gives = { λ _ fault. fault ≡ Memory };

    fn from(_error: AllocError) -> PrintFault {
        PrintFault::Memory
    }
}

impl<T: Drop> From<AllocFailed<T>> for PrintFault {
    ghost from_gives = { λ _ fault. fault ≡ Memory };

    fn from(_error: AllocFailed<T>) -> PrintFault {
        PrintFault::Memory
    }
}
