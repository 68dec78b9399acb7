//! Why a call returns nothing else, and why no abbreviation table begins at an offset (DWARF 5, 7.5.3).

ghost use Rattle.std.specs.Prelude.{◌≡◌};
ghost use Rattle.dw_forms.specs.declared.fault.Stop.TheVariants.{Memory, Fault};
ghost use Rattle.dw_forms.specs.Faults.{decl_fault_of, error_at};

use crate::leb::NumberFault;
use crate::rule::Rule;
use std::alloc::{AllocError, AllocFailed};

/// Why a call returns nothing else.
#[derive(Debug, Drop)]
pub enum Stop<F> {
    /// An allocation failed.
    Memory,
    /// A rule is violated.
    Fault(F),
}

impl<F> From<AllocError> for Stop<F> {
    ghost from_gives = { λ _ e. e ≡ Memory };

    fn from(_e: AllocError) -> Stop<F> {
        Stop::Memory
    }
}

impl<F, T: Drop> From<AllocFailed<T>> for Stop<F> {
    ghost from_gives = { λ _ e. e ≡ Memory };

    fn from(_e: AllocFailed<T>) -> Stop<F> {
        Stop::Memory
    }
}

/// What is wrong with a declaration, and at which attribute, if the rule is about one.
#[derive(Clone, Copy, Debug, PartialEq, Eq)]
pub struct DeclFault {
    pub rule: Rule,
    pub attribute: u16,
}

/// The first rule that a table breaks, and where.
#[derive(Clone, Copy, Debug, PartialEq, Eq)]
pub struct AbbrevFault {
    pub rule: Rule,
    /// The offset in .debug_abbrev of the declaration's first byte, or of the byte that should end the table.
    pub at: usize,
    /// The code of the attribute that A7 or A8 is about, else 0.
    pub attribute: u16,
}

impl Stop<DeclFault> {
    /// The error of a table whose declaration at this place can't be read.
    pub fn at(self, place: usize) -> Stop<AbbrevFault>
        ensures { result ≡ error_at place self }
    {
        match self {
            Stop::Memory => Stop::Memory,
            Stop::Fault(DeclFault { rule, attribute }) => Stop::Fault(AbbrevFault {
                rule,
                at: place,
                attribute,
            }),
        }
    }
}

impl From<DeclFault> for Stop<DeclFault> {
    ghost from_gives = { λ f e. e ≡ Fault f };

    fn from(fault: DeclFault) -> Stop<DeclFault> {
        Stop::Fault(fault)
    }
}

impl From<NumberFault> for DeclFault {
    ghost from_gives = { λ f e. e ≡ decl_fault_of f };

    fn from(fault: NumberFault) -> DeclFault {
        let rule = match fault {
            NumberFault::Cut => Rule::AbbrevCut,
            NumberFault::BadNumber => Rule::AbbrevNumber,
        };
        DeclFault { rule, attribute: 0 }
    }
}
