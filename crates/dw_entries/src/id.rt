//! Numbers of entries.

ghost use Rattle.std.specs.Prelude.{◌≡◌, ◌<◌, Some, None};

use std::marker::Model;

/// The number of an entry. Entries are numbered from 0 in rising offset.
#[derive(Clone, Copy, Debug, PartialEq, Eq, Hash, PartialOrd, Ord)]
pub struct EntryId {
    number: u32,
}

impl Model for EntryId {
    ghost use Rattle.std.specs.Prelude.{ℕ};

    ghost Value = { ℕ };

    ghost view = { λ id. id.number };

    ghost inverse = { λ n. record { number = n } };
}

impl EntryId {
    /// The entry with this number.
    pub(crate) fn new(number: u32) -> EntryId
        ensures { result ≡ number }
    {
        EntryId { number }
    }

    /// The number, from 0.
    pub fn number(self) -> usize
        ensures { result ≡ self }
    {
        self.number as usize
    }
}

/// The number of an entry, or none, in four bytes.
#[derive(Clone, Copy, Debug, PartialEq, Eq)]
pub struct OptionalId {
    number: u32,
}

impl Model for OptionalId {
    ghost use Rattle.std.specs.Prelude.{ℕ, Option};
    ghost use Rattle.dw_entries.specs.OptionalIds.{option_of, encoded, back};

    ghost Value = { Option ℕ };

    ghost view = { λ id. option_of id.number };

    ghost inverse = { λ id. record { number = encoded id } };

    ghost inverse_ok = { λ inside _. back inside };
}

impl OptionalId {
    /// No entry.
    pub fn none() -> OptionalId
        ensures { result ≡ None }
    {
        OptionalId {
            number: 0xffff_ffff,
        }
    }

    /// The entry with this number.
    pub fn some(number: u32) -> OptionalId
        requires { number < 0xffffffff }
        ensures { result ≡ Some number }
    {
        OptionalId { number }
    }

    /// The number, if there is one.
    pub fn get(self) -> Option<u32>
        ensures { result ≡ self }
    {
        if self.number == 0xffff_ffff {
            None
        } else {
            Some(self.number)
        }
    }
}

/// The entry with this number, if there is one.
pub fn id_of(optional: OptionalId) -> Option<EntryId>
    ensures { result ≡ optional }
{
    match optional.get() {
        Some(number) => Some(EntryId::new(number)),
        None => None,
    }
}
