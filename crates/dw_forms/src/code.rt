//! Tags, attributes and languages (DWARF 5, 7.5.3, 7.5.4 and 7.12).

use std::marker::Model;

/// The tag of an entry. Codes that the standard doesn't name are tags too.
#[derive(Clone, Copy, Debug, PartialEq, Eq, Hash, PartialOrd, Ord)]
pub struct Tag(pub u16);

impl Model for Tag {
    ghost use Rattle.std.specs.Prelude.{ℕ};

    ghost Value = { ℕ };

    ghost view = { λ code. code.0 };

    ghost inverse = { λ n. record { 0 = n } };
}

/// An attribute of an entry. Codes that the standard doesn't name are attributes too.
#[derive(Clone, Copy, Debug, PartialEq, Eq, Hash, PartialOrd, Ord)]
pub struct Attribute(pub u16);

impl Model for Attribute {
    ghost use Rattle.std.specs.Prelude.{ℕ};

    ghost Value = { ℕ };

    ghost view = { λ code. code.0 };

    ghost inverse = { λ n. record { 0 = n } };
}

/// A source language, the value of DW_AT_language. Codes that the standard doesn't name are languages too.
#[derive(Clone, Copy, Debug, PartialEq, Eq, Hash, PartialOrd, Ord)]
pub struct Language(pub u16);

impl Model for Language {
    ghost use Rattle.std.specs.Prelude.{ℕ};

    ghost Value = { ℕ };

    ghost view = { λ code. code.0 };

    ghost inverse = { λ n. record { 0 = n } };
}
