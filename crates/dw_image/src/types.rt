//! Types in an image: which entries they are, what holds which by value, how large they are, how many elements a
//! dimension has.

ghost use Rattle.std.specs.Prelude.{◌≡◌, ◌<◌, length, slice_get, IfSome};
ghost use Rattle.dw_entries.specs.ByNumber.{entry_of};
ghost use Rattle.dw_types.specs.Counts.{count_at};
ghost use Rattle.dw_types.specs.Cycles.{AreClear};
ghost use Rattle.dw_types.specs.Graphs.{steps_of};
ghost use Rattle.dw_image.specs.Images.{units_in, entries_in, steps_in, size_table_in, type_in};
ghost use Rattle.dw_image.specs.Lookups.{type_number};

use crate::image::Image;
use dw_entries::EntryId;
use dw_entries::constants::DW_AT_type;
use dw_types::{ByValue, Numbers, StepGraph, count_at};
use std::marker::Model;

/// The number of an entry with a type tag. The look-ups of an image make it.
#[derive(Clone, Copy, Debug, PartialEq, Eq, Hash, PartialOrd, Ord)]
pub struct TypeId {
    entry: EntryId,
}

impl Model for TypeId {
    ghost use Rattle.std.specs.Prelude.{ℕ};

    ghost Value = { ℕ };

    ghost view = { λ id. id.entry };

    ghost inverse = { λ n. record { entry = n } };
}

impl TypeId {
    /// The entry.
    pub fn entry(self) -> EntryId
        ensures { result ≡ self }
    {
        self.entry
    }
}

#[tactic(auto, unfolding(crate::specs::Images::units_in, crate::specs::Images::steps_in, crate::specs::Images::size_table_in))]
impl Image<'_> {
    /// The type at an entry. None if its tag is not a type's.
    pub fn type_at(&self, id: EntryId) -> Option<TypeId>
        requires { id < length (entries_in self.now) }
        ensures exact { result ≡ type_number (entries_in self.now) id }
        ensures within { IfSome result (λ it. it < length (entries_in self.now)) }
    {
        if self.entries.decl(id).is_type() {
            Some(TypeId { entry: id })
        } else {
            None
        }
    }

    /// The type that an entry's DW_AT_type reaches (DWARF 5, section 2.2). No rule fails, so what it reaches is a type.
    #[tactic(auto, unfolding(crate::specs::Images::units_in), using(crate::proofs::TypeLemmas::type_is_target))]
    pub fn type_of(&self, id: EntryId) -> Option<TypeId>
        requires { id < length (entries_in self.now) }
        ensures exact { result ≡ type_in self.now (entry_of (entries_in self.now) id) }
        ensures within { IfSome result (λ it. it < length (entries_in self.now)) }
    {
        let to = self.tables.target(&self.entries, id, DW_AT_type)?;
        Some(TypeId { entry: to })
    }

    /// The size of a type in bytes, below 2^63. None if its size is not known.
    pub fn size_of(&self, id: TypeId) -> Option<u64>
        requires { id < length (entries_in self.now) }
        ensures { result ≡ size_table_in self.now id }
    {
        self.sizes.get(id.entry())
    }

    /// The known count of a dimension: how many elements it has (DWARF 5, section 5.13). None for any other entry.
    pub fn count_of(&self, id: EntryId) -> Option<u128>
        requires { id < length (entries_in self.now) }
        ensures { result ≡ count_at (units_in self.now) id }
    {
        count_at(&self.entries, &self.tables, id)
    }

    /// The steps by value of all entries. An entry is the node of its number.
    pub fn by_value(&self) -> &ByValue
        ensures { ⟦<ByValue as StepGraph>⟧.graph result.now ≡ steps_in self.now }
    {
        &self.steps
    }

    /// The nodes of all entries, by rising rank: each comes after those that its steps lead to.
    #[tactic(auto, unfolding(crate::specs::Images::units_in, crate::specs::Images::steps_in), using(crate::proofs::MeasureLemmas::clear_by_rank))]
    pub fn by_rank(&self) -> &Numbers
        ensures { AreClear (steps_in self.now) result.now }
    {
        self.order.by_rank()
    }

    /// The k-th entry, from 0, that an entry holds by value: its type, the types of its plain members in their order,
    /// what its signature names. None past the last.
    #[tactic(auto, unfolding(crate::specs::Images::units_in, crate::specs::Images::steps_in), using(crate::proofs::TypeLemmas::steps))]
    pub fn step(&self, id: EntryId, k: usize) -> Option<EntryId>
        requires { id < length (entries_in self.now) }
        ensures exact { result ≡ slice_get (steps_of (steps_in self.now) id) k }
        ensures within { IfSome result (λ to. to < length (entries_in self.now)) }
    {
        let node = id.number();
        if k >= self.steps.steps(node) {
            return None;
        }
        let to = self.steps.step(node, k);
        Some(self.entries.id(to))
    }
}
