//! Numbers, abbreviation tables and attribute values of DWARF 5, and the rules that sections can break.
#![tactic(auto)]

mod abbrev;
mod abbrev_reader;
mod abbrev_tables;
mod attribute_bits;
mod attribute_class;
mod attribute_lists;
mod attributes;
mod chains;
mod class;
mod code;
pub mod constants;
mod decl;
mod fault;
mod form;
mod form_class;
mod known_places;
mod labels;
mod laws;
mod layout_reader;
mod leading_steps;
mod leb;
mod list_reader;
mod offsets;
mod reader;
mod rule;
mod shared_ends;
mod value;
mod value_reader;

pub use abbrev::{AbbrevTable, AttributeSpec, Decl};
pub use abbrev_reader::{form_with_number, pair_of, read_table, tag_and_children, take_code};
pub use abbrev_tables::AbbrevTables;
pub use attribute_class::{is_allowed_in, is_open};
pub use attribute_lists::{AttributeLists, Node};
pub use attributes::Attributes;
pub use class::{Class, class_of_value};
pub use code::{Attribute, Language, Tag};
pub use decl::{DeclAt, Decls, KeptDecl};
pub use fault::{AbbrevFault, DeclFault, Stop};
pub use form::Form;
pub use laws::{
    fixed_values_take_their_sum, signed_numbers_are_apart, tables_are_apart,
    tables_are_read_by_grammar, unsigned_numbers_are_apart, values_are_apart,
};
pub use layout_reader::read_offset;
pub use leading_steps::{Lead, Step};
pub use leb::{NumberFault, read_sleb, read_uleb};
pub use reader::{take_byte, take_bytes, take_number, take_offset, take_sleb, take_uleb};
pub use rule::Rule;
pub use value::{Value, ValueFault};
pub use value_reader::{read_value, skip_value};
