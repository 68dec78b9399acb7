//! Tags, attributes and languages by the standard's names (DWARF 5, 7.5.3, 7.5.4 and 7.12).
//! The constants, and the tags of types, are made by docs/make-rules.py from docs/codes.tsv.

ghost use Rattle.std.specs.Prelude.{◌≡◌};
ghost use Rattle.dw_forms.specs.Codes.{is_type_tag};

pub use crate::code::{Attribute, Language, Tag};

impl Tag {
    /// Whether entries with this tag are types. Which tags are is this project's choice: those of the C
    /// types, and those of the types of other languages.
    #[inline(always)]
    pub fn is_type(self) -> bool
        ensures { result ≡ is_type_tag self }
    {
        matches!(
            self,
            DW_TAG_array_type
                | DW_TAG_class_type
                | DW_TAG_enumeration_type
                | DW_TAG_pointer_type
                | DW_TAG_reference_type
                | DW_TAG_string_type
                | DW_TAG_structure_type
                | DW_TAG_subroutine_type
                | DW_TAG_typedef
                | DW_TAG_union_type
                | DW_TAG_ptr_to_member_type
                | DW_TAG_set_type
                | DW_TAG_subrange_type
                | DW_TAG_base_type
                | DW_TAG_const_type
                | DW_TAG_file_type
                | DW_TAG_packed_type
                | DW_TAG_volatile_type
                | DW_TAG_restrict_type
                | DW_TAG_interface_type
                | DW_TAG_unspecified_type
                | DW_TAG_shared_type
                | DW_TAG_rvalue_reference_type
                | DW_TAG_template_alias
                | DW_TAG_coarray_type
                | DW_TAG_dynamic_type
                | DW_TAG_atomic_type
                | DW_TAG_immutable_type
        )
    }
}

// Tags (DWARF 5, 7.5.3, Table 7.3).
pub const DW_TAG_array_type: Tag = Tag(0x01);

pub const DW_TAG_class_type: Tag = Tag(0x02);

pub const DW_TAG_enumeration_type: Tag = Tag(0x04);

pub const DW_TAG_formal_parameter: Tag = Tag(0x05);

pub const DW_TAG_member: Tag = Tag(0x0d);

pub const DW_TAG_pointer_type: Tag = Tag(0x0f);

pub const DW_TAG_reference_type: Tag = Tag(0x10);

pub const DW_TAG_compile_unit: Tag = Tag(0x11);

pub const DW_TAG_string_type: Tag = Tag(0x12);

pub const DW_TAG_structure_type: Tag = Tag(0x13);

pub const DW_TAG_subroutine_type: Tag = Tag(0x15);

pub const DW_TAG_typedef: Tag = Tag(0x16);

pub const DW_TAG_union_type: Tag = Tag(0x17);

pub const DW_TAG_unspecified_parameters: Tag = Tag(0x18);

pub const DW_TAG_inheritance: Tag = Tag(0x1c);

pub const DW_TAG_ptr_to_member_type: Tag = Tag(0x1f);

pub const DW_TAG_set_type: Tag = Tag(0x20);

pub const DW_TAG_subrange_type: Tag = Tag(0x21);

pub const DW_TAG_base_type: Tag = Tag(0x24);

pub const DW_TAG_const_type: Tag = Tag(0x26);

pub const DW_TAG_enumerator: Tag = Tag(0x28);

pub const DW_TAG_file_type: Tag = Tag(0x29);

pub const DW_TAG_packed_type: Tag = Tag(0x2d);

pub const DW_TAG_variant_part: Tag = Tag(0x33);

pub const DW_TAG_variable: Tag = Tag(0x34);

pub const DW_TAG_volatile_type: Tag = Tag(0x35);

pub const DW_TAG_restrict_type: Tag = Tag(0x37);

pub const DW_TAG_interface_type: Tag = Tag(0x38);

pub const DW_TAG_unspecified_type: Tag = Tag(0x3b);

pub const DW_TAG_partial_unit: Tag = Tag(0x3c);

pub const DW_TAG_imported_unit: Tag = Tag(0x3d);

pub const DW_TAG_shared_type: Tag = Tag(0x40);

pub const DW_TAG_type_unit: Tag = Tag(0x41);

pub const DW_TAG_rvalue_reference_type: Tag = Tag(0x42);

pub const DW_TAG_template_alias: Tag = Tag(0x43);

pub const DW_TAG_coarray_type: Tag = Tag(0x44);

pub const DW_TAG_generic_subrange: Tag = Tag(0x45);

pub const DW_TAG_dynamic_type: Tag = Tag(0x46);

pub const DW_TAG_atomic_type: Tag = Tag(0x47);

pub const DW_TAG_immutable_type: Tag = Tag(0x4b);

// Attributes (DWARF 5, 7.5.4, Table 7.5).
pub const DW_AT_sibling: Attribute = Attribute(0x01);

pub const DW_AT_name: Attribute = Attribute(0x03);

pub const DW_AT_byte_size: Attribute = Attribute(0x0b);

pub const DW_AT_bit_size: Attribute = Attribute(0x0d);

pub const DW_AT_low_pc: Attribute = Attribute(0x11);

pub const DW_AT_high_pc: Attribute = Attribute(0x12);

pub const DW_AT_language: Attribute = Attribute(0x13);

pub const DW_AT_import: Attribute = Attribute(0x18);

pub const DW_AT_const_value: Attribute = Attribute(0x1c);

pub const DW_AT_lower_bound: Attribute = Attribute(0x22);

pub const DW_AT_prototyped: Attribute = Attribute(0x27);

pub const DW_AT_bit_stride: Attribute = Attribute(0x2e);

pub const DW_AT_upper_bound: Attribute = Attribute(0x2f);

pub const DW_AT_abstract_origin: Attribute = Attribute(0x31);

pub const DW_AT_count: Attribute = Attribute(0x37);

pub const DW_AT_data_member_location: Attribute = Attribute(0x38);

pub const DW_AT_decl_file: Attribute = Attribute(0x3a);

pub const DW_AT_declaration: Attribute = Attribute(0x3c);

pub const DW_AT_encoding: Attribute = Attribute(0x3e);

pub const DW_AT_specification: Attribute = Attribute(0x47);

pub const DW_AT_type: Attribute = Attribute(0x49);

pub const DW_AT_byte_stride: Attribute = Attribute(0x51);

pub const DW_AT_ranges: Attribute = Attribute(0x55);

pub const DW_AT_call_file: Attribute = Attribute(0x58);

pub const DW_AT_signature: Attribute = Attribute(0x69);

pub const DW_AT_data_bit_offset: Attribute = Attribute(0x6b);

pub const DW_AT_str_offsets_base: Attribute = Attribute(0x72);

pub const DW_AT_addr_base: Attribute = Attribute(0x73);

// Languages (DWARF 5, 7.12, Table 7.17).
pub const DW_LANG_C89: Language = Language(0x01);

pub const DW_LANG_C: Language = Language(0x02);

pub const DW_LANG_C_plus_plus: Language = Language(0x04);

pub const DW_LANG_C99: Language = Language(0x0c);

pub const DW_LANG_C_plus_plus_11: Language = Language(0x1a);

pub const DW_LANG_Rust: Language = Language(0x1c);

pub const DW_LANG_C11: Language = Language(0x1d);

pub const DW_LANG_C_plus_plus_14: Language = Language(0x21);
