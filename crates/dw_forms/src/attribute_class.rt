//! Which attribute may have values of which class (DWARF 5, 7.5.4, Table 7.5).

ghost use Rattle.std.specs.Prelude.{◌≡◌};
ghost use Rattle.dw_forms.specs.Classes.{allows, allows_in, is_open};

use crate::abbrev::AttributeSpec;
use crate::class::Class;
use crate::code::Attribute;
use crate::constants::*;
use crate::form_class::class_of_form;

/// Whether an attribute may have a value of this class. This project's choice: attributes without a line here may have
/// any.
fn is_allowed(attribute: Attribute, class: Class) -> bool
    ensures { result ≡ allows attribute class }
{
    match attribute {
        DW_AT_sibling
        | DW_AT_import
        | DW_AT_abstract_origin
        | DW_AT_specification
        | DW_AT_type
        | DW_AT_signature => matches!(class, Class::Reference),
        DW_AT_name => matches!(class, Class::String),
        DW_AT_byte_size
        | DW_AT_bit_size
        | DW_AT_count
        | DW_AT_byte_stride
        | DW_AT_data_bit_offset => {
            matches!(class, Class::Constant | Class::Exprloc | Class::Reference)
        }
        DW_AT_lower_bound | DW_AT_upper_bound | DW_AT_bit_stride => {
            matches!(
                class,
                Class::Constant | Class::WideConstant | Class::Exprloc | Class::Reference
            )
        }
        DW_AT_data_member_location => {
            matches!(
                class,
                Class::Constant | Class::Exprloc | Class::SectionOffset | Class::ListIndex
            )
        }
        DW_AT_encoding => matches!(class, Class::Constant | Class::WideConstant),
        DW_AT_prototyped | DW_AT_declaration => matches!(class, Class::Flag),
        DW_AT_str_offsets_base | DW_AT_addr_base => matches!(class, Class::SectionOffset),
        _ => true,
    }
}

/// The same in a unit of a version. Version 4 does not know the bases of contributions, so their codes may have any
/// class there.
pub fn is_allowed_in(version: u16, attribute: Attribute, class: Class) -> bool
    ensures { result ≡ allows_in version attribute class }
{
    if version == 4 && matches!(attribute, DW_AT_str_offsets_base | DW_AT_addr_base) {
        return true;
    }
    is_allowed(attribute, class)
}

/// Whether an attribute that is declared so is open: its value may have none of its classes.
pub fn is_open(spec: &AttributeSpec) -> bool
    ensures { result ≡ is_open spec.now }
{
    match class_of_form(spec.form) {
        Some(class) => !is_allowed(spec.attribute, class),
        None => true,
    }
}
