//! The bits of attributes in a list.

ghost use Rattle.std.specs.Prelude.{◌≡◌, ◌<◌, ◌^◌, ◌%◌, count_ones};
ghost use Rattle.dw_forms.specs.AttributeBits.{bit_of, own_bits};

use crate::constants::*;

/// How many attributes have a bit of their own.
pub(crate) const OWN_BITS: u32 = 26;

/// The place of an attribute's bit. The attributes that rules and declarations look for have bits of their own. The
/// others share the rest by their codes.
#[inline(always)]
#[tactic(auto, unfolding(crate::specs::AttributeBits::bit_of))]
pub(crate) fn bit_of(attribute: Attribute) -> u32
    ensures same { result ≡ bit_of attribute }
    ensures small { result < 32 }
{
    match attribute {
        DW_AT_name => 0,
        DW_AT_byte_size => 1,
        DW_AT_bit_size => 2,
        DW_AT_language => 3,
        DW_AT_const_value => 4,
        DW_AT_lower_bound => 5,
        DW_AT_prototyped => 6,
        DW_AT_bit_stride => 7,
        DW_AT_upper_bound => 8,
        DW_AT_abstract_origin => 9,
        DW_AT_count => 10,
        DW_AT_data_member_location => 11,
        DW_AT_declaration => 12,
        DW_AT_encoding => 13,
        DW_AT_specification => 14,
        DW_AT_type => 15,
        DW_AT_byte_stride => 16,
        DW_AT_signature => 17,
        DW_AT_data_bit_offset => 18,
        DW_AT_str_offsets_base => 19,
        DW_AT_addr_base => 20,
        DW_AT_low_pc => 21,
        DW_AT_high_pc => 22,
        DW_AT_ranges => 23,
        DW_AT_decl_file => 24,
        DW_AT_call_file => 25,
        _ => OWN_BITS + u32::from(attribute.0 % 6),
    }
}

/// The attribute whose own bit is at this place.
#[tactic(auto, unfolding(crate::specs::AttributeBits::bit_of))]
pub(crate) fn attribute_of(place: u32) -> Attribute
    requires { place < own_bits }
    ensures { bit_of result ≡ place }
{
    match place {
        0 => DW_AT_name,
        1 => DW_AT_byte_size,
        2 => DW_AT_bit_size,
        3 => DW_AT_language,
        4 => DW_AT_const_value,
        5 => DW_AT_lower_bound,
        6 => DW_AT_prototyped,
        7 => DW_AT_bit_stride,
        8 => DW_AT_upper_bound,
        9 => DW_AT_abstract_origin,
        10 => DW_AT_count,
        11 => DW_AT_data_member_location,
        12 => DW_AT_declaration,
        13 => DW_AT_encoding,
        14 => DW_AT_specification,
        15 => DW_AT_type,
        16 => DW_AT_byte_stride,
        17 => DW_AT_signature,
        18 => DW_AT_data_bit_offset,
        19 => DW_AT_str_offsets_base,
        20 => DW_AT_addr_base,
        21 => DW_AT_low_pc,
        22 => DW_AT_high_pc,
        23 => DW_AT_ranges,
        24 => DW_AT_decl_file,
        _ => DW_AT_call_file,
    }
}

/// The number that has the attribute's bit alone.
#[inline(always)]
pub(crate) fn mask_of(attribute: Attribute) -> u32
    ensures { result ≡ 2 ^ bit_of attribute }
{
    1 << bit_of(attribute)
}

/// How many of these bits are below the attribute's.
#[inline(always)]
#[tactic(auto, using(std::proofs::lemmas::Nat::and_mask, std::proofs::lemmas::Nat::pow_pos))]
pub(crate) fn count_below(bits: u32, attribute: Attribute) -> u32
    ensures { result ≡ count_ones (bits % 2 ^ bit_of attribute) }
{
    (bits & (mask_of(attribute) - 1)).count_ones()
}
