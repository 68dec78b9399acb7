//! Where the values of attributes that rules and declarations look for are in an entry.

ghost use Rattle.std.specs.Prelude.{length, IfSome, OnOk};
ghost use Rattle.dw_forms.specs.AttributeBits.{AreBitsOf};
ghost use Rattle.dw_forms.specs.AttributeLists.{has_this};
ghost use Rattle.dw_forms.specs.DeclaredLists.{AreTogether, HavePlaces};
ghost use Rattle.dw_forms.specs.FirstPlaces.{AnswersFirst};
ghost use Rattle.dw_forms.specs.Offsets.{Stay};

use crate::attribute_bits::{OWN_BITS, attribute_of, mask_of};
use crate::attributes::{Attributes, cut_at, known};
use crate::constants::Attribute;
use crate::value::{Value, ValueFault};
use crate::value_reader::read_any;
use std::alloc::AllocError;

/// Where an attribute of a declaration has its value.
#[derive(Clone, Copy, Debug)]
pub struct KnownPlace {
    /// The list that begins with the attribute.
    pub(crate) list: u32,
    /// How many bytes the values before it take where addresses have 8. None if one of them has no one size, or they
    /// take 64 KB.
    pub(crate) at: Option<u16>,
}

impl<'a> Attributes<'a> {
    ghost use Rattle.dw_forms.specs.Suffixes.{numbered, specs_in, IsFrom};

    /// The bits of these.
    pub(crate) fn bits(&self) -> u32
        ensures { AreBitsOf (specs_in self.now) result }
    {
        match self.node() {
            Some(node) => node.bits,
            None => 0,
        }
    }

    /// How many bytes the values before the attributes that were found by this code take where addresses have 8. None
    /// if one of them has no one size, or they take 64 KB.
    fn bytes_before(&self, attribute: Attribute, found: Attributes<'a>) -> Option<u16>
        requires { IsFrom (has_this attribute) self.now found }
        ensures { IfSome result (AreTogether (numbered self.now) attribute) }
    {
        let here = self.node()?;
        if here.next_varying > found.first {
            return None;
        }
        u16::try_from(known(here, 8) - found.known(8)).ok()
    }

    /// Appends the places of those that have bits of their own, in the order of the bits.
    pub(crate) fn push_places(
        &self,
        bits: u32,
        places: &mut Vec<KnownPlace>,
    ) -> Result<(), AllocError>
        ensures stay { OnOk result (Stay places.old.items places.new.items) }
        ensures places { OnOk result (HavePlaces (numbered self.now) bits (length places.old.items) places.new.items) }
    {
        for place in 0..OWN_BITS {
            let attribute = attribute_of(place);
            if bits & mask_of(attribute) != 0 {
                let found = self.find(attribute);
                places.push(KnownPlace {
                    list: found.first,
                    at: self.bytes_before(attribute, found),
                })?;
            }
        }
        Ok(())
    }

    /// The value of the first of these attributes that were found by this code, if there are any. The values before it
    /// take so many bytes, and addresses have 8.
    #[inline(always)]
    pub(crate) fn value_at<'b>(
        &self,
        version: u16,
        attribute: Attribute,
        found: Attributes<'a>,
        at: u16,
        bytes: &'b [u8],
    ) -> Result<Option<Value<'b>>, ValueFault>
        requires found { IsFrom (has_this attribute) self.now found }
        requires at { AreTogether (numbered self.now) attribute at }
        ensures { AnswersFirst version 8 (specs_in self.now) attribute bytes.now result }
    {
        let Some((spec, _)) = found.split_first() else {
            return Ok(None);
        };
        let rest = match cut_at(bytes, usize::from(at)) {
            Ok(rest) => rest,
            Err(fault) => return Err(fault),
        };
        match read_any(version, spec.form, 8, rest) {
            Ok((value, _)) => Ok(Some(value)),
            Err(fault) => Err(fault),
        }
    }
}
