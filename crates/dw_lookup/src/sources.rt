//! What look-ups by address are made from.

ghost use Rattle.std.specs.Prelude.{◌≡◌, map};
ghost use Rattle.dw_ranges.specs.Areas.{AreAreas};
ghost use Rattle.dw_lookup.specs.Parts.{pair_of};

use crate::parts::Parts;
use dw_image::Image;
use dw_ranges::Range;

/// The image of a file, its other sections, and the areas of its code. Only `sources_of` makes them.
#[derive(Drop)]
pub struct Sources<'a> {
    pub image: Image<'a>,
    pub parts: Parts<'a>,
    /// The areas of the code, in rising order.
    pub areas: Vec<Range>,
    /// The same as pairs of their first address and the one after their last.
    pub code: Vec<(u64, u64)>,
    ghost areas_are: { AreAreas areas.items },
    ghost code_is: { code.items ≡ map pair_of areas.items },
}
