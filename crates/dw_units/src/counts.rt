//! How many units, entries and types there are.

ghost use Rattle.std.specs.Prelude.{◌≡◌, IfSome};
ghost use Rattle.dw_image.specs.Images.{sections_in};
ghost use Rattle.dw_units.specs.Counts.{AreCounts, counts_in, sums};

use dw_image::Image;

/// How many units, entries and types there are.
#[derive(Clone, Copy, Debug, PartialEq, Eq)]
pub struct Counts {
    pub units: usize,
    pub entries: usize,
    /// How many entries are types, by their tags.
    pub types: usize,
}

impl Counts {
    /// The counts of an image.
    pub fn of(image: &Image<'_>) -> Counts
        ensures counts { AreCounts (sections_in image.now) result }
        ensures same { result ≡ counts_in image.now }
    {
        Counts {
            units: image.units(),
            entries: image.entries(),
            types: image.types(),
        }
    }

    /// The sums with the counts of other units. None if they exceed usize.
    pub(crate) fn plus(self, other: Counts) -> Option<Counts>
        ensures { IfSome result (λ c. c ≡ sums self other) }
    {
        let units = self.units.checked_add(other.units)?;
        let entries = self.entries.checked_add(other.entries)?;
        let types = self.types.checked_add(other.types)?;
        Some(Counts {
            units,
            entries,
            types,
        })
    }
}
