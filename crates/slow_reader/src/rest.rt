//! Bytes with their place in a section.

/// The bytes from some place of a section on.
#[derive(Clone, Copy)]
pub(crate) struct Rest<'a> {
    /// The place, counted from the section's first byte.
    pub at: u64,
    pub bytes: &'a [u8],
}

impl<'a> Rest<'a> {
    /// A whole section.
    pub fn whole(section: &'a [u8]) -> Rest<'a> {
        Rest {
            at: 0,
            bytes: section,
        }
    }

    /// The first bytes, as many as asked, and the rest. Bytes cut off keep their place.
    pub fn split(self, count: u64) -> Option<(Rest<'a>, Rest<'a>)> {
        let (front, back) = self.bytes.split_at_checked(usize::try_from(count).ok()?)?;
        let front = Rest {
            at: self.at,
            bytes: front,
        };
        let back = Rest {
            at: self.at.checked_add(count)?,
            bytes: back,
        };
        Some((front, back))
    }

    /// What comes before a later place.
    pub fn up_to(self, later: Rest<'a>) -> Option<Rest<'a>> {
        let (front, _) = self.split(later.at.checked_sub(self.at)?)?;
        Some(front)
    }

    /// The number that the first bytes are, the lowest byte first, and the rest.
    pub fn number(self, size: u64) -> Option<(u64, Rest<'a>)> {
        let (front, back) = self.split(size)?;
        Some((little_endian(front.bytes)?, back))
    }
}

/// The number that these bytes are, the lowest first.
fn little_endian(bytes: &[u8]) -> Option<u64> {
    let mut number = 0u64;
    for byte in bytes.iter().rev() {
        number = number.checked_mul(256)?.checked_add(u64::from(*byte))?;
    }
    Some(number)
}
