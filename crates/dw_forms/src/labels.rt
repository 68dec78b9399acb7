//! Labels of codes, which are small numbers if the codes are few.

ghost use Rattle.std.specs.Prelude.{◌≡◌, IfOk, OnOk};
ghost use Rattle.std.specs.Ordering.{nat_cmp};
ghost use Rattle.std.specs.BTreeMap.{get};
ghost use Rattle.dw_forms.specs.Labels.{label, long_label, HasLabel, AreLabels, LabelsStay};

use std::alloc::{AllocError, Global};
use std::collections::BTreeMap;
use std::collections::btree_map::Entry;

/// The codes from here on are labelled in the order in which they are met, from the greatest number down. Codes below
/// are labels themselves.
const LONG: u64 = 0x10000;

/// A label for each code that was met, so that those of few codes differ in few bits.
#[derive(Debug, Drop)]
pub struct Labels {
    /// Those of the codes that are not labels themselves.
    pub(crate) long: BTreeMap<u64, u64>,
    ghost labels: { AreLabels long },
}

impl Labels {
    /// No code was met.
    pub(crate) fn new(alloc: Global) -> Labels {
        Labels {
            long: BTreeMap::new(alloc),
        }
    }

    /// The label that is kept of a code, or one that no code has. Compilers write no such code, so this is out of line.
    #[inline(never)]
    fn find_long(&self, code: u64) -> u64
        ensures { result ≡ long_label (get nat_cmp self.now.long code) }
    {
        match self.long.get(&code) {
            Some(found) => *found,
            None => LONG,
        }
    }

    /// The label of a code, or one that no code has.
    #[inline(always)]
    pub(crate) fn find(&self, code: u64) -> u64
        ensures { result ≡ label self.now.long code }
    {
        if code < LONG {
            return code;
        }
        self.find_long(code)
    }

    /// The label of a code that is met.
    #[inline(always)]
    pub(crate) fn enter(&mut self, code: u64) -> Result<u64, AllocError>
        ensures label { IfOk result (λ found. found ≡ label self.new.long code) }
        ensures has { OnOk result (HasLabel self.new.long code) }
        ensures stay { OnOk result (LabelsStay self.old.long self.new.long) }
    {
        if code < LONG {
            return Ok(code);
        }
        let next = u64::MAX - self.long.len() as u64;
        match self.long.entry(code)? {
            Entry::Occupied(found) => Ok(*found.get()),
            Entry::Vacant(place) => {
                place.insert(next);
                Ok(next)
            }
        }
    }
}
