//! What some declarations need, found once for all of them: what they reach, what of that reaches a cycle, and what is
//! known of the rest.

ghost use Rattle.std.specs.Prelude.{◌≡◌, max, ℕ};
ghost use Rattle.std.specs.List.{list_any};
ghost use Rattle.dw_cprint.specs.Judgements.{IsRefusalBelow};
ghost use Rattle.dw_cprint.specs.Summaries.{known_of, summary_at, AreFindingsOf, IsEither};
ghost use Rattle.dw_cprint.specs.Summaries.{lacks_summary};
ghost use Rattle.dw_cprint.specs.Refusals.{HoldsNoneBelow};
ghost use Rattle.dw_cprint.specs.Shapes.{ShapeOf, SubjectOf};

use crate::fault::PrintFault;
use crate::shape::{Shape, TypeKind};
use crate::source::TypeAt;

/// The most spelling steps of a path that is printed.
const STEP_LIMIT: u8 = 64;

/// What is found of an entry and of those that it reaches.
#[derive(Clone, Copy, Debug, PartialEq, Eq)]
pub struct Findings {
    /// Whether the second, the third and the fourth refusal hold.
    pub bad_name: bool,
    pub foreign: bool,
    pub unspeakable: bool,
    /// How many steps the longest path has that begins with one to it, at most 255.
    pub depth: u8,
}

/// What is found where there is no entry.
pub const NOTHING: Findings = Findings {
    bad_name: false,
    foreign: false,
    unspeakable: false,
    depth: 0,
};

impl Findings {
    /// What is found of one and the other.
    #[inline]
    pub fn with(self, other: Findings) -> Findings
        ensures either { IsEither self other result }
        ensures depth { result.depth ≡ max self.depth other.depth }
    {
        Findings {
            bad_name: self.bad_name || other.bad_name,
            foreign: self.foreign || other.foreign,
            unspeakable: self.unspeakable || other.unspeakable,
            depth: self.depth.max(other.depth),
        }
    }

    /// The first refusal that they show of a declaration for which the first one does not hold.
    pub fn first(self) -> Option<PrintFault>
        ensures { (shapes : ℕ → ShapeOf) (subject : SubjectOf) → HoldsNoneBelow 2 shapes subject
            → AreFindingsOf shapes subject self → IsRefusalBelow 6 shapes subject result }
    {
        if self.bad_name {
            return Some(PrintFault::BadName);
        }
        if self.foreign {
            return Some(PrintFault::Foreign);
        }
        if self.unspeakable {
            return Some(PrintFault::Unspeakable);
        }
        if self.depth > STEP_LIMIT {
            return Some(PrintFault::TooDeep);
        }
        None
    }
}

/// What is known of a type that reaches no cycle.
#[derive(Clone, Copy, Debug)]
pub struct Summary {
    pub kind: TypeKind,
    /// The kind of the type under its row of qualifiers, or its own, if it is no qualifier.
    pub base: TypeKind,
    pub findings: Findings,
    /// How many bytes its text has without a declarator, or the limit plus one if there are more than the limit.
    pub length: u32,
}

/// What is known of void.
pub const VOID: Summary = Summary {
    kind: TypeKind::Void,
    base: TypeKind::Void,
    findings: NOTHING,
    length: 4,
};

/// What is told of a type that reaches a cycle: nothing is known of it.
pub const UNKNOWN: Summary = Summary {
    kind: TypeKind::Other,
    base: TypeKind::Other,
    findings: NOTHING,
    length: 0,
};

/// What some declarations need. Each entry that they reach is a node.
#[derive(Drop)]
pub struct Survey<'a> {
    /// The node of each entry that is found, by the entry's number.
    pub places: Vec<u32>,
    /// The shape of each node's entry.
    pub shapes: Vec<Shape<'a>>,
    /// The summary of each node that reaches no cycle.
    pub summaries: Vec<Option<Summary>>,
}

impl<'a> Survey<'a> {
    /// What is known of a type, if it reaches no cycle.
    #[inline]
    fn summary(&self, at: TypeAt) -> Option<Summary>
        ensures { result ≡ summary_at VOID self.now.places.items self.now.summaries.items at }
    {
        let Some(entry) = at.get() else {
            return Some(VOID);
        };
        let place = self.places.get(entry as usize)?;
        *self.summaries.get(*place as usize)?
    }

    /// What is known of a type, or `UNKNOWN`.
    #[inline]
    pub fn known(&self, at: TypeAt) -> Summary
        ensures { result ≡ known_of self.now at }
    {
        self.summary(at).unwrap_or(UNKNOWN)
    }

    /// Whether one of these types reaches a cycle.
    pub fn reaches_cycle(&self, types: &[TypeAt]) -> bool
        ensures { result ≡ list_any (lacks_summary self.now) types.now }
    {
        types.iter().any(|at| self.summary(*at).is_none())
    }
}
