//! Where lists of attributes end. Lists that are kept one after another and have one end share it.

ghost use Rattle.std.specs.Prelude.{◌≤◌, OnOk};
ghost use Rattle.std.specs.List.Sorted.{IsNonDecreasingBy};
ghost use Rattle.dw_forms.specs.ListOffsets.{AreUpTo, IsEndAdded};

use std::alloc::AllocError;

/// The end of lists that are kept one after another.
#[derive(Clone, Copy, Debug)]
pub struct SharedEnd {
    /// How many lists are kept before them.
    pub(crate) before: u32,
    /// The offset after each of them.
    pub(crate) end: u32,
}

/// How many of the ends are those of this list, which counts from 0, or of lists before it.
pub(crate) fn ends_up_to(ends: &[SharedEnd], list: u32) -> usize
    requires { IsNonDecreasingBy (λ e. e.before) ends.now }
    ensures { AreUpTo list ends.now result }
{
    ends.partition_point(|shared| shared.before <= list)
}

/// Adds the end of one more list, after so many. If the list before it has the same end, they share it.
pub(crate) fn push_end(ends: &mut Vec<SharedEnd>, before: u32, end: u32) -> Result<(), AllocError>
    ensures { OnOk result (IsEndAdded before end ends.old.items ends.new.items) }
{
    let count = ends.len();
    if count != 0 && ends[count - 1].end == end {
        return Ok(());
    }
    ends.push(SharedEnd { before, end })?;
    Ok(())
}
