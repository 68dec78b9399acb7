//! The children of an entry (DWARF 5, 2.3).

ghost use Rattle.std.specs.Prelude.{◌≡◌, ◌<◌, length};
ghost use Rattle.std.specs.Option.{ForSome};
ghost use Rattle.dw_entries.specs.Views.{all_entries};
ghost use Rattle.dw_types.specs.Children.{children_of, siblings_from, IsChildOf};

use dw_entries::{Entries, EntryId};

/// The first child of an entry: the entry after it, if that is a child.
#[inline(always)]
fn first_child(entries: &Entries<'_>, id: EntryId) -> Option<EntryId>
    requires { id < length (all_entries entries.now) }
    ensures children { siblings_from (all_entries entries.now) id result ≡ children_of (all_entries entries.now) id }
    ensures linked { ForSome result (IsChildOf (all_entries entries.now) id) }
{
    let number = id.number() + 1;
    if number >= entries.count() {
        return None;
    }
    let behind = entries.id(number);
    match entries.parent(behind) {
        Some(above) if above == id => Some(behind),
        _ => None,
    }
}

/// The children of an entry that are left, in rising offset.
#[derive(Drop)]
pub struct Children<'e, 'a> {
    entries: &'e Entries<'a>,
    parent: EntryId,
    next: Option<EntryId>,
    ghost linked: { ForSome next (IsChildOf (all_entries entries.now) parent) },
}

impl<'e, 'a> Children<'e, 'a> {
    ghost use Rattle.dw_types.specs.ChildrenLeft.{children_left};

    /// The children of an entry.
    #[inline(always)]
    pub fn of(entries: &'e Entries<'a>, id: EntryId) -> Self
        requires { id < length (all_entries entries.now) }
        ensures { children_left result ≡ children_of (all_entries entries.now) id }
    {
        Children {
            entries,
            parent: id,
            next: first_child(entries, id),
        }
    }
}

impl<'e, 'a> Iterator for Children<'e, 'a> {
    type Item = EntryId;

    ghost use Rattle.std.specs.Iterator.{YieldsFirst, item_count};
    ghost use Rattle.dw_types.specs.ChildrenLeft.{children_left};

    ghost next_gives = { YieldsFirst children_left };

    ghost remaining = { item_count children_left };

    #[inline(always)]
    fn next(&mut self) -> Option<EntryId> {
        let id = self.next?;
        self.next = self.entries.next_sibling(id);
        Some(id)
    }
}
