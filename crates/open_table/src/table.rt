// The table.
ghost use Rattle.std.specs.Prelude.{◌≤◌, vec_capacity};
ghost use Rattle.page.specs.Limits.{most_open};

use crate::stage::Entry;

// There is room for all open tickets from the start, so that no call needs memory. The journal's state has such a list
// too, for which see there.
#[derive(Drop)]
pub struct Table {
    pub(crate) entries: Vec<Entry>,
    ghost room: { most_open ≤ vec_capacity entries },
}

// There is no place for one more ticket, and none was added.
#[derive(Clone, Copy, Debug, PartialEq, Eq)]
pub struct Full;
