// A zone that is given by a table.
ghost use Rattle.std.specs.Prelude.{◌≡◌, true};
ghost use Rattle.zone.specs.Table.{sound as is_sound};

use crate::entry::Entry;

#[derive(Clone, Copy, Debug, PartialEq, Eq)]
pub struct TableZone<'a> {
    pub(crate) entries: &'a [Entry],
    ghost sound: { is_sound entries.now ≡ true },
}
