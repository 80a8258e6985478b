// Where a minute lies among the entries of a table.
ghost use Rattle.zone.specs.Table.{Parts};

use crate::table_zone::TableZone;

impl<'a> TableZone<'a> {
    // How many entries hold by minute `u`.
    pub(crate) fn place_of(&self, u: u32) -> usize
        ensures { Parts self.now.entries.now u result }
    {
        self.entries.partition_point(|e| e.minute.count() <= u)
    }
}
