// The zone of a table.
ghost use Rattle.std.specs.Prelude.{◌≡◌, MatchResult, None, Some};
ghost use Rattle.std.specs.Option.{option_map};
ghost use Rattle.zone.specs.Offsets.{NextChange};
ghost use Rattle.zone.specs.Table.{table_fault, table_offset, taken};
ghost use Rattle.zone.specs.declared.refusal.Refusal.TheVariants.{BadTable};

use crate::entry::Entry;
use crate::refusal::Refusal;
use crate::rules::fault_of;
use crate::table_zone::TableZone;
use crate::told::minute_from;
use crate::zone::Zone;
use time::{FIRST_TOLD, Minute};

// The zone of a table, and why the table was refused, if it was. No Result: a refused table has a zone too.
#[derive(Clone, Copy, Debug, PartialEq, Eq)]
pub struct Checked<'a> {
    pub zone: TableZone<'a>,
    pub refusal: Option<Refusal>,
}

impl<'a> TableZone<'a> {
    // The zone of a table, unless the table is refused.
    pub fn checked(entries: &'a [Entry]) -> Result<TableZone<'a>, Refusal>
        ensures { MatchResult result
            (λ z. (table_fault entries.now ≡ None) × (z.entries.now ≡ entries.now))
            (λ e. option_map BadTable (table_fault entries.now) ≡ Some e) }
    {
        match fault_of(entries) {
            None => Ok(TableZone { entries }),
            Some(index) => Err(Refusal::BadTable(index)),
        }
    }

    // The zone of a table; of one that is refused, UTC.
    pub fn new(entries: &'a [Entry]) -> Checked<'a>
        ensures refusal { result.refusal ≡ option_map BadTable (table_fault entries.now) }
        ensures zone { result.zone.entries.now ≡ taken entries.now }
    {
        match TableZone::checked(entries) {
            Ok(zone) => Checked {
                zone,
                refusal: None,
            },
            Err(refusal) => Checked {
                zone: TableZone { entries: &[] },
                refusal: Some(refusal),
            },
        }
    }

    // The offset in force at minute `u`.
    fn offset_by(&self, u: u32) -> i32
        ensures { result ≡ table_offset self.now.entries.now u }
    {
        self.entries[..self.place_of(u)]
            .last()
            .map_or(0, |entry| entry.offset)
    }

    // The minute of the first entry after minute `u`, at which the offset changes.
    fn change_after(&self, u: u32) -> Option<Minute>
        ensures { NextChange (table_offset self.now.entries.now) u (option_map (λ m. m.0) result) }
    {
        self.entries.get(self.place_of(u)).map(|entry| entry.minute)
    }
}

impl<'a> Zone for TableZone<'a> {
    ghost offsets = { λ z. table_offset z.entries.now };

    fn lawful(&self) {}

    fn offset_at(&self, u: Minute) -> Result<i32, Refusal> {
        minute_from::<FIRST_TOLD>(u)?;
        Ok(self.offset_by(u.count()))
    }

    fn next_change(&self, u: Minute) -> Result<Option<Minute>, Refusal> {
        minute_from::<FIRST_TOLD>(u)?;
        Ok(self.change_after(u.count()))
    }
}
