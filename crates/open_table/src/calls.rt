// What is done to the table.
ghost use Rattle.std.specs.Prelude.{◌≡◌, [], length, IfOk, is_ok, nat_lt};
ghost use Rattle.open_table.specs.Tables.{after_add, stage_in, table_in};
ghost use Rattle.page.specs.Limits.{most_open};
ghost use Rattle.service.specs.Table.{synced_table, tickets_of};
ghost use Rattle.time.specs.Position.{rank};

use crate::stage::{Entry, Stage};
use crate::table::{Full, Table};
use page::MOST_OPEN;
use std::alloc::{AllocError, Global};
use time::Position;

impl Table {
    // A table without a ticket.
    pub fn new(heap: Global) -> Result<Table, AllocError>
        ensures { IfOk result (λ t. table_in t ≡ []) }
    {
        let entries = Vec::with_capacity(heap, MOST_OPEN)?;
        Ok(Table { entries })
    }

    // Is there a place for one more ticket?
    pub fn has_place(&self) -> bool
        ensures { result ≡ nat_lt (length (tickets_of (table_in self.now))) most_open }
    {
        self.entries.len() < MOST_OPEN
    }

    // The ticket is put at the end, if there is a place for it.
    pub fn add(&mut self, ticket: Position, stage: Stage) -> Result<(), Full>
        ensures answer { is_ok result ≡ nat_lt (length (tickets_of (table_in self.old))) most_open }
        ensures table { table_in self.new ≡ after_add result (table_in self.old) (rank ticket) (stage_in stage) }
    {
        if !self.has_place() {
            return Err(Full);
        }
        self.entries.push_reserved(Entry { ticket, stage });
        Ok(())
    }

    // The page in flight is synced: what was written is logged, and what was closing leaves the table.
    pub fn sync(&mut self)
        ensures { table_in self.new ≡ synced_table (table_in self.old) }
    {
        self.entries.retain_mut(|e| e.sync());
    }
}
