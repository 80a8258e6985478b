// How far an open ticket has come.
ghost use Rattle.std.specs.Prelude.{◌≡◌};
ghost use Rattle.open_table.specs.Stages.{Syncs, after_change};

use time::Position;

#[derive(Clone, Copy, Debug, PartialEq, Eq)]
pub enum Stage {
    // its start page is in flight
    Written,
    // its start page is synced: it may be launched
    Logged,
    // the launcher has it
    Running,
    // its finish slip was given
    Finished,
    // its done page is in flight
    Closing,
}

#[derive(Clone, Copy, Debug, PartialEq, Eq)]
pub struct Entry {
    pub ticket: Position,
    pub stage: Stage,
}

// What moves tickets from one stage to another.
#[derive(Clone, Copy, Debug, PartialEq, Eq)]
pub enum Change {
    // the page in flight is synced
    Synced,
    // the launcher took the ticket
    Launched,
    // the launcher told that its run has ended
    Ended,
    // its done page is written
    Settled,
}

// The stage after a change; none where the ticket leaves the table. A change that does not meet its stage moves
// nothing.
pub fn moved(stage: Stage, change: Change) -> Option<Stage>
    ensures { result ≡ after_change stage change }
{
    match (stage, change) {
        (Stage::Written, Change::Synced) => Some(Stage::Logged),
        (Stage::Closing, Change::Synced) => None,
        (Stage::Logged, Change::Launched) => Some(Stage::Running),
        (Stage::Running, Change::Ended) => Some(Stage::Finished),
        (Stage::Finished, Change::Settled) => Some(Stage::Closing),
        (other, _) => Some(other),
    }
}

impl Entry {
    // The page in flight is synced: the stage moves, and the answer says whether the ticket stays in the table.
    pub(crate) fn sync(&mut self) -> bool
        ensures { Syncs self.old self.new result }
    {
        let Some(stage) = moved(self.stage, Change::Synced) else {
            return false;
        };
        self.stage = stage;
        true
    }
}
