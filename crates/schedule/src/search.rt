// The plain search for the next due position: minute by minute, and line by line.
ghost use Rattle.std.specs.Prelude.{◌≡◌, true};
ghost use Rattle.time.specs.Position.{rank};
ghost use Rattle.schedule.specs.Due.{due_line};
ghost use Rattle.schedule.specs.Search.{bounds, NextDue, SearchAnswer};

use crate::moment::Moment;
use crontab::Job;
use time::{FIRST_MINUTE, LAST_MINUTE, LINES, Minute, Position, Served};
use zone::{Refusal, Zone};

// The first due position from `from` on and before minute `before`. Of the private functions this one alone takes a
// zone with job lines, so a struct of the two would be no plainer.
fn search<Z: Zone>(z: &Z, jobs: &[Job], from: Position, before: Minute) -> Option<Position>
    requires from { bounds from.minute.0 ≡ true }
    requires before { bounds before.0 ≡ true }
    ensures { NextDue (due_line (Z.offsets z.now) jobs.now) (rank from) before.0 result }
{
    let mut line = from.line();
    // A for, and no `find_map`: the first minute begins at the line of `from`, each after it at line 0.
    for u in from.minute().count()..before.count() {
        let minute = Minute::new(u);
        let moment = Moment::within(z, Served::new(minute).unwrap());
        if let Some(due) = moment.first_due(jobs, line, LINES) {
            return Position::new(minute, due);
        }
        line = 0;
    }
    None
}

// May a search go from or up to minute `u`?
fn is_bound(u: Minute) -> bool
    ensures { result ≡ bounds u.0 }
{
    u.count() >= FIRST_MINUTE && u.count() <= LAST_MINUTE + 1
}

// The first due position from `from` on and before minute `before`, if there is one.
pub fn next_due<Z: Zone>(
    z: &Z,
    jobs: &[Job],
    from: Position,
    before: Minute,
) -> Result<Option<Position>, Refusal>
    ensures { SearchAnswer (Z.offsets z.now) jobs.now from before result }
{
    if !is_bound(from.minute()) {
        return Err(Refusal::OutOfRange(from.minute()));
    }
    if !is_bound(before) {
        return Err(Refusal::OutOfRange(before));
    }
    Ok(search(z, jobs, from, before))
}
