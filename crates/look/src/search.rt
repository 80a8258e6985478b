// Minute by minute, up to the first due position.
ghost use Rattle.std.specs.Prelude.{◌≡◌, true};
ghost use Rattle.look.specs.Examined.{Examined, due_of, last_examined, within};
ghost use Rattle.service.specs.Outcomes.{before_due};
ghost use Rattle.time.specs.Position.{rank};

use crate::lines::{lines_before_due, lines_left};
use crontab::Job;
use schedule::Moment;
use time::{FIRST_MINUTE, LAST_MINUTE, LINES, Minute, Position, Served};
use zone::Zone;

// The minute of the last of so many positions.
fn last_examined(from: Position, count: u32) -> u64
    ensures { result ≡ last_examined (rank from) count }
{
    (from.rank() + u64::from(count).saturating_sub(1)) / u64::from(LINES)
}

// Are so many positions from this one on at minutes at which a line can be due?
fn is_within(from: Position, count: u32) -> bool
    ensures { result ≡ within from count }
{
    FIRST_MINUTE <= from.minute().count() && last_examined(from, count) <= u64::from(LAST_MINUTE)
}

// Of the private functions this one alone takes a zone with job lines, so a struct of the two would be no plainer.
fn before_due<Z: Zone>(zone: &Z, jobs: &[Job], from: Position, count: u32) -> u32
    requires { within from count ≡ true }
    ensures { result ≡ before_due (due_of (Z.Zone.offsets zone.now) jobs.now) (rank from) count }
{
    let mut line = from.line();
    let mut examined = 0;
    // A for, and no `find_map`: what a minute begins with, `line` and `examined`, is what the one before it left.
    for u in from.minute().count()..last_examined(from, count) as u32 + 1 {
        let minute = Served::new(Minute::new(u)).unwrap();
        let n = lines_left(line, count - examined);
        if let Some(before) = lines_before_due(&Moment::within(zone, minute), jobs, line, n) {
            return examined + u32::from(before);
        }
        examined += u32::from(n);
        line = 0;
    }
    examined
}

// How many of so many positions from this one on come before the first due one: all of them if none is due. None where
// a line can be due at no minute of one of them.
pub fn examine<Z: Zone>(zone: &Z, jobs: &[Job], from: Position, count: u32) -> Option<u32>
    ensures { Examined (Z.Zone.offsets zone.now) jobs.now from count result }
{
    if !is_within(from, count) {
        return None;
    }
    if count == 0 {
        // of no position, so not even the first minute is looked up
        return Some(0);
    }
    Some(before_due(zone, jobs, from, count))
}
