// Questions about due lines: the least label for which a line is due at a minute.
ghost use Rattle.std.specs.Prelude.{◌≡◌, if◌then◌else◌, Some, None, MatchBool};
ghost use Rattle.crontab.specs.Job.{wild};
ghost use Rattle.schedule.specs.Match.{matches as matches_label};
ghost use Rattle.time_table.specs.Least.{Least};

use crate::text::entries;
use crate::zones::write_code;
use cases::{Program, parsed, parted};
use crontab::Job;
use schedule::{due_at, matches, parts_of};
use std::alloc::Global;
use std::io;
use std::io::Write;
use time::{Minute, Position};
use zone::{Label, Refusal, TableZone, Window, Zone, fresh};

// The least label of the window that the job line matches.
fn least_match(job: &Job, window: Window) -> Option<Label>
    ensures { Least (matches_label job.now) window.above.0 window.to.0 result }
{
    window.labels().find(|label| matches(job, parts_of(*label)))
}

// The least label for which the job line is due: a wild line goes by the label of the minute itself.
fn least_due(job: &Job, window: Window) -> Option<Label>
    ensures { MatchBool (wild job.now)
        (result ≡ (if matches_label job.now window.to.0 then Some window.to else None))
        (Least (matches_label job.now) window.above.0 window.to.0 result) }
{
    if !job.is_wild() {
        return least_match(job, window);
    }
    matches(job, parts_of(window.to)).then_some(window.to)
}

// Why a line has no label.
#[derive(Clone, Copy, Debug, PartialEq, Eq)]
enum Fault {
    Refused(Refusal),
    // the line is due and no label says so, or the other way round
    Disagree,
}

impl From<Refusal> for Fault {
    fn from(refusal: Refusal) -> Fault {
        Fault::Refused(refusal)
    }
}

// What the libraries say of the first line, once as a whole and once label by label.
fn ask<Z: Zone>(z: &Z, jobs: &[Job], u: Minute) -> Result<Option<Label>, Fault> {
    let window = fresh(z, u)?;
    let due = due_at(z, jobs, Position::start_of(u))?;
    let label = jobs.first().and_then(|job| least_due(job, window));
    if due == label.is_some() {
        Ok(label)
    } else {
        Err(Fault::Disagree)
    }
}

fn write_answer<Z: Zone>(out: &mut Vec<u8>, z: &Z, jobs: &[Job], u: Minute) -> io::Result<()> {
    match ask(z, jobs, u) {
        Ok(Some(label)) => {
            let count = label.count();
            write!(out, "{count}")
        }
        Ok(None) => out.write_all(b"none"),
        Err(Fault::Refused(refusal)) => write_code(out, refusal.code()),
        Err(Fault::Disagree) => out.write_all(b"due and labels that do not agree"),
    }
}

#[derive(Drop)]
pub(crate) struct Dues;

impl Program for Dues {
    fn label(&self) -> &str {
        "due.txt "
    }

    // Answers `TABLE | FIELDS | u`.
    fn answer(&self, heap: Global, out: &mut Vec<u8>, question: &str) -> io::Result<()> {
        let (table, rest) = parted(question, " | ")?;
        let (fields, u) = parted(rest, " | ")?;
        let entries = entries(heap, table)?;
        let zone = match TableZone::checked(entries.as_slice()) {
            Ok(zone) => zone,
            Err(refusal) => return write_code(out, refusal.code()),
        };
        let file = format!(in heap; "{fields} x\n")?;
        let u = Minute::new(parsed(u)?);
        match crontab::read(heap, file.as_bytes()) {
            Ok(taken) => write_answer(out, &zone, taken.jobs(), u),
            Err(_) => out.write_all(b"a crontab that is not taken"),
        }
    }
}
