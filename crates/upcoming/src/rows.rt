// The rows: which lines are due at which minutes. They are written and not displayed as a whole: each minute is looked
// up as its rows come.
ghost use Rattle.std.specs.Prelude.{◌≡◌, false, MatchResult};
ghost use Rattle.time.specs.Limits.{served as is_served};
ghost use Rattle.upcoming.specs.declared.fault.Refusal.TheVariants.{Minute as NoMinute};

use crate::fault::Refusal;
use calendar::{MINUTES_A_DAY, date_of};
use crontab::Job;
use schedule::Moment;
use std::io::Write;
use std::{fmt, io};
use time::{Minute, Served, Told};
use zone::{Label, Zone, label_in};

// The minutes from `from` to `to`, both among them.
#[derive(Clone, Copy, Debug, PartialEq, Eq)]
pub(crate) struct Span {
    from: Served,
    to: Served,
}

// A minute at which a line can be due.
fn served(count: u64) -> Result<Served, Refusal>
    ensures { MatchResult result
        (λ s. s.minute.0 ≡ count)
        (λ e. (e ≡ NoMinute count) × (is_served count ≡ false)) }
{
    u32::try_from(count)
        .ok()
        .and_then(|u| Served::new(Minute::new(u)))
        .ok_or(Refusal::Minute(count))
}

pub(crate) fn span_of(from: u64, to: u64) -> Result<Span, Refusal> {
    Ok(Span {
        from: served(from)?,
        to: served(to)?,
    })
}

// What a local clock shows, as `YYYY-MM-DD HH:MM`.
#[derive(Clone, Copy, Debug, PartialEq, Eq)]
struct Clock(Label);

impl fmt::Display for Clock {
    fn fmt<W: fmt::Write>(&self, f: &mut fmt::Formatter<W>) -> fmt::Result {
        let count = self.0.count();
        let date = date_of(count / MINUTES_A_DAY);
        let hour = count % MINUTES_A_DAY / 60;
        let minute = count % 60;
        write!(f, "{date} {hour:02}:{minute:02}")
    }
}

fn write_row<Z: Zone>(out: &mut Vec<u8>, z: &Z, line: usize, minute: Served) -> io::Result<()> {
    let u = minute.minute().count();
    let clock = Clock(label_in(z, Told::from(minute)));
    writeln!(out, "{line} {u} {clock}")
}

// The rows of the lines that are due at `minute`, and how many they are.
fn write_minute<Z: Zone>(
    out: &mut Vec<u8>,
    z: &Z,
    jobs: &[Job],
    minute: Served,
) -> io::Result<u64> {
    let moment = Moment::within(z, minute);
    let mut due = 0u64;
    for (line, job) in jobs.iter().enumerate() {
        if moment.is_due(job) {
            write_row(out, z, line, minute)?;
            due = due.saturating_add(1);
        }
    }
    Ok(due)
}

// The rows of all lines, by minute and then by line, and how many they are.
pub(crate) fn write_rows<Z: Zone>(
    out: &mut Vec<u8>,
    z: &Z,
    jobs: &[Job],
    span: Span,
) -> io::Result<()> {
    let mut due = 0u64;
    for u in span.from.minute().count()..=span.to.minute().count() {
        let minute = Served::new(Minute::new(u)).unwrap();
        due = due.saturating_add(write_minute(out, z, jobs, minute)?);
    }
    writeln!(out, "due {due}")
}
