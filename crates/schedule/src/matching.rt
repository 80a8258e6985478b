// The labels that a job line matches.
ghost use Rattle.std.specs.Prelude.{◌≡◌};
ghost use Rattle.schedule.specs.Match.{matches as matches_label, matches_parts, on_day};

use crate::parts::{Parts, parts_of};
use calendar::MINUTES_A_DAY;
use crontab::Job;
use zone::Label;

// Day and weekday have to fit both; if neither is starred, either is enough.
fn is_on_day(job: &Job, p: Parts) -> bool
    ensures { result ≡ on_day job.now p }
{
    let day = job.day.values.contains(p.day);
    let weekday = job.weekday.values.contains(p.weekday);
    if job.day.starred || job.weekday.starred {
        day && weekday
    } else {
        day || weekday
    }
}

// Does the job line match a label with these parts?
pub fn matches(job: &Job, p: Parts) -> bool
    ensures { result ≡ matches_parts job.now p }
{
    job.minute.values.contains(p.minute)
        && job.hour.values.contains(p.hour)
        && job.month.values.contains(p.month)
        && is_on_day(job, p)
}

// Does the job line match the label? Its date, for which years are counted, is found only where its time of day fits.
pub(crate) fn is_match(job: &Job, label: Label) -> bool
    ensures { result ≡ matches_label job.now label.0 }
{
    let count = label.count();
    job.minute.values.contains(count % 60)
        && job.hour.values.contains(count % MINUTES_A_DAY / 60)
        && matches(job, parts_of(label))
}
