// Whether a job line is due at a minute.
ghost use Rattle.std.specs.Prelude.{◌≡◌, ◌-◌, length, min, true, false, MatchResult};
ghost use Rattle.std.specs.List.{list_any, slice_get};
ghost use Rattle.time.specs.Limits.{served};
ghost use Rattle.zone.specs.Answers.{window as window_at};
ghost use Rattle.zone.specs.Labels.{labels_of};
ghost use Rattle.zone.specs.declared.refusal.Refusal.TheVariants.{OutOfRange};
ghost use Rattle.crontab.specs.Job.{wild};
ghost use Rattle.schedule.specs.Due.{due_answer, due_in, DueMeans, FirstDue, line_due, some_of};
ghost use Rattle.schedule.specs.Match.{matches as matches_label};

use crate::matching::{is_match, matches};
use crate::moment::Moment;
use crate::parts::parts_of;
use crontab::Job;
use time::{Minute, Position, Served};
use zone::{Refusal, Window, Zone, fresh_in, minute_from};

// Does the line match one of the labels of the window? Not inlined: mostly there are none, and then it is not called.
#[inline(never)]
fn any_of(job: &Job, window: Window) -> bool
    ensures { result ≡ list_any (λ l. matches_label job.now l.0) (labels_of window) }
{
    window.labels().any(|label| is_match(job, label))
}

// The same, where it is seen first whether there are labels.
fn any_matches(job: &Job, window: Window) -> bool
    ensures { result ≡ list_any (λ l. matches_label job.now l.0) (labels_of window) }
{
    window.above < window.to && any_of(job, window)
}

// How many lines the file has, and no more than `to`.
fn lines_known(jobs: &[Job], to: u8) -> u8
    ensures { result ≡ min (length jobs.now) to }
{
    jobs.len().min(usize::from(to)) as u8
}

impl Moment {
    // What is to be known of a minute at which a line can be due, found by the zone's offsets.
    pub fn within<Z: Zone>(z: &Z, u: Served) -> Moment
        ensures { result.window ≡ window_at (Z.offsets z.now) u.minute.0 }
    {
        let window = fresh_in(z, u);
        let parts = parts_of(window.to);
        Moment { window, parts }
    }

    // The same of minute `u`, if a line can be due at it.
    pub fn at<Z: Zone>(z: &Z, u: Minute) -> Result<Moment, Refusal>
        ensures { MatchResult result
            (λ m. (served u.0 ≡ true) × (m.window ≡ window_at (Z.offsets z.now) u.0))
            (λ e. (served u.0 ≡ false) × (e ≡ OutOfRange u)) }
    {
        Ok(Moment::within(z, minute_from(u)?))
    }

    // Does a fixed line match a label that the minute is the first to reach? Mostly that is one label, whose parts
    // are at hand.
    fn reaches(&self, job: &Job) -> bool
        ensures { result ≡ some_of (self.now.window.to.0 - self.now.window.above.0)
            (matches_label job.now) self.now.window.to.0 }
    {
        let Window { above, to } = self.window;
        if to <= above {
            return false;
        }
        let earlier = Window {
            above,
            to: to.previous(),
        };
        matches(job, self.parts) || any_matches(job, earlier)
    }

    // Is the line due?
    pub fn is_due(&self, job: &Job) -> bool
        ensures { result ≡ due_in (wild job.now) (matches_label job.now)
            self.now.window.above.0 self.now.window.to.0 }
    {
        if job.is_wild() {
            matches(job, self.parts)
        } else {
            self.reaches(job)
        }
    }

    // Is line `k` due? Lines past the last job never are.
    pub fn is_line_due(&self, jobs: &[Job], k: u8) -> bool
        ensures { result ≡ line_due self.now.window (slice_get jobs.now k) }
    {
        jobs.get(usize::from(k)).is_some_and(|job| self.is_due(job))
    }

    // The first line from `from` on and below `to` that is due. Lines that the file lacks are not asked about.
    pub fn first_due(&self, jobs: &[Job], from: u8, to: u8) -> Option<u8>
        ensures { FirstDue self.now.window jobs.now from to result }
    {
        (from..lines_known(jobs, to)).find(|k| self.is_line_due(jobs, *k))
    }
}

// Is the position's line due at its minute?
pub fn due_at<Z: Zone>(z: &Z, jobs: &[Job], p: Position) -> Result<bool, Refusal>
    ensures { result ≡ due_answer (Z.offsets z.now) jobs.now p }
{
    let moment = Moment::at(z, p.minute())?;
    Ok(moment.is_line_due(jobs, p.line()))
}

// The test by computation says what the rule says.
pub fn due_means_what_the_rule_says()
    ensures { DueMeans }
{}
