// The lines of one minute.
ghost use Rattle.std.specs.Prelude.{◌≡◌, ℕ, ◌+◌, ◌-◌, ◌<◌, ◌≤◌, min, true, false, MatchOption};
ghost use Rattle.schedule.specs.Due.{line_due};
ghost use Rattle.std.specs.List.{slice_get};
ghost use Rattle.time.specs.Limits.{lines};

use crontab::Job;
use schedule::Moment;
use time::LINES;

// How many positions there are from this line on to the end of its minute, and no more than so many.
pub(crate) fn lines_left(line: u8, count: u32) -> u8
    requires { line < lines }
    ensures { result ≡ min (lines - line) count }
{
    let left = LINES - line;
    u32::from(left).min(count) as u8
}

// How many of the n lines from this one on come before the first that is due; none if none of them is.
pub(crate) fn lines_before_due(moment: &Moment, jobs: &[Job], line: u8, n: u8) -> Option<u8>
    requires { line + n ≤ lines }
    ensures { MatchOption result
        ((k : ℕ) → k < n → line_due moment.now.window (slice_get jobs.now (line + k)) ≡ false)
        (λ m. (m < n)
        × (line_due moment.now.window (slice_get jobs.now (line + m)) ≡ true)
        × ((k : ℕ) → k < m → line_due moment.now.window (slice_get jobs.now (line + k)) ≡ false)) }
{
    let due = moment.first_due(jobs, line, line + n)?;
    Some(due - line)
}
