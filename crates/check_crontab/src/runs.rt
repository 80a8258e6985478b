// The values of a field as runs of numbers that follow one another.
ghost use Rattle.std.specs.Prelude.{◌≡◌, ◌-◌, ◌<◌, ◌≤◌, true, false, MatchOption};
ghost use Rattle.std.specs.Iterator.{at_most};
ghost use Rattle.check_crontab.specs.Runs.{NextRun, held, same};

use fields::Values;
use std::fmt;

// The numbers from `first` to `last`, both among them.
#[derive(Clone, Copy, Debug, PartialEq, Eq)]
pub(crate) struct Run {
    pub(crate) first: u32,
    pub(crate) last: u32,
}

impl fmt::Display for Run {
    fn fmt<W: fmt::Write>(&self, f: &mut fmt::Formatter<W>) -> fmt::Result {
        let Run { first, last } = *self;
        if first == last {
            write!(f, "{first}")
        } else {
            write!(f, "{first}-{last}")
        }
    }
}

// The first of the values from `from` on.
fn first_held(values: &Values, from: u32) -> Option<u32>
    ensures { MatchOption result
        (same false values.now from 64)
        (λ v. (from ≤ v) × (v < 64)
        × (held values.now v ≡ true)
        × same false values.now from v) }
{
    (from..64).find(|v| values.contains(*v))
}

// The first number from `from` on that is none of the values. They come by value: only of a value of its own does the
// proof know that it has 64 places, so that 64 is none of them.
fn first_free(values: Values, from: u32) -> u32
    requires { from ≤ 64 }
    ensures within { (from ≤ result) × (result ≤ 64) }
    ensures before { same true values from result }
    ensures free { held values result ≡ false }
{
    (from..64).find(|v| !values.contains(*v)).unwrap_or(64)
}

// The longest run that begins with the first of the values from `from` on.
pub(crate) fn next_run(values: &Values, from: u32) -> Option<Run>
    ensures { NextRun values.now from result }
{
    let first = first_held(values, from)?;
    let last = first_free(*values, first + 1) - 1;
    Some(Run { first, last })
}

// The runs of the values, from `from` on.
#[derive(Drop)]
pub(crate) struct Runs<'a> {
    values: &'a Values,
    from: u32,
}

impl<'a> Runs<'a> {
    pub(crate) fn of(values: &'a Values) -> Runs<'a> {
        Runs { values, from: 0 }
    }
}

impl<'a> Iterator for Runs<'a> {
    type Item = Run;

    ghost remaining = { λ s. at_most (64 - s.from) };

    fn next(&mut self) -> Option<Run> {
        let run = next_run(self.values, self.from)?;
        self.from = run.last + 1;
        Some(run)
    }
}
