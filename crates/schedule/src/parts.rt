// The parts of a label that a job line is matched with.
ghost use Rattle.std.specs.Prelude.{◌≡◌};
ghost use Rattle.schedule.specs.Match.{parts};

use calendar::{MINUTES_A_DAY, date_of, weekday_of};
use zone::Label;

#[derive(Clone, Copy, Debug, PartialEq, Eq)]
pub struct Parts {
    pub minute: u32,
    pub hour: u32,
    pub day: u32,
    pub month: u32,
    pub weekday: u32,
}

pub fn parts_of(label: Label) -> Parts
    ensures { result ≡ parts label.0 }
{
    let count = label.count();
    let number = count / MINUTES_A_DAY;
    let date = date_of(number);
    Parts {
        minute: count % 60,
        hour: count % MINUTES_A_DAY / 60,
        day: date.day,
        month: date.month,
        weekday: weekday_of(number),
    }
}
