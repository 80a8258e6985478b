// The Gregorian calendar, by days since 1970-01-01.
#![tactic(auto)]

ghost use Rattle.std.specs.Prelude.{◌≡◌, ◌<◌, Some};
ghost use Rattle.calendar.specs.Calendar.{date, DaysFollow, from_month, leap, month_days, weekday, year_days};
ghost use Rattle.calendar.specs.Text.{date_text};

use std::fmt;

// How many minutes a day has.
pub const MINUTES_A_DAY: u32 = 1_440;

#[derive(Clone, Copy, Debug, PartialEq, Eq, PartialOrd, Ord)]
pub struct Date {
    pub year: u32,
    // from 1
    pub month: u32,
    // from 1
    pub day: u32,
}

// The text `YYYY-MM-DD`.
impl fmt::Display for Date {
    ghost output = { λ d. Some (date_text d) };

    fn fmt<W: fmt::Write>(&self, f: &mut fmt::Formatter<W>) -> fmt::Result {
        let Date { year, month, day } = *self;
        write!(f, "{year:04}-{month:02}-{day:02}")
    }
}

// A year, and how many days of it have passed.
#[derive(Clone, Copy, Debug, PartialEq, Eq)]
struct Passed {
    year: u32,
    days: u32,
}

fn is_leap(y: u32) -> bool
    ensures { result ≡ leap y }
{
    y % 4 == 0 && (y % 100 != 0 || y % 400 == 0)
}

fn days_in_year(y: u32) -> u32
    ensures { result ≡ year_days y }
{
    if is_leap(y) { 366 } else { 365 }
}

fn days_in_month(y: u32, m: u32) -> u32
    ensures { result ≡ month_days y m }
{
    match m {
        2 => if is_leap(y) { 29 } else { 28 },
        4 | 6 | 9 | 11 => 30,
        _ => 31,
    }
}

// The year of day `n`, counted up from 1970.
fn year_of(n: u32) -> Passed
    ensures same { from_month 11 result.year 1 result.days ≡ date n }
    ensures bound { result.days < 366 }
{
    // A while: a range would name a last year (1970 + n / 365 is late enough) for the proof alone, and be no plainer.
    let mut year = 1970;
    let mut days = n;
    'years: while days >= days_in_year(year) {
        days -= days_in_year(year);
        year += 1;
    }
    Passed { year, days }
}

// The month of a day of a year, counted up from January.
fn month_of(p: Passed) -> Date
    requires { p.days < 366 }
    ensures { result ≡ from_month 11 p.year 1 p.days }
{
    let year = p.year;
    let mut days = p.days;
    for month in 1..12 {
        let length = days_in_month(year, month);
        if days < length {
            return Date {
                year,
                month,
                day: days + 1,
            };
        }
        days -= length;
    }
    Date {
        year,
        month: 12,
        day: days + 1,
    }
}

// The date of day `n`, where day 0 is 1970-01-01.
pub fn date_of(n: u32) -> Date
    ensures { result ≡ date n }
{
    month_of(year_of(n))
}

// The weekday of day `n`: Sunday is 0.
pub fn weekday_of(n: u32) -> u32
    ensures { result ≡ weekday n }
{
    // 1970-01-01 was a Thursday
    (n % 7 + 4) % 7
}

// Counting gives the dates one after the other, as a calendar has them.
pub fn days_follow_each_other()
    ensures { DaysFollow }
{}
