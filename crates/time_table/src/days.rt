// Questions about the calendar.
use calendar::{Date, date_of, weekday_of};
use cases::{Program, parsed};
use std::alloc::Global;
use std::io;
use std::io::Write;

#[derive(Drop)]
pub(crate) struct Dates;

impl Program for Dates {
    fn label(&self) -> &str {
        "date.txt "
    }

    // Answers `DAY` with `YEAR MONTH DAY WEEKDAY`.
    fn answer(&self, _heap: Global, out: &mut Vec<u8>, question: &str) -> io::Result<()> {
        let n = parsed(question)?;
        let Date { year, month, day } = date_of(n);
        let weekday = weekday_of(n);
        write!(out, "{year} {month} {day} {weekday}")
    }
}
