// What the reader of crontabs answers to a file, as text: written, since reading may want memory, which no display tells.
use crontab::{Crontab, Job};
use fields::{FieldSet, Values};
use std::alloc::Global;
use std::io::Write;
use std::{fmt, io};

// The values as a number with bit `v` set for each value `v`.
fn mask(values: &Values) -> u64 {
    (0..64u32)
        .filter(|v| values.contains(*v))
        .fold(0, |bits, v| bits | 1u64.wrapping_shl(v))
}

fn fields_of(job: &Job) -> [FieldSet; 5] {
    [job.minute, job.hour, job.day, job.month, job.weekday]
}

// A job line as `[KIND M H D MO W STARS AT LEN]`.
#[derive(Drop)]
struct Row<'a>(&'a Job);

impl<'a> fmt::Display for Row<'a> {
    fn fmt<W: fmt::Write>(&self, f: &mut fmt::Formatter<W>) -> fmt::Result {
        let job = self.0;
        f.write_str(if job.is_wild() { "[wild" } else { "[fixed" })?;
        for field in fields_of(job) {
            let bits = mask(&field.values);
            write!(f, " {bits:x}")?;
        }
        f.write_str(" ")?;
        for field in fields_of(job) {
            f.write_str(if field.starred { "1" } else { "0" })?;
        }
        let at = job.command.at;
        let length = job.command.length;
        write!(f, " {at} {length}]")
    }
}

fn write_taken(out: &mut Vec<u8>, taken: &Crontab<'_>) -> io::Result<()> {
    out.write_all(b"ok")?;
    for job in taken.jobs() {
        let row = Row(job);
        write!(out, " {row}")?;
    }
    Ok(())
}

pub(crate) fn write_answer(heap: Global, out: &mut Vec<u8>, file: &[u8]) -> io::Result<()> {
    match crontab::read(heap, file) {
        Ok(taken) => write_taken(out, &taken),
        Err(refusal) => match refusal.code() {
            Some(code) => write!(out, "{code}"),
            None => Err(io::Error::from(io::ErrorKind::OutOfMemory)),
        },
    }
}
