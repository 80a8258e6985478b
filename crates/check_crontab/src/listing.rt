// A crontab that was taken, as text: written and not displayed, since commands are bytes.
use crate::runs::Runs;
use crontab::{Crontab, Job};
use fields::FieldSet;
use std::io;
use std::io::Write;

fn write_field(out: &mut Vec<u8>, label: &str, field: &FieldSet) -> io::Result<()> {
    write!(out, "  {label:<7} ")?;
    for (k, run) in Runs::of(&field.values).enumerate() {
        let comma = if k > 0 { "," } else { "" };
        write!(out, "{comma}{run}")?;
    }
    out.write_all(if field.starred { b" (*)\n" } else { b"\n" })
}

fn write_job(out: &mut Vec<u8>, job: &Job, command: &[u8]) -> io::Result<()> {
    write_field(out, "minute", &job.minute)?;
    write_field(out, "hour", &job.hour)?;
    write_field(out, "day", &job.day)?;
    write_field(out, "month", &job.month)?;
    write_field(out, "weekday", &job.weekday)?;
    out.write_all(b"  command ")?;
    out.write_all(command)?;
    out.write_all(b"\n")
}

// Each job line with the values of its fields and its command, and then how many there are.
pub(crate) fn write_crontab(out: &mut Vec<u8>, taken: &Crontab<'_>) -> io::Result<()> {
    let jobs = taken.jobs();
    for (k, job) in jobs.iter().enumerate() {
        let line = job.line;
        writeln!(out, "job {k} line {line}")?;
        write_job(out, job, taken.command(k).unwrap_or(b""))?;
    }
    let count = jobs.len();
    writeln!(out, "taken {count}")
}
