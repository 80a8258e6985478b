// A refusal, as text. What has lines of the file in it is written and not displayed, since those are bytes.
use crontab::{Code, Place, Refusal};
use fields::{Fault, Field};
use std::io::Write;
use std::{fmt, io};

// Three texts of a field: a type displays itself in one way only.
fn name(f: Field) -> &'static str {
    match f {
        Field::Minute => "minute",
        Field::Hour => "hour",
        Field::Day => "day",
        Field::Month => "month",
        Field::Weekday => "weekday",
    }
}

// The numbers that a field takes.
fn numbers(f: Field) -> &'static str {
    match f {
        Field::Minute => "0 to 59",
        Field::Hour => "0 to 23",
        Field::Day => "1 to 31",
        Field::Month => "1 to 12",
        Field::Weekday => "0 to 7, and 7 is Sunday as 0 is",
    }
}

// What a field takes beside numbers.
fn names(f: Field) -> &'static str {
    match f {
        Field::Minute | Field::Hour | Field::Day => "",
        Field::Month => ", or a name of three letters, as jan",
        Field::Weekday => ", or a name of three letters, as mon",
    }
}

fn write_element(out: &mut Vec<u8>, fault: Fault, f: Field) -> io::Result<()> {
    let name = name(f);
    match fault {
        Fault::NoSuchElement => {
            let names = names(f);
            write!(
                out,
                "This is no element of the {name} field; it takes *, */n, a, a-b and a-b/n \
                 with numbers of one or two digits{names}.\n",
            )
        }
        Fault::OutOfRange => {
            let numbers = numbers(f);
            writeln!(
                out,
                "A number is out of range; the {name} field takes {numbers}."
            )
        }
        Fault::Turned => out.write_all(
            b"The range runs backwards or its step is 0; write the smaller number first and a step from 1.\n",
        ),
    }
}

// What is wrong, and what would be taken.
fn write_reason(out: &mut Vec<u8>, refusal: Refusal) -> io::Result<()> {
    let reason = match refusal {
        Refusal::FileTooLong => "The file is longer than 16,384 bytes, the most that is taken.",
        Refusal::LineTooLong(_) => "The line is longer than 1,000 bytes, the most that is taken.",
        Refusal::ForbiddenByte(_) =>
            "This is a control byte; only tab and bytes from 32 on are taken.",
        Refusal::TooManyJobs(_) => "This is a 65th job line; a file has at most 64.",
        Refusal::Element(fault, _, f) => return write_element(out, fault, f),
        Refusal::Missing(_) =>
            "A field or the command is missing; a job line has five fields and a command.",
        Refusal::Memory => return Err(io::Error::from(io::ErrorKind::OutOfMemory)),
    };
    writeln!(out, "{reason}")
}

// The number of a refusal, and the place that is refused.
#[derive(Drop)]
struct Heading(Code);

impl fmt::Display for Heading {
    fn fmt<W: fmt::Write>(&self, f: &mut fmt::Formatter<W>) -> fmt::Result {
        let Code {
            number,
            place,
            field,
        } = self.0;
        write!(f, "refused {number}")?;
        if let Some(Place { line, column }) = place {
            write!(f, " line {line} column {column}")?;
        }
        if let Some(field) = field {
            write!(f, " field {field}")?;
        }
        Ok(())
    }
}

// Line `n` of the file, counted from 1.
fn line_of(file: &[u8], n: usize) -> &[u8] {
    let mut lines = file.split(|b| *b == b'\n');
    lines.nth(n.saturating_sub(1)).unwrap_or(b"")
}

// The line with a caret under the column.
fn write_place(out: &mut Vec<u8>, line: &[u8], column: usize) -> io::Result<()> {
    for b in line {
        // a control byte could upset the terminal
        out.push(if *b < b' ' && *b != b'\t' { b'?' } else { *b })?;
    }
    out.push(b'\n')?;
    for b in line.iter().take(column.saturating_sub(1)) {
        // a tab is as wide here as in the line above
        out.push(if *b == b'\t' { b'\t' } else { b' ' })?;
    }
    out.write_all(b"^\n")
}

// The refusal by its number, the place that is refused, and what is wrong there.
pub(crate) fn write_refusal(out: &mut Vec<u8>, file: &[u8], refusal: Refusal) -> io::Result<()> {
    if let Some(code) = refusal.code() {
        let heading = Heading(code);
        writeln!(out, "{heading}")?;
        if let Some(Place { line, column }) = code.place {
            write_place(out, line_of(file, line), column)?;
        }
    }
    write_reason(out, refusal)
}
