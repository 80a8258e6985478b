// Runs zones, joins, the calendar and due lines on the cases of an independent model, and compares the answers with
// those of the model. A case is a line `QUESTION -> ANSWER` of one of four files.
#![tactic(auto)]

mod days;
mod dues;
mod text;
mod zones;

use cases::{Program, judge};
use std::io::Write;
use std::{fs, io};

// Runs the program on the cases of a file.
fn report<P: Program>(
    rt: &HostRuntime,
    out: &mut Vec<u8>,
    file: &str,
    program: &P,
) -> io::Result<()> {
    let cases = fs::read_to_string(rt, file)?;
    let tally = judge(rt.alloc(), out, program, cases.as_str())?;
    writeln!(out, "{file} {tally}")
}

fn run(rt: &HostRuntime) -> io::Result<()> {
    let mut out = Vec::new(rt.alloc());
    report(rt, &mut out, "zone.txt", &zones::Offsets)?;
    report(rt, &mut out, "join.txt", &zones::Joins)?;
    report(rt, &mut out, "date.txt", &days::Dates)?;
    report(rt, &mut out, "due.txt", &dues::Dues)?;
    rt.stdout().write_all(out.as_slice())
}

fn main(rt: HostRuntime) -> io::Result<()> {
    run(&rt)
}
