// Lists when the job lines of a crontab are due. The zone, the span and the crontab are read as one script, from the
// file that the first argument names or else from standard input.
#![tactic(auto)]

mod fault;
mod rows;
mod script;
#[cfg(test)]
mod tests;

use crate::fault::Fault;
use std::alloc::Global;
use std::io::Write;
use std::process::ExitCode;
use tool::{Program, Stop, run};
use zone::TableZone;

#[derive(Drop)]
struct Upcoming;

impl Program for Upcoming {
    fn name(&self) -> &str {
        "upcoming"
    }

    fn judge(&self, heap: Global, script: &[u8]) -> Result<Vec<u8>, Stop> {
        let mut text = Vec::new(heap);
        match list(heap, &mut text, script) {
            Ok(()) => Ok(text),
            Err(Fault::Refused(refusal)) => {
                writeln!(text, "{refusal}")?;
                Err(Stop::Refused(text))
            }
            Err(Fault::Failed(e)) => Err(e.into()),
        }
    }
}

// Takes the script's parts in the order in which their faults are told, and writes the rows once none is left.
fn list(heap: Global, out: &mut Vec<u8>, bytes: &[u8]) -> Result<(), Fault> {
    let script = script::read(heap, bytes)?;
    let zone = TableZone::checked(script.entries.as_slice())?;
    let taken = crontab::read(heap, script.crontab)?;
    let span = rows::span_of(script.from, script.to)?;
    Ok(rows::write_rows(out, &zone, taken.jobs(), span)?)
}

fn main(rt: HostRuntime) -> ExitCode {
    run(&rt, &Upcoming)
}
