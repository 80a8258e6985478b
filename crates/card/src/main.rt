// Shows what a restart finds of the journal on a card. The card's image is read from the file that the first argument
// names or else from standard input.
#![tactic(auto)]

mod fault;
mod image;
mod rows;
#[cfg(test)]
mod tests;

use crate::fault::Fault;
use std::alloc::Global;
use std::io::Write;
use std::process::ExitCode;
use time::LINES;
use tool::{Program, Stop, run};

#[derive(Drop)]
struct Card;

impl Program for Card {
    fn name(&self) -> &str {
        "card"
    }

    fn judge(&self, heap: Global, image: &[u8]) -> Result<Vec<u8>, Stop> {
        let mut text = Vec::new(heap);
        match show(heap, &mut text, image) {
            Ok(()) => Ok(text),
            Err(Fault::Refused(refusal)) => {
                writeln!(text, "{refusal}")?;
                Err(Stop::Refused(text))
            }
            Err(Fault::Failed(e)) => Err(e.into()),
        }
    }
}

fn show(heap: Global, out: &mut Vec<u8>, image: &[u8]) -> Result<(), Fault> {
    let disk = image::disk_of(heap, image)?;
    // no crontab is at hand, so any line may be in it
    let found = journal::restart(heap, &disk, usize::from(LINES))?;
    rows::write_rows(out, &disk, &found)
}

fn main(rt: HostRuntime) -> ExitCode {
    run(&rt, &Card)
}
