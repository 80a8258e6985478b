// Reads a crontab, from the file that the first argument names or else from standard input, and says what it holds
// or why it is refused.
#![tactic(auto)]

mod complaint;
mod listing;
mod runs;
#[cfg(test)]
mod tests;

use std::alloc::Global;
use std::process::ExitCode;
use tool::{Program, Stop, run};

#[derive(Drop)]
struct CheckCrontab;

impl Program for CheckCrontab {
    fn name(&self) -> &str {
        "check_crontab"
    }

    fn judge(&self, heap: Global, file: &[u8]) -> Result<Vec<u8>, Stop> {
        let mut text = Vec::new(heap);
        match crontab::read(heap, file) {
            Ok(taken) => {
                listing::write_crontab(&mut text, &taken)?;
                Ok(text)
            }
            Err(refusal) => {
                complaint::write_refusal(&mut text, file, refusal)?;
                Err(Stop::Refused(text))
            }
        }
    }
}

fn main(rt: HostRuntime) -> ExitCode {
    run(&rt, &CheckCrontab)
}
