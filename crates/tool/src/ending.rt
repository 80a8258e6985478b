// What a program does with its input, and how it ends.
ghost use Rattle.std.specs.Prelude.{◌≡◌};
ghost use Rattle.std.specs.Process.{exit_status};
ghost use Rattle.tool.specs.Stops.{IsEnding, status_of};

use crate::input::read;
use crate::stop::Stop;
use std::alloc::Global;
use std::io;
use std::io::Write;
use std::process::ExitCode;

pub trait Program {
    // The program's name, with which it begins what it says on standard error.
    fn name(&self) -> &str;

    // What is printed of an input that is taken; or why there is no such thing.
    fn judge(&self, heap: Global, input: &[u8]) -> Result<Vec<u8>, Stop>;
}

// Prints what is said of the input, whether it was taken or refused.
fn print(rt: &HostRuntime, judged: Result<Vec<u8>, Stop>) -> Result<(), Stop> {
    if let Ok(text) | Err(Stop::Refused(text)) = &judged {
        rt.stdout().write_all(text.as_slice())?;
    }
    judged.map(|_| ())
}

fn work<P: Program>(rt: &HostRuntime, program: &P) -> Result<(), Stop> {
    let input = read(rt)?;
    print(rt, program.judge(rt.alloc(), input.as_slice()))
}

// Says on standard error what standard output does not say.
fn tell(rt: &HostRuntime, name: &str, stop: &Stop) -> io::Result<()> {
    match stop {
        Stop::Refused(_) => Ok(()),
        Stop::Memory => eprintln!(rt; "out of memory"),
        Stop::Unread(from, e) => eprintln!(rt; "{name}: cannot read {from}: {e}"),
        Stop::Failed(e) => eprintln!(rt; "{name}: {e}"),
    }
}

// The status of a program that ends so.
fn status(done: &Result<(), Stop>) -> ExitCode
    ensures { exit_status result ≡ status_of done.now }
{
    match done {
        Ok(()) => ExitCode::SUCCESS,
        Err(_) => ExitCode::FAILURE,
    }
}

// Reads the input, prints what the program says of it, and tells on standard error what went wrong. Status 0 is for an
// input that was taken, 1 for all else.
pub fn run<P: Program>(rt: &HostRuntime, program: &P) -> ExitCode
    ensures { IsEnding (exit_status result) }
{
    let done = work(rt, program);
    if let Err(stop) = &done {
        // where standard error fails too, the status is all that is left to say it
        let _ = tell(rt, program.name(), stop);
    }
    status(&done)
}
