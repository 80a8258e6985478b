// Runs restarts on the cases of an independent model, and compares the answers with those of the model.
// A case is a line `COUNT LINES BLOCKS -> ANSWER`.
#![tactic(auto)]

mod restarts;

use cases::{Program, judge};
use std::alloc::Global;
use std::io::Write;
use std::{fs, io};

#[derive(Drop)]
struct Replay;

impl Program for Replay {
    fn label(&self) -> &str {
        "replay "
    }

    fn answer(&self, heap: Global, out: &mut Vec<u8>, question: &str) -> io::Result<()> {
        restarts::write_restart(heap, out, question)
    }
}

fn run(rt: &HostRuntime) -> io::Result<()> {
    let cases = fs::read_to_string(rt, "replay.txt")?;
    let heap = rt.alloc();
    let mut out = Vec::new(heap);
    let tally = judge(heap, &mut out, &Replay, cases.as_str())?;
    writeln!(out, "replay {tally}")?;
    rt.stdout().write_all(out.as_slice())
}

fn main(rt: HostRuntime) -> io::Result<()> {
    run(&rt)
}
