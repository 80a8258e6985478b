// A program's answers, compared with those of the cases.
ghost use Rattle.std.specs.Prelude.{◌≡◌, ◌≤◌, IfOk, length};
ghost use Rattle.std.specs.Str.Lines.{lines};

use crate::tally::Tally;
use crate::text::{UNWRITTEN, malformed};
use std::alloc::Global;
use std::io;
use std::io::Write;

pub trait Program {
    // What stands before the word `case` in a line of the report.
    fn label(&self) -> &str;

    // What is told of a case that is not written as it has to be.
    fn form(&self) -> &str {
        UNWRITTEN
    }

    // Writes what the program answers to the question of a case.
    fn answer(&self, heap: Global, out: &mut Vec<u8>, question: &str) -> io::Result<()>;

    // As much of an answer as the report shows.
    fn shown<'a>(&self, answer: &'a [u8]) -> &'a [u8] {
        answer
    }
}

// A line on case `k`, whose answer differs.
fn write_difference<P: Program>(
    out: &mut Vec<u8>,
    program: &P,
    k: usize,
    expected: &str,
    got: &[u8],
) -> io::Result<()> {
    let label = program.label();
    write!(out, "{label}case {k}: expected ")?;
    out.write_all(program.shown(expected.as_bytes()))?;
    out.write_all(b" got ")?;
    out.write_all(program.shown(got))?;
    out.write_all(b"\n")
}

// Does the program answer otherwise than case `k` says?
fn differs<P: Program>(
    heap: Global,
    out: &mut Vec<u8>,
    program: &P,
    k: usize,
    case: &str,
) -> io::Result<bool> {
    let Some((question, expected)) = case.split_once(" -> ") else {
        return Err(malformed(program.form()));
    };
    let mut got = Vec::new(heap);
    program.answer(heap, &mut got, question)?;
    if got.as_slice() == expected.as_bytes() {
        return Ok(false);
    }
    write_difference(out, program, k, expected, got.as_slice())?;
    Ok(true)
}

// How many cases there are.
fn count_of(cases: &str) -> usize
    ensures { result ≡ length (lines cases.now) }
{
    cases.lines().count()
}

// Writes a line on each case whose answer differs, and counts them.
pub fn judge<P: Program>(
    heap: Global,
    out: &mut Vec<u8>,
    program: &P,
    cases: &str,
) -> io::Result<Tally>
    ensures cases { IfOk result (λ t. t.cases ≡ length (lines cases.now)) }
    ensures differ { IfOk result (λ t. t.differ ≤ t.cases) }
{
    let mut differ = 0usize;
    for (k, case) in cases.lines().enumerate() {
        if differs(heap, out, program, k.saturating_add(1), case)? {
            differ = differ.saturating_add(1);
        }
    }
    Ok(Tally {
        cases: count_of(cases),
        differ,
    })
}
