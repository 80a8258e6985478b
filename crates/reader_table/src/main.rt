// Runs the reader of crontabs on the cases of standard input, and compares its answers with those that stand there.
// A case is a line `HEX -> ANSWER`: a file's bytes in hexadecimal, `-` for none, and what the reader should answer.
#![tactic(auto)]

mod answer;

use cases::{NOT_HEX, Program, judge, malformed, without_capitals};
use std::alloc::Global;
use std::io;
use std::io::{Read, Write};

// As much of an answer as is printed.
const SHOWN: usize = 200;

#[derive(Drop)]
struct Reader;

impl Program for Reader {
    fn label(&self) -> &str {
        ""
    }

    fn form(&self) -> &str {
        NOT_HEX
    }

    fn answer(&self, heap: Global, out: &mut Vec<u8>, question: &str) -> io::Result<()> {
        match file_of(heap, question)? {
            Some(file) => answer::write_answer(heap, out, file.as_slice()),
            None => Err(malformed(NOT_HEX)),
        }
    }

    fn shown<'a>(&self, answer: &'a [u8]) -> &'a [u8] {
        answer.get(0..SHOWN).unwrap_or(answer)
    }
}

// Are these hexadecimal digits? By fold, and no all: with no way out between two of them many are tested at a time.
fn are_digits(text: &str) -> bool {
    text.as_bytes()
        .iter()
        .fold(true, |digits, b| digits & b.is_ascii_hexdigit())
}

// The bytes that the digits say, or none if they say no bytes, and then no memory is taken; `-` stands for no byte at
// all.
fn file_of(heap: Global, digits: &str) -> io::Result<Option<Vec<u8>>> {
    if digits == "-" {
        return Ok(Some(Vec::new(heap)));
    }
    let Some(digits) = without_capitals(digits).filter(|digits| are_digits(digits)) else {
        return Ok(None);
    };
    match hex::decode(heap, digits) {
        Ok(file) => Ok(Some(file)),
        Err(hex::FromHexError::OutOfMemory) => Err(io::Error::from(io::ErrorKind::OutOfMemory)),
        Err(_) => Ok(None),
    }
}

fn run(rt: &HostRuntime) -> io::Result<()> {
    let heap = rt.alloc();
    let mut cases = String::new(heap);
    rt.stdin().read_to_string(&mut cases)?;
    let mut out = Vec::new(heap);
    let tally = judge(heap, &mut out, &Reader, cases.as_str())?;
    writeln!(out, "{tally}")?;
    rt.stdout().write_all(out.as_slice())
}

fn main(rt: HostRuntime) -> io::Result<()> {
    run(&rt)
}
