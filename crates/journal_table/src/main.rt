// Runs the page codec on the cases of an independent model, and compares the answers with those of the model.
// A case is a line `HEX -> ANSWER`: a block's bytes in hexadecimal, and the page that they are, or `none`.
#![tactic(auto)]

mod pages;

use cases::{NOT_HEX, Program, judge, malformed, without_capitals};
use hex::FromHex;
use page::PAGE_SIZE;
use std::alloc::Global;
use std::io::Write;
use std::{fs, io};

#[derive(Drop)]
struct Codec;

impl Program for Codec {
    fn label(&self) -> &str {
        "page "
    }

    fn form(&self) -> &str {
        NOT_HEX
    }

    fn answer(&self, _heap: Global, out: &mut Vec<u8>, question: &str) -> io::Result<()> {
        match block_of(question) {
            Some(block) => pages::write_page(out, &block),
            None => Err(malformed(NOT_HEX)),
        }
    }
}

// The block that the digits say, or none if they say no block.
fn block_of(digits: &str) -> Option<[u8; PAGE_SIZE]> {
    <[u8; PAGE_SIZE] as FromHex>::from_hex(without_capitals(digits)?).ok()
}

// Each test program reads its own file: a call that they shared for that could promise nothing.
fn run(rt: &HostRuntime) -> io::Result<()> {
    let cases = fs::read_to_string(rt, "page.txt")?;
    let heap = rt.alloc();
    let mut out = Vec::new(heap);
    let tally = judge(heap, &mut out, &Codec, cases.as_str())?;
    writeln!(out, "page {tally}")?;
    rt.stdout().write_all(out.as_slice())
}

fn main(rt: HostRuntime) -> io::Result<()> {
    run(&rt)
}
