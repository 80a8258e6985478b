// Cases of an independent model: lines `QUESTION -> ANSWER`, and how a program's answers differ from those that stand
// there.
#![tactic(auto)]

mod program;
mod tally;
#[cfg(test)]
mod tests;
mod text;

pub use program::{Program, judge};
pub use tally::Tally;
pub use text::{NOT_HEX, malformed, parsed, parted, unwritten, without_capitals};
