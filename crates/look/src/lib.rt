// The search of a look: how many of some positions come before the first due one.
#![tactic(auto)]

mod lines;
mod search;

pub use search::examine;
