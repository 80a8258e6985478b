// Unsigned LEB128 numbers in shortest form: groups of seven bits, the lowest first, 128 added to each but the last.
#![tactic(auto)]

mod block;
mod laws;
mod limits;
mod read;
mod write;
mod writer;

pub use laws::no_number_begins_another;
pub use limits::BLOCK;
pub use read::read_number;
pub use writer::Writer;
