// The engine's table of open tickets, each with how far it has come.
#![tactic(auto)]

mod calls;
mod stage;
mod table;

pub use stage::{Change, Entry, Stage, moved};
pub use table::{Full, Table};
