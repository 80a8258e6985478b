// A crontab read from its bytes: its job lines, or the first place that cannot be taken.
#![tactic(auto)]

mod commands;
mod file;
mod job;
mod limits;
mod line;
mod lines;
mod refusal;

pub use file::{Crontab, read};
pub use job::{Command, Job};
pub use refusal::{Code, Place, Refusal};
