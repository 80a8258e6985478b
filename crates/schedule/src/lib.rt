// When a job line is due.
#![tactic(auto)]

mod due;
mod matching;
mod moment;
mod parts;
mod search;

pub use due::{due_at, due_means_what_the_rule_says};
pub use matching::matches;
pub use moment::Moment;
pub use parts::{Parts, parts_of};
pub use search::next_due;
