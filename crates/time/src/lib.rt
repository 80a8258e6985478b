// Minutes, and positions: a minute and a line number.
#![tactic(auto)]

mod limits;
mod minute;
mod position;
mod ranged;
mod walk;

pub use limits::{FIRST_MINUTE, FIRST_TOLD, LAST_MINUTE, LINES};
pub use minute::Minute;
pub use position::Position;
pub use ranged::{MinuteFrom, Served, Told};
