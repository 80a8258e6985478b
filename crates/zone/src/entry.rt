// One entry of a table.
use time::Minute;

// An offset, in minutes, and the minute from which it holds.
#[derive(Clone, Copy, Debug, PartialEq, Eq)]
pub struct Entry {
    pub minute: Minute,
    pub offset: i32,
}
