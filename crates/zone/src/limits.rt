// The limits of a zone.

// The largest offset to either side, in minutes.
pub(crate) const MOST_OFFSET: u32 = 900;

// The largest change of an offset, in minutes.
pub const MOST_CHANGE: u32 = 179;

// How many minutes lie at least between two changes.
pub const LEAST_APART: u32 = 1_440;

// How many minutes before it decide which labels a minute is first to reach: one more than the largest change.
pub(crate) const LOOK_BACK: u32 = 180;

// How many entries a table may have.
pub(crate) const MOST_ENTRIES: usize = 512;
