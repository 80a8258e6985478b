// The limits of a join.

// The first minute at which zones may be joined.
pub(crate) const FIRST_JOIN: u32 = 5_000;

// The last.
pub(crate) const LAST_JOIN: u32 = 99_990_000;
