// The limits of minutes and positions.

// The first minute for which a zone tells an offset.
pub const FIRST_TOLD: u32 = 1_000;

// The first minute at which a line can be due or an offset change.
pub const FIRST_MINUTE: u32 = 2_000;

// The last minute.
pub const LAST_MINUTE: u32 = 100_000_000;

// How many lines a minute has: line numbers are below it.
pub const LINES: u8 = 64;
