// The limits of a disk.

// The fewest blocks.
pub const FEWEST_BLOCKS: usize = 64;

// The most blocks.
pub const MOST_BLOCKS: usize = 4_096;

// How many bytes a block holds.
pub const BLOCK_BYTES: usize = 256;
