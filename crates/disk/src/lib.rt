// Disks of blocks, by what each block holds and may hold when the power fails.
#![tactic(auto)]

mod cut_disk;
mod disk;
mod limits;

pub use cut_disk::CutDisk;
pub use disk::Disk;
pub use limits::{BLOCK_BYTES, FEWEST_BLOCKS, MOST_BLOCKS};
