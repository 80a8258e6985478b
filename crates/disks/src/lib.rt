// Disks in memory: one keeps writes back until a sync, on the other each write lands at once.
#![tactic(auto)]

mod block;
mod calls;
mod direct;
mod fate;
mod memory_disk;
mod refusal;
mod size;
mod slot;

pub use block::{Block, HoldingDisk};
pub use direct::DirectDisk;
pub use fate::Fate;
pub use memory_disk::MemoryDisk;
pub use refusal::{Refusal, Unmade};
pub use refusal_code::Code;
pub use slot::Slot;
