// A disk that keeps writes back until a sync.
ghost use Rattle.std.specs.Prelude.{◌≡◌};
ghost use Rattle.disks.specs.Blocks.{blank_block, cut_block, fared, held_back, latest_in, possible_in};
ghost use Rattle.disks.specs.Holds.{block_laws};

use crate::fate::Fate;
use crate::memory_disk::MemoryDisk;
use crate::slot::Slot;
use disk::BLOCK_BYTES;

pub type HoldingDisk = MemoryDisk<Block>;

// A block that keeps a write back.
#[derive(Clone, Copy, Debug, PartialEq, Eq)]
pub struct Block {
    // the write that is kept back, if there is one
    pub held: Option<[u8; BLOCK_BYTES]>,
    // what has landed: nothing where the block is torn
    pub kept: Option<[u8; BLOCK_BYTES]>,
}

impl Block {
    // What has landed once these bytes, which were kept back, have fared so.
    fn fared(self, fate: Fate, bytes: [u8; BLOCK_BYTES]) -> Option<[u8; BLOCK_BYTES]>
        ensures { result ≡ fared fate bytes self.kept }
    {
        match fate {
            Fate::Old => self.kept,
            Fate::New => Some(bytes),
            Fate::Torn => None,
        }
    }
}

impl Slot for Block {
    ghost latest = { latest_in };

    ghost possible = { possible_in };

    ghost blank = { blank_block };

    ghost written = { held_back };

    ghost settled = { cut_block };

    ghost laws = { block_laws };

    ghost copied = { λ y e. e };

    fn blank() -> Block {
        Block {
            held: None,
            kept: Some([0; BLOCK_BYTES]),
        }
    }

    fn shown(&self) -> Option<[u8; BLOCK_BYTES]> {
        self.held.or(self.kept)
    }

    // The write is kept back: what has landed stays.
    fn put(&mut self, bytes: &[u8; BLOCK_BYTES]) {
        self.held = Some(*bytes);
    }

    fn settle(&mut self, fate: Fate) {
        if let Some(bytes) = self.held {
            self.kept = self.fared(fate, bytes);
            self.held = None;
        }
    }
}
