// A disk on which each write lands at once.
ghost use Rattle.std.specs.Prelude.{◌∷◌, []};
ghost use Rattle.disk.specs.Contents.{held};
ghost use Rattle.disks.specs.Direct.{zeros, direct_laws, same_zeros};

use crate::fate::Fate;
use crate::memory_disk::MemoryDisk;
use crate::slot::Slot;
use disk::BLOCK_BYTES;

pub type DirectDisk = MemoryDisk<[u8; BLOCK_BYTES]>;

impl Slot for [u8; BLOCK_BYTES] {
    ghost latest = { held };

    ghost possible = { λ b. held b ∷ [] };

    ghost blank = { zeros };

    ghost written = { λ _ bytes. bytes };

    ghost settled = { λ _ b. b };

    ghost laws = { direct_laws };

    ghost copied = { same_zeros };

    fn blank() -> [u8; BLOCK_BYTES] {
        [0; BLOCK_BYTES]
    }

    fn shown(&self) -> Option<[u8; BLOCK_BYTES]> {
        Some(*self)
    }

    fn put(&mut self, bytes: &[u8; BLOCK_BYTES]) {
        *self = *bytes;
    }

    // No write is kept back.
    fn settle(&mut self, _fate: Fate) {}
}
