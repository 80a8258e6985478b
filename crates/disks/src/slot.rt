// A block of a disk in memory.
ghost use Rattle.std.specs.Prelude.{◌≡◌, ℕ, List};
ghost use Rattle.disk.specs.Contents.{Content, read_of};
ghost use Rattle.disks.specs.Slots.{SlotLaws};
ghost use Rattle.disks.specs.declared.fate.Fate.{Fate};

use crate::fate::Fate;
use disk::BLOCK_BYTES;

pub trait Slot: Copy {
    // what the block holds
    ghost latest: { Self → Content };

    // what it may hold once the power has failed
    ghost possible: { Self → List Content };

    // a new block
    ghost blank: { Self };

    // the block once these bytes are written to it
    ghost written: { Self → List ℕ → Self };

    // the block once a write that it keeps back has fared so
    ghost settled: { Fate → Self → Self };

    // A new block: zero bytes, which have landed.
    fn blank() -> Self
        ensures { result ≡ blank };

    // What a read sees.
    fn shown(&self) -> Option<[u8; BLOCK_BYTES]>
        ensures { result ≡ read_of (latest self.now) };

    fn put(&mut self, bytes: &[u8; BLOCK_BYTES])
        ensures { self.new ≡ written self.old bytes.now };

    // A write that is kept back fares so, and no write is kept back any more.
    fn settle(&mut self, fate: Fate)
        ensures { self.new ≡ settled fate self.old };

    ghost laws: { SlotLaws latest possible blank written settled };

    ghost copied: { (y : Self) → Self.is_clone blank y → y ≡ blank };
}
