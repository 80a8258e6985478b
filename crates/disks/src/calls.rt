// What a disk in memory does.
ghost use Rattle.std.specs.Prelude.{◌≡◌, ℕ, map, nat_lt};
ghost use Rattle.disk.specs.Contents.{Among, Only, torn};
ghost use Rattle.disks.specs.Fresh.{NewAnswer};
ghost use Rattle.disks.specs.Memory.{FreshDisk, blocks_of, count_of, latest_of, possible_of};
ghost use Rattle.disks.specs.Lists.{all_include};
ghost use Rattle.std.proofs.Common.{arith, rules};
ghost use Rattle.disks.specs.LookupLemmas.{at_past};

use crate::fate::Fate;
use crate::memory_disk::MemoryDisk;
use crate::refusal::{Refusal, Unmade};
use crate::size::is_fit;
use crate::slot::Slot;
use disk::{BLOCK_BYTES, CutDisk, Disk};
use std::alloc::Global;

impl<B: Slot> MemoryDisk<B> {
    // A disk of this many blocks, each of zero bytes that have landed.
    pub fn new(heap: Global, count: usize) -> Result<MemoryDisk<B>, Unmade>
        ensures { NewAnswer (FreshDisk B.latest B.possible count) count result }
    {
        if !is_fit(count) {
            return Err(Unmade::Refused(Refusal::BlockCount(count)));
        }
        let blocks = vec![in heap; B::blank(); count]?;
        Ok(MemoryDisk { blocks })
    }

    // The power fails and comes back: every write that is kept back fares so.
    pub fn cut_to(&mut self, fate: Fate)
        ensures count { count_of self.new ≡ count_of self.old }
        ensures blocks { blocks_of self.new ≡ map (B.settled fate) (blocks_of self.old) }
        ensures only { Only (latest_of B.latest self.new) (possible_of B.possible self.new) }
        ensures picked { (i : ℕ) → Among (latest_of B.latest self.new i) (possible_of B.possible self.old i) }
    {
        self.settle(fate);
    }

    // Every write that is kept back fares so.
    fn settle(&mut self, fate: Fate)
        ensures count { count_of self.new ≡ count_of self.old }
        ensures blocks { blocks_of self.new ≡ map (B.settled fate) (blocks_of self.old) }
    {
        for b in self.blocks.iter_mut() {
            b.settle(fate);
        }
    }
}

impl<B: Slot> Disk for MemoryDisk<B> {
    ghost count = { count_of };

    ghost latest = { latest_of B.latest };

    ghost possible = { possible_of B.possible };

    ghost many = { λ d. d.many };

    ghost few = { λ d. d.few };

    ghost includes = { λ d i. all_include B.laws d.blocks.items i };

    ghost past = { λ d i h. at_past B.latest torn d.blocks.items i (omega (arith, d.blocks.ok.0)) };

    fn block_count(&self) -> usize {
        self.blocks.len()
    }

    fn read(&self, block: usize) -> Option<[u8; BLOCK_BYTES]> {
        self.blocks.get(block)?.shown()
    }

    fn write(&mut self, block: usize, bytes: &[u8; BLOCK_BYTES]) {
        if block < self.blocks.len() {
            self.blocks[block].put(bytes);
        }
    }

    // Every write that was kept back lands.
    fn sync(&mut self) {
        self.settle(Fate::New);
    }
}

impl<B: Slot> CutDisk for MemoryDisk<B> {
    // No write that was kept back has landed.
    fn cut(&mut self) {
        self.cut_to(Fate::Old);
    }
}
