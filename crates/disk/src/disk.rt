// What a disk is.
ghost use Rattle.std.specs.Prelude.{◌≡◌, ℕ, ◌≤◌, List};
ghost use Rattle.disk.specs.Changes.{AtMost, after_write};
ghost use Rattle.disk.specs.Contents.{Among, Content, Only, read_of, torn};
ghost use Rattle.disk.specs.Limits.{fewest_blocks, most_blocks};

use crate::limits::BLOCK_BYTES;

// Numbered blocks that are read and written whole. No call fails.
pub trait Disk {
    // how many blocks there are
    ghost count: { Self → ℕ };

    // what each block holds
    ghost latest: { Self → ℕ → Content };

    // what each block may hold once the power has failed: a set, so only membership counts
    ghost possible: { Self → ℕ → List Content };

    // it stands before the calls, so that their clauses can cite it
    ghost many: { (d : Self) → fewest_blocks ≤ count d };

    // How many blocks there are.
    fn block_count(&self) -> usize
        ensures { result ≡ count self.now };

    // What a block holds: nothing where it is torn or past the count.
    fn read(&self, block: usize) -> Option<[u8; BLOCK_BYTES]>
        ensures { result ≡ read_of (latest self.now block) };

    // Writes a block. Past the count nothing is written. When the power fails before a sync, the block may be torn.
    fn write(&mut self, block: usize, bytes: &[u8; BLOCK_BYTES])
        ensures count { count self.new ≡ count self.old }
        ensures latest { latest self.new ≡ after_write (count self.old) (latest self.old) block bytes.now }
        ensures possible { (i : ℕ) (c : Content) → Among c (possible self.new i)
            → AtMost (count self.old) (possible self.old) block bytes.now i c };

    // Makes every write so far last.
    fn sync(&mut self)
        ensures count { count self.new ≡ count self.old }
        ensures latest { latest self.new ≡ latest self.old }
        ensures possible { Only (latest self.old) (possible self.new) };

    ghost few: { (d : Self) → count d ≤ most_blocks };

    ghost includes: { (d : Self) (i : ℕ) → Among (latest d i) (possible d i) };

    ghost past: { (d : Self) (i : ℕ) → count d ≤ i → latest d i ≡ torn };
}
