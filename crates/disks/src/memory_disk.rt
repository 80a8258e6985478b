// A disk in memory.
ghost use Rattle.std.specs.Prelude.{◌≤◌, vec_len};
ghost use Rattle.disk.specs.Limits.{fewest_blocks, most_blocks};

#[derive(Drop)]
pub struct MemoryDisk<B> {
    pub(crate) blocks: Vec<B>,
    ghost many: { fewest_blocks ≤ vec_len blocks },
    ghost few: { vec_len blocks ≤ most_blocks },
}
