// The disk of an image.
use disk::{BLOCK_BYTES, Disk};
use disks::{DirectDisk, Refusal, Unmade};
use std::alloc::Global;

// The disk whose blocks hold these bytes, one after the other. Bytes that do not fill their last block make no disk.
pub(crate) fn disk_of(heap: Global, image: &[u8]) -> Result<DirectDisk, Unmade> {
    let (blocks, rest) = image.as_chunks::<BLOCK_BYTES>();
    let count = blocks.len();
    if !rest.is_empty() {
        return Err(Unmade::Refused(Refusal::BlockCount(count.saturating_add(1))));
    }
    let mut disk = DirectDisk::new(heap, count)?;
    for (block, bytes) in blocks.iter().enumerate() {
        disk.write(block, bytes);
    }
    Ok(disk)
}
