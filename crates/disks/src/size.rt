// How large a disk may be.
ghost use Rattle.std.specs.Prelude.{◌≡◌};
ghost use Rattle.disks.specs.Fresh.{fits};

use disk::{FEWEST_BLOCKS, MOST_BLOCKS};

// May a disk have this many blocks?
pub(crate) fn is_fit(count: usize) -> bool
    ensures { result ≡ fits count }
{
    FEWEST_BLOCKS <= count && count <= MOST_BLOCKS
}
