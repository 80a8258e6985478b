// A block that is written from its start on.
ghost use Rattle.std.specs.Prelude.{◌≤◌};
ghost use Rattle.arrayvec.specs.ArrayVec.{array_vec_len};
ghost use Rattle.leb.specs.Limits.{block};

use crate::limits::BLOCK;
use arrayvec::ArrayVec;

#[derive(Drop)]
pub struct Writer {
    pub(crate) bytes: ArrayVec<u8, BLOCK>,
    ghost within: { array_vec_len bytes ≤ block },
}
