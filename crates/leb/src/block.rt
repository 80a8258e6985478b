// A block from its start to its end.
ghost use Rattle.std.specs.Prelude.{◌≡◌, ◌≤◌, [], length};
ghost use Rattle.leb.specs.Block.{filled};
ghost use Rattle.leb.specs.Limits.{block};
ghost use Rattle.leb.specs.Written.{written};

use crate::limits::BLOCK;
use crate::writer::Writer;
use arrayvec::ArrayVec;

// The bytes, and zeros after them.
fn padded(bytes: &[u8]) -> [u8; BLOCK]
    requires { length bytes.now ≤ block }
    ensures { result ≡ filled bytes.now }
{
    let mut padded = [0; BLOCK];
    padded[..bytes.len()].copy_from_slice(bytes);
    padded
}

impl Writer {
    pub fn new() -> Self
        ensures { written result ≡ [] }
    {
        Writer {
            bytes: ArrayVec::new(),
        }
    }

    // The block: what was written, and zeros.
    pub fn finish(self) -> [u8; BLOCK]
        ensures { result ≡ filled (written self) }
    {
        padded(self.bytes.as_slice())
    }
}
