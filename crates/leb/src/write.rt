// Writing numbers. What does not fit the block is left out, so that no caller has to count.
ghost use Rattle.std.specs.Prelude.{◌≡◌, ◌+◌, ◌%◌, [], ◌∷◌};
ghost use Rattle.leb.specs.Number.{number_bytes};
ghost use Rattle.leb.specs.Written.{Writes};

use crate::limits::GROUP;
use crate::writer::Writer;

// The byte of the lowest group, where another follows.
fn group_of(n: u32) -> u8
    ensures { result ≡ 128 + n % 128 }
{
    (GROUP + n % GROUP) as u8
}

impl Writer {
    fn byte(&mut self, b: u8)
        ensures { Writes self.old self.new (b ∷ []) }
    {
        if !self.bytes.is_full() {
            self.bytes.push(b);
        }
    }

    pub fn number(&mut self, n: u32)
        ensures { Writes self.old self.new (number_bytes n) }
    {
        let mut n = n;
        // A while: how many groups there are shows only as the number shrinks.
        while n >= GROUP {
            self.byte(group_of(n));
            n /= GROUP;
        }
        self.byte(n as u8);
    }
}
