// Parts of a field's bytes, with their place in the field.
ghost use Rattle.std.specs.Prelude.{◌≡◌, ◌+◌, ◌^◌, ◌<◌, length};

use scan::{Kind, find};

// Bytes of a field and the place where they begin in it.
#[derive(Clone, Copy, PartialEq, Eq, Debug)]
pub(crate) struct Part<'a> {
    pub at: usize,
    pub text: &'a [u8],
    // so that the place of each of its bytes fits
    pub ghost ends: { at + length text.now < 2 ^ 64 },
}

impl<'a> Part<'a> {
    ghost use Rattle.std.specs.Prelude.{true, false, MatchOption};
    ghost use Rattle.fields.specs.Bytes.{back_piece, front_piece, has, piece};

    // What stands before and after the first byte `b`.
    pub(crate) fn cut(self, b: u8) -> Option<(Part<'a>, Part<'a>)>
        ensures { MatchOption result
            (has b self.entry.text.now ≡ false)
            (λ q. (has b self.entry.text.now ≡ true)
            × (piece q.0 ≡ front_piece b (piece self.entry))
            × (piece q.1 ≡ back_piece b (piece self.entry))) }
    {
        let i = find(self.text, Kind::Byte(b))?;
        let front = Part {
            at: self.at,
            text: &self.text[..i],
        };
        let back = Part {
            at: self.at + (i + 1),
            text: &self.text[i + 1..],
        };
        Some((front, back))
    }
}
