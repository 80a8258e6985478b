// The elements of a field, one after the other, each with its place.
ghost use Rattle.std.specs.Prelude.{◌≡◌};

use crate::bytes::Part;

// What is left of a field, nothing after its last element. An iterator of its own: std's split gives parts without
// their places.
#[derive(Clone, Copy, PartialEq, Eq, Debug)]
pub(crate) struct Elements<'a> {
    pub rest: Option<Part<'a>>,
}

impl<'a> Elements<'a> {
    ghost use Rattle.std.specs.Prelude.{length};
    ghost use Rattle.fields.specs.Bytes.{split};
    ghost use Rattle.fields.specs.Elements.{begins, ends, left};

    pub(crate) fn of(s: &'a [u8]) -> Elements<'a>
        ensures begins { begins result.rest ≡ 0 }
        ensures ends { ends result.rest ≡ length s.now }
        ensures left { left result.rest ≡ split 44 s.now }
    {
        let whole = Part { at: 0, text: s };
        Elements { rest: Some(whole) }
    }
}

impl<'a> Iterator for Elements<'a> {
    ghost use Rattle.std.specs.Iterator.{at_most};
    ghost use Rattle.fields.specs.Elements.{most, YieldsElement};

    type Item = Part<'a>;

    ghost next_gives = { YieldsElement };

    ghost remaining = { λ s. at_most (most s.rest) };

    fn next(&mut self) -> Option<Part<'a>> {
        let rest = self.rest?;
        if let Some((element, more)) = rest.cut(b',') {
            self.rest = Some(more);
            return Some(element);
        }
        self.rest = None;
        Some(rest)
    }
}
