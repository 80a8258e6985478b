// The values that a field holds.
ghost use Rattle.std.specs.Prelude.{◌≡◌, ℕ, ◌<◌, false, ◌||◌, get_or, slice_index_or};
ghost use Rattle.fields.specs.Values.{standing, takes as takes_of};
ghost use Rattle.fields.specs.declared.element.Field.TheVariants.{Weekday};

use crate::element::Span;
use std::array;

// Whether each number below 64 is one of the values: enough for every field. Flags in fixed memory and no set, since
// no field allocates.
#[derive(Clone, Copy, PartialEq, Eq, Debug)]
pub struct Values {
    has: [bool; 64],
}

fn takes(s: Span, v: u8) -> bool
    ensures { result ≡ takes_of s v }
{
    s.from <= v && v <= s.to && (v - s.from).is_multiple_of(s.step)
}

impl Values {
    pub(crate) fn none() -> Values
        ensures { (k : ℕ) → k < 64 → slice_index_or result.has k false ≡ false }
    {
        Values { has: [false; 64] }
    }

    // Is `v` one of the values?
    pub fn contains(&self, v: u32) -> bool
        ensures { result ≡ slice_index_or self.now.has v false }
    {
        v < 64 && self.has[v as usize]
    }

    // Adds the numbers of an element.
    pub(crate) fn add(&mut self, s: Span)
        ensures { (v : ℕ) → v < 64 →
            slice_index_or self.new.has v false ≡ (takes_of s v || slice_index_or self.old.has v false) }
    {
        let old = self.has;
        self.has = array::from_fn(|v| takes(s, v as u8) | old[v]);
    }

    // The weekdays that the numbers stand for: 7 is Sunday, as 0 is.
    pub(crate) fn weekdays(self) -> Values
        ensures { (v : ℕ) → v < 64 →
            slice_index_or result.has v false ≡ standing Weekday (λ n. get_or self.has n false) v }
    {
        let mut has = self.has;
        has[0] = has[0] | has[7];
        has[7] = false;
        Values { has }
    }
}
