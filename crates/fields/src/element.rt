// The elements of a field, as parts of the field's own bytes.
ghost use Rattle.std.specs.Prelude.{◌≡◌};
ghost use Rattle.fields.specs.Bytes.{piece};
ghost use Rattle.fields.specs.Element.{element, form, form_of, spanned, star?, value_of, written};
ghost use Rattle.fields.specs.Element.{field_number, high as high_of, low as low_of};

use crate::bytes::Part;
use crate::names::{MONTHS, WEEKDAYS, name_number};
use crate::number::number;

#[derive(Clone, Copy, PartialEq, Eq, Debug)]
pub enum Field {
    Minute,
    Hour,
    Day,
    Month,
    Weekday,
}

impl Field {
    // The field's number in its line, from 1, as refusals are written with it.
    pub fn number(self) -> u8
        ensures { result ≡ field_number self }
    {
        match self {
            Field::Minute => 1,
            Field::Hour => 2,
            Field::Day => 3,
            Field::Month => 4,
            Field::Weekday => 5,
        }
    }

    // The least number that the field takes.
    pub(crate) fn low(self) -> u8
        ensures { result ≡ low_of self }
    {
        match self {
            Field::Minute | Field::Hour | Field::Weekday => 0,
            Field::Day | Field::Month => 1,
        }
    }

    // The greatest number that the field takes.
    pub(crate) fn high(self) -> u8
        ensures { result ≡ high_of self }
    {
        match self {
            Field::Minute => 59,
            Field::Hour => 23,
            Field::Day => 31,
            Field::Month => 12,
            Field::Weekday => 7,
        }
    }
}

// An element, by the parts of the field that it is written with.
#[derive(Clone, Copy, PartialEq, Eq, Debug)]
pub(crate) enum Element<'a> {
    Star,
    Each(Part<'a>),
    Single(Part<'a>),
    Range(Part<'a>, Part<'a>),
    RangeEach(Part<'a>, Part<'a>, Part<'a>),
}

// The numbers from `from` to `to`, each `step`-th.
#[derive(Clone, Copy, PartialEq, Eq, Debug)]
pub struct Span {
    pub from: u8,
    pub to: u8,
    pub step: u8,
}

fn is_star(e: &[u8]) -> bool
    ensures { result ≡ star? e.now }
{
    matches!(e, [b'*'])
}

// A number, or a name where the field has names.
fn value(f: Field, w: &[u8]) -> Option<u8>
    ensures { result ≡ value_of f w.now }
{
    number(w).or_else(|| match f {
        Field::Month => name_number(&MONTHS, 1, w),
        Field::Weekday => name_number(&WEEKDAYS, 0, w),
        _ => None,
    })
}

impl<'a> Element<'a> {
    // The form in which an element is written, if it has one.
    pub(crate) fn read(e: Part<'a>) -> Option<Element<'a>>
        ensures { form_of result ≡ form (piece e.entry) }
    {
        match e.cut(b'/') {
            Some((range, step)) => {
                if is_star(range.text) {
                    return Some(Element::Each(step));
                }
                let (from, to) = range.cut(b'-')?;
                Some(Element::RangeEach(from, to, step))
            }
            None => {
                if is_star(e.text) {
                    return Some(Element::Star);
                }
                match e.cut(b'-') {
                    Some((from, to)) => Some(Element::Range(from, to)),
                    None => Some(Element::Single(e)),
                }
            }
        }
    }

    // The numbers that its parts say.
    pub(crate) fn span(self, f: Field) -> Option<Span>
        ensures { result ≡ spanned f (written self.entry) }
    {
        let (from, to, step) = match self {
            Element::Star => (f.low(), f.high(), 1),
            Element::Each(n) => (f.low(), f.high(), number(n.text)?),
            Element::Single(w) => {
                let v = value(f, w.text)?;
                (v, v, 1)
            }
            Element::Range(a, b) => (number(a.text)?, number(b.text)?, 1),
            Element::RangeEach(a, b, n) => (number(a.text)?, number(b.text)?, number(n.text)?),
        };
        Some(Span { from, to, step })
    }
}

// The numbers that an element says in a field, if all its parts can be read.
pub(crate) fn read_span(f: Field, e: Part<'_>) -> Option<Span>
    ensures { result ≡ element f e.entry.text.now }
{
    Element::read(e)?.span(f)
}
