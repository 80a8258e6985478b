// A field read from its bytes, element by element.
ghost use Rattle.std.specs.Prelude.{◌≡◌, ℕ, ◌<◌, ◌≤◌, false, length, get_or, slice_index_or};
ghost use Rattle.std.specs.Prelude.{Ok, Err, IfErr, MatchResult};
ghost use Rattle.fields.specs.Values.{field_reading, judged, standing, starred as starred_of, verdict};

use crate::bytes::Part;
use crate::element::{Field, Span, read_span};
use crate::elements::Elements;
use crate::values::Values;

// Why an element is refused.
#[derive(Clone, Copy, PartialEq, Eq, Debug)]
pub enum Fault {
    NoSuchElement,
    OutOfRange,
    Turned,
}

// A refused element, by its place in the field.
#[derive(Clone, Copy, PartialEq, Eq, Debug)]
pub struct BadElement {
    pub fault: Fault,
    pub at: usize,
}

// What a field says: its values, and whether it begins with `*`.
#[derive(Clone, Copy, PartialEq, Eq, Debug)]
pub struct FieldSet {
    pub values: Values,
    pub starred: bool,
}

fn judge(f: Field, s: Option<Span>) -> Result<Span, Fault>
    ensures { result ≡ judged f s }
{
    let s = s.ok_or(Fault::NoSuchElement)?;
    let (a, z) = (f.low(), f.high());
    if s.from < a || s.from > z || s.to < a || s.to > z {
        return Err(Fault::OutOfRange);
    }
    if s.to < s.from || s.step == 0 {
        return Err(Fault::Turned);
    }
    Ok(s)
}

// The numbers of an element, or why it is refused.
fn read_element(f: Field, e: Part<'_>) -> Result<Span, BadElement>
    ensures { MatchResult result
        (λ s. verdict f e.entry.text.now ≡ Ok s)
        (λ b. (verdict f e.entry.text.now ≡ Err b.fault) × (b.at ≡ e.entry.at)) }
{
    judge(f, read_span(f, e)).map_err(|fault| BadElement { fault, at: e.at })
}

fn is_starred(s: &[u8]) -> bool
    ensures { result ≡ starred_of s.now }
{
    s.first() == Some(&b'*')
}

// The values that the field's numbers stand for.
fn stood_for(f: Field, numbers: Values) -> Values
    ensures { (v : ℕ) → v < 64 →
        slice_index_or result.has v false ≡ standing f (λ n. get_or numbers.has n false) v }
{
    match f {
        Field::Weekday => numbers.weekdays(),
        _ => numbers,
    }
}

// What a field holds, or its first refused element.
pub fn read_field(f: Field, s: &[u8]) -> Result<FieldSet, BadElement>
    ensures answer { result ≡ field_reading f s.now }
    ensures within { IfErr result (λ b. b.at ≤ length s.now) }
{
    let mut numbers = Values::none();
    for element in Elements::of(s) {
        numbers.add(read_element(f, element)?);
    }
    Ok(FieldSet {
        values: stood_for(f, numbers),
        starred: is_starred(s),
    })
}
