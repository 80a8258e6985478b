// The script: lines `zone MINUTE OFFSET`, a line `FROM TO`, a line `crontab`, and then a crontab.
ghost use Rattle.std.specs.Prelude.{◌≡◌, ◌<◌, length, IfSome, MatchOption};
ghost use Rattle.upcoming.specs.Number.{number_of};
ghost use Rattle.upcoming.specs.Parted.{Lacks, Parted};

use crate::fault::{Fault, Refusal};
use std::alloc::Global;
use time::Minute;
use zone::Entry;

#[derive(Drop)]
pub(crate) struct Script<'a> {
    pub(crate) entries: Vec<Entry>,
    pub(crate) from: u64,
    pub(crate) to: u64,
    // all that comes after the line `crontab`
    pub(crate) crontab: &'a [u8],
}

// What stands before and after the first byte `b`. The fields' own cut keeps places, which no part of a script needs.
fn cut(text: &[u8], b: u8) -> Option<(&[u8], &[u8])>
    ensures parts { MatchOption result
        (Lacks text.now b (length text.now))
        (λ q. Parted text.now b q.0.now q.1.now) }
    ensures shorter { IfSome result (λ q. length q.1.now < length text.now) }
{
    let i = text.iter().position(|x| *x == b)?;
    Some((&text[..i], &text[i + 1..]))
}

// A number in decimal digits; one that is too large counts as the largest.
fn number(digits: &[u8]) -> Option<u64>
    ensures { result ≡ number_of digits.now }
{
    if digits.is_empty() {
        return None;
    }
    let mut value = 0u64;
    for digit in digits {
        if !digit.is_ascii_digit() {
            return None;
        }
        value = value
            .saturating_mul(10)
            .saturating_add(u64::from(*digit - b'0'));
    }
    Some(value)
}

// A minute; one that is too large for its type is the type's largest, which no table takes.
fn minute(digits: &[u8]) -> Option<Minute> {
    let count = u32::try_from(number(digits)?).unwrap_or(u32::MAX);
    Some(Minute::new(count))
}

// An offset without its sign; too large a one is bounded in the same way.
fn ahead(digits: &[u8]) -> Option<i32> {
    Some(i32::try_from(number(digits)?).unwrap_or(i32::MAX))
}

// An offset, with `-` before it if the clock is behind.
fn offset(text: &[u8]) -> Option<i32> {
    match text {
        [b'-', digits @ ..] => Some(ahead(digits)?.saturating_neg()),
        _ => ahead(text),
    }
}

// The entry of a line `zone MINUTE OFFSET`, and what comes after the line.
fn zone_line(text: &[u8]) -> Option<(Entry, &[u8])>
    ensures { IfSome result (λ q. length q.1.now < length text.now) }
{
    let (line, rest) = cut(text, b'\n')?;
    let (word, numbers) = cut(line, b' ')?;
    if word != b"zone".as_slice() {
        return None;
    }
    let (m, o) = cut(numbers, b' ')?;
    let entry = Entry {
        minute: minute(m)?,
        offset: offset(o)?,
    };
    Some((entry, rest))
}

// The numbers of a line `FROM TO`, and what comes after the line.
fn span_line(text: &[u8]) -> Option<(u64, u64, &[u8])> {
    let (line, rest) = cut(text, b'\n')?;
    let (from, to) = cut(line, b' ')?;
    Some((number(from)?, number(to)?, rest))
}

// A script is refused for its first line that is not as it should be. A line that lacks its byte 10 is none: there the
// script ends.
pub(crate) fn read(heap: Global, bytes: &[u8]) -> Result<Script<'_>, Fault> {
    let mut entries = Vec::new(heap);
    let mut text = bytes;
    // A while: entries are taken as long as lines have their form, and what is left is read on.
    while let Some((entry, rest)) = zone_line(text) {
        entries.push(entry)?;
        text = rest;
    }
    let line = entries.len().saturating_add(1);
    let (from, to, text) = span_line(text).ok_or(Refusal::Line(line))?;
    let crontab = text
        .strip_prefix(b"crontab\n")
        .ok_or(Refusal::Line(line.saturating_add(1)))?;
    Ok(Script {
        entries,
        from,
        to,
        crontab,
    })
}
