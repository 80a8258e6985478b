// The lines of a file, one after the other.
ghost use Rattle.std.specs.Prelude.{◌≡◌, ◌+◌, ◌<◌, ◌≤◌, length, drop};
ghost use Rattle.crontab.specs.Limits.{longest_file};

use crate::line::Line;
use scan::{Kind, scan};

// What stands from place `n` on, nothing if the text ends before.
fn rest_of(s: &[u8], n: usize) -> &[u8]
    ensures { result.now ≡ drop n s.now }
{
    s.get(n..).unwrap_or(&[])
}

// What is left of a file: the number of its first line, the place where that begins, and the bytes.
#[derive(Clone, Copy, PartialEq, Eq, Debug)]
pub(crate) struct Lines<'a> {
    pub number: usize,
    pub start: usize,
    pub text: &'a [u8],
    pub ghost numbered: { number ≤ start + 1 },
    pub ghost begins: { start ≤ longest_file + 1 },
    pub ghost ends: { 0 < length text.now → start + length text.now ≤ longest_file },
}

impl<'a> Lines<'a> {
    pub(crate) fn of(file: &'a [u8]) -> Lines<'a>
        requires { length file.now ≤ longest_file }
        ensures number { result.number ≡ 1 }
        ensures start { result.start ≡ 0 }
        ensures text { result.text ≡ file.entry }
    {
        Lines {
            number: 1,
            start: 0,
            text: file,
        }
    }
}

impl<'a> Iterator for Lines<'a> {
    ghost use Rattle.std.specs.Iterator.{at_most};
    ghost use Rattle.crontab.specs.Lines.{YieldsLine};

    type Item = Line<'a>;

    ghost next_gives = { YieldsLine };

    ghost remaining = { λ s. at_most (length s.text.now) };

    fn next(&mut self) -> Option<Line<'a>> {
        if self.text.is_empty() {
            return None;
        }
        let end = scan(self.text, 0, Kind::Byte(b'\n'));
        let line = Line {
            number: self.number,
            start: self.start,
            text: &self.text[..end],
        };
        *self = Lines {
            number: self.number + 1,
            start: self.start + (end + 1),
            text: rest_of(self.text, end + 1),
        };
        Some(line)
    }
}
