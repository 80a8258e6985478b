// One line of the file.
ghost use Rattle.std.specs.Prelude.{◌+◌, ◌^◌, ◌<◌, length};

use crate::job::{Command, Job};
use crate::limits::{LONGEST_LINE, MOST_JOBS};
use crate::refusal::{Place, Refusal};
use fields::{Field, FieldSet, read_field};
use scan::{Kind, scan};

// A line by its number, from 1, the place where it begins in the file, and its bytes.
#[derive(Clone, Copy, PartialEq, Eq, Debug)]
pub(crate) struct Line<'a> {
    pub number: usize,
    pub start: usize,
    pub text: &'a [u8],
    // so that each place and column fits
    pub ghost ends: { start + length text.now + 1 < 2 ^ 64 },
}

impl<'a> Line<'a> {
    ghost use Rattle.std.specs.Prelude.{◌≡◌, ◌≤◌, Ok, Err, MatchResult};
    ghost use Rattle.crontab.specs.Line.{command_at, field_at, job_reading, line_reading, words_before};
    ghost use Rattle.crontab.specs.Line.{missing as missing_at, place as place_at};
    ghost use Rattle.crontab.specs.Words.{begin, idle, past};

    fn place(self, column: usize) -> Place
        ensures { result ≡ place_at self.entry.number column }
    {
        Place {
            line: self.number,
            column,
        }
    }

    // Where the word begins that stands at or after a place.
    fn word(self, at: usize) -> Result<usize, Refusal>
        ensures { MatchResult result
            (λ i. (i ≡ begin self.entry.text.now at) × (i < length self.entry.text.now))
            (λ e. (length self.entry.text.now ≤ begin self.entry.text.now at)
            × (e ≡ missing_at self.entry.number self.entry.text.now)) }
    {
        // By scan: find has no place to begin at.
        let begin = scan(self.text, at, Kind::Other);
        if begin >= self.text.len() {
            return Err(Refusal::Missing(self.place(self.text.len() + 1)));
        }
        Ok(begin)
    }

    // A field, from where the word before it ends, and where its own word ends.
    #[tactic(auto, using(crate::proofs::Nth::past_next), unfolding(crate::specs::Line::field_at))]
    fn field(self, f: Field, at: usize) -> Result<(FieldSet, usize), Refusal>
        requires { at ≡ past self.text.now (words_before f) }
        ensures { MatchResult result
            (λ p. (field_at f self.entry.number self.entry.text.now ≡ Ok p.0)
            × (p.1 ≡ past self.entry.text.now (words_before f + 1)))
            (λ e. field_at f self.entry.number self.entry.text.now ≡ Err e) }
    {
        let start = self.word(at)?;
        let stop = scan(self.text, start, Kind::Blank);
        // A match: with map_err the proof of what comes after it did not close.
        match read_field(f, &self.text[start..stop]) {
            Ok(set) => Ok((set, stop)),
            Err(bad) => {
                let place = self.place(start + bad.at + 1);
                Err(Refusal::Element(bad.fault, place, f))
            }
        }
    }

    // The command, from where the word before it ends.
    fn command(self, at: usize) -> Result<Command, Refusal>
        requires { at ≡ past self.text.now 5 }
        ensures { result ≡ command_at self.entry.number self.entry.start self.entry.text.now }
    {
        let begin = self.word(at)?;
        Ok(Command {
            at: self.start + begin,
            length: self.text.len() - begin,
        })
    }

    // The line's job, or its first refusal from the left. Not inlined: room for five fields would be made ready for
    // each line, those without a job too.
    #[inline(never)]
    #[tactic(auto, unfolding(crate::specs::Words::past))]
    fn job(self) -> Result<Job, Refusal>
        ensures { result ≡ job_reading self.entry.number self.entry.start self.entry.text.now }
    {
        let (minute, at) = self.field(Field::Minute, 0)?;
        let (hour, at) = self.field(Field::Hour, at)?;
        let (day, at) = self.field(Field::Day, at)?;
        let (month, at) = self.field(Field::Month, at)?;
        let (weekday, at) = self.field(Field::Weekday, at)?;
        let command = self.command(at)?;
        Ok(Job {
            line: self.number,
            minute,
            hour,
            day,
            month,
            weekday,
            command,
        })
    }

    // Has the line no job?
    fn is_idle(self) -> bool
        ensures { result ≡ idle self.entry.text.now }
    {
        let begin = scan(self.text, 0, Kind::Other);
        matches!(self.text.get(begin), None | Some(b'#'))
    }

    // The line's job, none if it has none, or its first refusal; `jobs` job lines came before it.
    pub(crate) fn read(self, jobs: usize) -> Result<Option<Job>, Refusal>
        ensures { result ≡ line_reading self.entry.number self.entry.start jobs self.entry.text.now }
    {
        if self.text.len() > LONGEST_LINE {
            return Err(Refusal::LineTooLong(self.place(LONGEST_LINE + 1)));
        }
        // By scan: tried with find, and then the four answers below it do not close by themselves.
        let forbidden = scan(self.text, 0, Kind::Forbidden);
        if forbidden < self.text.len() {
            return Err(Refusal::ForbiddenByte(self.place(forbidden + 1)));
        }
        if self.is_idle() {
            return Ok(None);
        }
        if jobs >= MOST_JOBS {
            return Err(Refusal::TooManyJobs(self.place(1)));
        }
        self.job().map(Some)
    }
}
