// What a zone refuses.
ghost use Rattle.std.specs.Prelude.{◌≡◌};
ghost use Rattle.zone.specs.Refusal.{code_of};

use refusal_code::Code;
use time::Minute;

#[derive(Clone, Copy, Debug, PartialEq, Eq)]
pub enum Refusal {
    // a table, by the index of its first bad entry
    BadTable(usize),
    // two zones joined at this minute
    BadJoin(Minute),
    // a question about a minute of which a zone tells nothing
    OutOfRange(Minute),
}

impl Refusal {
    // The refusal by its number, with the index or the minute. By `as`, since a usize has no From<u32>.
    pub fn code(self) -> Code
        ensures { result ≡ code_of self }
    {
        match self {
            Refusal::BadTable(index) => Code {
                number: 11,
                beside: index,
            },
            Refusal::BadJoin(t) => Code {
                number: 12,
                beside: t.count() as usize,
            },
            Refusal::OutOfRange(u) => Code {
                number: 13,
                beside: u.count() as usize,
            },
        }
    }
}
