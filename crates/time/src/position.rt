// A minute and a line number.
ghost use Rattle.std.specs.Prelude.{◌≡◌, ◌<◌};
ghost use Rattle.time.specs.Limits.{lines};

use crate::minute::Minute;

#[derive(Clone, Copy, Debug, PartialEq, Eq, PartialOrd, Ord)]
pub struct Position {
    pub(crate) minute: Minute,
    pub(crate) line: u8,
    ghost few: { line < lines },
}

impl Position {
    pub fn minute(self) -> Minute
        ensures { result ≡ self.minute }
    {
        self.minute
    }

    pub fn line(self) -> u8
        ensures { result ≡ self.line }
    {
        self.line
    }
}
