// A job line that was taken.
ghost use Rattle.std.specs.Prelude.{◌≡◌};
ghost use Rattle.crontab.specs.Job.{wild};

use fields::FieldSet;

// A command, as a part of the file: where it begins, counted from 0, and how many bytes it has.
#[derive(Clone, Copy, PartialEq, Eq, Debug)]
pub struct Command {
    pub at: usize,
    pub length: usize,
}

#[derive(Clone, Copy, PartialEq, Eq, Debug)]
pub struct Job {
    // the number of its line in the file, from 1
    pub line: usize,
    pub minute: FieldSet,
    pub hour: FieldSet,
    pub day: FieldSet,
    pub month: FieldSet,
    pub weekday: FieldSet,
    pub command: Command,
}

impl Job {
    // Does it run by the clock as it stands (wild), or once for each time that it names (fixed)?
    pub fn is_wild(&self) -> bool
        ensures { result ≡ wild self.now }
    {
        self.minute.starred || self.hour.starred
    }
}
