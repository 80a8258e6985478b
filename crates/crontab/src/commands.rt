// The job lines of a crontab that was taken, and their commands.
ghost use Rattle.std.specs.Prelude.{◌≡◌};
ghost use Rattle.std.specs.List.{slice_get};
ghost use Rattle.std.specs.Option.{option_map};
ghost use Rattle.crontab.specs.File.{bytes_of, command_of};

use crate::file::Crontab;
use crate::job::{Command, Job};

// A part of the file, if it lies in it.
fn part(file: &[u8], c: Command) -> Option<&[u8]>
    ensures { option_map (λ x. x.now) result ≡ bytes_of file.now c }
{
    file.get(c.at..)?.get(..c.length)
}

impl<'f> Crontab<'f> {
    // The job lines, numbered from 0 in the file's order.
    pub fn jobs(&self) -> &[Job]
        ensures { result.now ≡ self.now.jobs.items }
    {
        self.jobs.as_slice()
    }

    // The command of job line `k`: the file's own bytes.
    pub fn command(&self, k: usize) -> Option<&'f [u8]>
        ensures { option_map (λ x. x.now) result ≡ command_of self.now.file.now (slice_get self.now.jobs.items k) }
    {
        let job = self.jobs.get(k)?;
        part(self.file, job.command)
    }
}
