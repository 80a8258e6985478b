// The whole file.
ghost use Rattle.std.specs.Prelude.{◌≡◌, ◌≤◌, ◌⊎◌, length, Ok, Err, vec_len, MatchResult};
ghost use Rattle.crontab.specs.Limits.{longest_file};
ghost use Rattle.crontab.specs.Line.{line_reading};
ghost use Rattle.crontab.specs.declared.refusal.Refusal.TheVariants.{Memory};
ghost use Rattle.crontab.specs.File.{Added, file_reading, lines, lines_reading};

use crate::job::Job;
use crate::limits::LONGEST_FILE;
use crate::line::Line;
use crate::lines::Lines;
use crate::refusal::Refusal;
use std::alloc::{AllocFailed, Global};

// The jobs of a file, which keeps the commands.
#[derive(Debug, Drop)]
pub struct Crontab<'f> {
    pub(crate) file: &'f [u8],
    pub(crate) jobs: Vec<Job>,
}

impl<T: Drop> From<AllocFailed<T>> for Refusal {
    ghost from_gives = { λ _ r. r ≡ Memory };

    fn from(_r: AllocFailed<T>) -> Refusal {
        Refusal::Memory
    }
}

// Reads a line, and adds its job, if it has one.
fn add_line(jobs: &mut Vec<Job>, line: Line<'_>) -> Result<(), Refusal>
    ensures { MatchResult result
        (λ _. Added line.entry.number line.entry.start line.entry.text.now jobs.old jobs.new)
        (λ e. (e ≡ Memory)
        ⊎ (line_reading line.entry.number line.entry.start (vec_len jobs.old) line.entry.text.now ≡ Err e)) }
{
    if let Some(job) = line.read(jobs.len())? {
        jobs.push(job)?;
    }
    Ok(())
}

// The jobs of the file's lines, or the first refusal.
fn read_lines(heap: Global, file: &[u8]) -> Result<Vec<Job>, Refusal>
    requires { length file.now ≤ longest_file }
    ensures { MatchResult result
        (λ v. lines_reading 1 0 0 (lines file.now) ≡ Ok v.items)
        (λ e. (e ≡ Memory) ⊎ (lines_reading 1 0 0 (lines file.now) ≡ Err e)) }
{
    let mut jobs = Vec::new(heap);
    for line in Lines::of(file) {
        add_line(&mut jobs, line)?;
    }
    Ok(jobs)
}

// The jobs of a file, or its first refusal.
pub fn read<'f>(heap: Global, file: &'f [u8]) -> Result<Crontab<'f>, Refusal>
    ensures { MatchResult result
        (λ c. (c.file ≡ file.entry) × (file_reading file.now ≡ Ok c.jobs.items))
        (λ e. (e ≡ Memory) ⊎ (file_reading file.now ≡ Err e)) }
{
    if file.len() > LONGEST_FILE {
        return Err(Refusal::FileTooLong);
    }
    let jobs = read_lines(heap, file)?;
    Ok(Crontab { file, jobs })
}
