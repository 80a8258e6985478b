// The limits of a crontab.

// The longest file, in bytes.
pub(crate) const LONGEST_FILE: usize = 16384;

// The longest line, in bytes.
pub(crate) const LONGEST_LINE: usize = 1000;

// How many job lines a file may have.
pub(crate) const MOST_JOBS: usize = 64;
