// Whole minutes since 1970-01-01 00:00 UTC.
ghost use Rattle.std.specs.Prelude.{◌≡◌};
ghost use Rattle.time.specs.Limits.{served as is_served, told as is_told, within};

use crate::limits::{FIRST_MINUTE, FIRST_TOLD, LAST_MINUTE};

#[derive(Clone, Copy, Debug, PartialEq, Eq, PartialOrd, Ord)]
pub struct Minute(u32);

impl Minute {
    pub fn new(count: u32) -> Minute
        ensures { result.0 ≡ count }
    {
        Minute(count)
    }

    // How many minutes have passed since then.
    pub fn count(self) -> u32
        ensures { result ≡ self.0 }
    {
        self.0
    }

    // Does it lie from `first` on, up to the last?
    pub(crate) fn is_within(self, first: u32) -> bool
        ensures { result ≡ within first self.0 }
    {
        first <= self.0 && self.0 <= LAST_MINUTE
    }

    // Does a zone tell of it?
    pub fn is_told(self) -> bool
        ensures { result ≡ is_told self.0 }
    {
        self.is_within(FIRST_TOLD)
    }

    // Can a line be due or an offset change at it?
    pub fn is_served(self) -> bool
        ensures { result ≡ is_served self.0 }
    {
        self.is_within(FIRST_MINUTE)
    }
}
