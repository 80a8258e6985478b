// Minutes of a range.
ghost use Rattle.std.specs.Prelude.{◌≡◌, true, false, MatchOption};
ghost use Rattle.time.specs.Limits.{within as is_within};

use crate::limits::{FIRST_MINUTE, FIRST_TOLD};
use crate::minute::Minute;

// A minute from `FIRST` on, up to the last.
#[derive(Clone, Copy, Debug, PartialEq, Eq, PartialOrd, Ord)]
pub struct MinuteFrom<const FIRST: u32> {
    pub(crate) minute: Minute,
    pub ghost within: { is_within FIRST minute.0 ≡ true },
}

// A minute of which a zone tells.
pub type Told = MinuteFrom<FIRST_TOLD>;

// A minute at which a line can be due or an offset change.
pub type Served = MinuteFrom<FIRST_MINUTE>;

impl<const FIRST: u32> MinuteFrom<FIRST> {
    // The minute, if it lies there.
    pub fn new(minute: Minute) -> Option<MinuteFrom<FIRST>>
        ensures { MatchOption result (is_within FIRST minute.0 ≡ false) (λ m. m.minute ≡ minute) }
    {
        if minute.is_within(FIRST) {
            Some(MinuteFrom { minute })
        } else {
            None
        }
    }

    pub fn minute(self) -> Minute
        ensures { result ≡ self.entry.minute }
    {
        self.minute
    }
}

// A zone tells of each minute at which a line can be due.
impl From<Served> for Told {
    fn from(served: Served) -> Told
        ensures { result.minute ≡ served.minute }
    {
        MinuteFrom {
            minute: served.minute,
        }
    }
}
