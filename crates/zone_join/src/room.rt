// The minutes at which zones can be joined.
ghost use Rattle.std.specs.Prelude.{◌≡◌, ◌-◌, true, false, MatchOption};
ghost use Rattle.zone.specs.Limits.{least_apart};
ghost use Rattle.zone_join.specs.Joined.{roomy as is_roomy};

use crate::limits::{FIRST_JOIN, LAST_JOIN};
use time::{Minute, Told};
use zone::LEAST_APART;

// A minute with room on both sides. Its own type, and no `MinuteFrom`: that type, of another crate, can have no methods
// here, and with functions for them it would be no plainer.
#[derive(Clone, Copy, Debug, PartialEq, Eq)]
pub(crate) struct Room {
    t: Minute,
    ghost roomy: { is_roomy t.0 ≡ true },
}

impl Room {
    // The minute, if it leaves room on both sides.
    pub(crate) fn new(t: Minute) -> Option<Room>
        ensures { MatchOption result (is_roomy t.0 ≡ false) (λ r. r.t ≡ t) }
    {
        if t.count() >= FIRST_JOIN && t.count() <= LAST_JOIN {
            Some(Room { t })
        } else {
            None
        }
    }

    pub(crate) fn minute(self) -> Minute
        ensures { result ≡ self.t }
    {
        self.t
    }

    // Zones tell of it,
    pub(crate) fn at(self) -> Told
        ensures { result.minute ≡ self.t }
    {
        Told::new(self.t).unwrap()
    }

    // of the minute before it,
    pub(crate) fn just_before(self) -> Told
        ensures { result.minute.0 ≡ self.t.0 - 1 }
    {
        Told::new(Minute::new(self.t.count() - 1)).unwrap()
    }

    // and of the minute a day before.
    pub(crate) fn day_before(self) -> Told
        ensures { result.minute.0 ≡ self.t.0 - least_apart }
    {
        Told::new(Minute::new(self.t.count() - LEAST_APART)).unwrap()
    }
}
