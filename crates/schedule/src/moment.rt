// A minute as job lines are asked about it: what is looked up once for all of them.
ghost use Rattle.std.specs.Prelude.{◌≡◌};
ghost use Rattle.schedule.specs.Match.{parts as parts_of};

use crate::parts::Parts;
use zone::Window;

#[derive(Clone, Copy, Debug, PartialEq, Eq)]
pub struct Moment {
    pub(crate) window: Window,
    // of the label that the clock shows
    pub(crate) parts: Parts,
    ghost read: { parts ≡ parts_of window.to.0 },
}
