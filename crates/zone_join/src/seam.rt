// Two zones, and a minute with room at which the second follows on the first.
ghost use Rattle.std.specs.Prelude.{◌≡◌, ◌-◌, ◌-ℤ◌, unsigned_abs};
ghost use Rattle.std.specs.Option.{option_map};
ghost use Rattle.zone.specs.Offsets.{NextChange};
ghost use Rattle.zone_join.specs.Joined.{accepts, joined};

use crate::room::Room;
use crate::smooth::is_smooth;
use time::{Minute, Told};
use zone::{Zone, change_after, offset_in};

// Clone and Copy alone: zones have no Debug and no PartialEq.
#[derive_where(Clone, Copy)]
pub(crate) struct Seam<'a, A: Zone, B: Zone> {
    pub(crate) a: &'a A,
    pub(crate) b: &'a B,
    pub(crate) room: Room,
}

impl<'a, A: Zone, B: Zone> Seam<'a, A, B> {
    // By how much the offset changes there.
    fn change(&self) -> u32
        ensures { result ≡ unsigned_abs (B.Zone.offsets self.now.b.now self.now.room.t.0
            -ℤ A.Zone.offsets self.now.a.now (self.now.room.t.0 - 1)) }
    {
        let old = offset_in(self.a, self.room.just_before());
        let new = offset_in(self.b, self.room.at());
        new.abs_diff(old)
    }

    // Do the joined offsets obey the law?
    pub(crate) fn is_lawful(&self) -> bool
        ensures { result ≡ accepts (A.Zone.offsets self.now.a.now)
            (B.Zone.offsets self.now.b.now)
            self.now.room.t.0 }
    {
        self.a.lawful();
        self.b.lawful();
        let before = change_after(self.a, self.room.day_before());
        let after = change_after(self.b, self.room.at());
        is_smooth(self.room.minute(), self.change(), before, after)
    }

    // The first change from there on.
    fn first_change(&self) -> Option<Minute>
        ensures { NextChange (joined (A.Zone.offsets self.now.a.now)
            (B.Zone.offsets self.now.b.now)
            self.now.room.t.0) (self.now.room.t.0 - 1) (option_map (λ m. m.0) result) }
    {
        if self.change() != 0 {
            return Some(self.room.minute());
        }
        change_after(self.b, self.room.at())
    }

    // The next change after a minute.
    pub(crate) fn change_after(&self, u: Told) -> Option<Minute>
        ensures { NextChange (joined (A.Zone.offsets self.now.a.now)
            (B.Zone.offsets self.now.b.now)
            self.now.room.t.0) u.minute.0 (option_map (λ m. m.0) result) }
    {
        let t = self.room.minute();
        if u.minute() >= t {
            return change_after(self.b, u);
        }
        match change_after(self.a, u) {
            Some(v) if v < t => Some(v),
            _ => self.first_change(),
        }
    }
}
