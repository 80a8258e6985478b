// The join of two zones.
ghost use Rattle.std.specs.Prelude.{◌≡◌, true, false, MatchOption};
ghost use Rattle.zone_join.specs.Joined.{accepts, join_offset, join_refusal};

use crate::room::Room;
use crate::seam::Seam;
use time::Minute;
use zone::{Refusal, Zone, change_after, minute_from};

// The first zone before minute `t`, the second from it on; the first alone, if the two cannot be joined there.
#[derive(Drop)]
pub struct Join<A: Zone, B: Zone> {
    pub(crate) a: A,
    pub(crate) b: B,
    pub(crate) t: Minute,
}

impl<A: Zone, B: Zone> Join<A, B> {
    pub fn new(a: A, b: B, t: Minute) -> Join<A, B>
        ensures first { result.a ≡ a }
        ensures second { result.b ≡ b }
        ensures minute { result.t ≡ t }
    {
        Join { a, b, t }
    }

    // Where the two meet, if they can be joined there.
    fn taken(&self) -> Option<Seam<'_, A, B>>
        ensures { MatchOption result
            (accepts (A.Zone.offsets self.now.a) (B.Zone.offsets self.now.b) self.now.t.0 ≡ false)
            (λ s. (accepts (A.Zone.offsets self.now.a) (B.Zone.offsets self.now.b) self.now.t.0 ≡ true)
            × (s.a.now ≡ self.now.a) × (s.b.now ≡ self.now.b) × (s.room.t ≡ self.now.t)) }
    {
        let room = Room::new(self.t)?;
        let seam = Seam {
            a: &self.a,
            b: &self.b,
            room,
        };
        seam.is_lawful().then_some(seam)
    }

    // Can the two be joined?
    fn is_taken(&self) -> bool
        ensures { result ≡ accepts (A.Zone.offsets self.now.a)
            (B.Zone.offsets self.now.b)
            self.now.t.0 }
    {
        self.taken().is_some()
    }

    // Why the two cannot be joined, if they cannot.
    pub fn refusal(&self) -> Option<Refusal>
        ensures { result ≡ join_refusal (A.Zone.offsets self.now.a)
            (B.Zone.offsets self.now.b)
            self.now.t }
    {
        (!self.is_taken()).then_some(Refusal::BadJoin(self.t))
    }
}

impl<A: Zone, B: Zone> Zone for Join<A, B> {
    ghost offsets = { λ j. join_offset (A.Zone.offsets j.a) (B.Zone.offsets j.b) j.t.0 };

    fn lawful(&self) {
        self.a.lawful();
        self.b.lawful();
    }

    fn offset_at(&self, u: Minute) -> Result<i32, Refusal> {
        if u >= self.t && self.is_taken() {
            return self.b.offset_at(u);
        }
        self.a.offset_at(u)
    }

    fn next_change(&self, u: Minute) -> Result<Option<Minute>, Refusal> {
        let told = minute_from(u)?;
        match self.taken() {
            Some(seam) => Ok(seam.change_after(told)),
            None => Ok(change_after(&self.a, told)),
        }
    }
}
