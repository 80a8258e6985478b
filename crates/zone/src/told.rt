// The minutes of which a zone tells, and their labels.
ghost use Rattle.std.specs.Prelude.{◌≡◌, MatchResult, false};
ghost use Rattle.std.specs.Option.{option_map};
ghost use Rattle.time.specs.Limits.{told as is_told, within};
ghost use Rattle.zone.specs.Answers.{label_answer};
ghost use Rattle.zone.specs.Offsets.{label as label_of, NextChange};
ghost use Rattle.zone.specs.declared.refusal.Refusal.TheVariants.{OutOfRange};

use crate::label::Label;
use crate::refusal::Refusal;
use crate::zone::Zone;
use time::{Minute, MinuteFrom, Told};

// Does a zone tell of minute `u`?
pub fn is_told(u: Minute) -> bool
    ensures { result ≡ is_told u.0 }
{
    u.is_told()
}

// Minute `u`, if it lies from `FIRST` on and up to the last.
pub fn minute_from<const FIRST: u32>(u: Minute) -> Result<MinuteFrom<FIRST>, Refusal>
    ensures { MatchResult result (λ m. m.minute ≡ u) (λ e. (within FIRST u.0 ≡ false) × (e ≡ OutOfRange u)) }
{
    MinuteFrom::new(u).ok_or(Refusal::OutOfRange(u))
}

// The offset at a minute of which the zone tells.
pub fn offset_in<Z: Zone>(z: &Z, u: Told) -> i32
    ensures { result ≡ Z.offsets z.now u.minute.0 }
{
    z.offset_at(u.minute()).unwrap()
}

// The next change after a minute of which the zone tells.
pub fn change_after<Z: Zone>(z: &Z, u: Told) -> Option<Minute>
    ensures { NextChange (Z.offsets z.now) u.minute.0 (option_map (λ m. m.0) result) }
{
    z.next_change(u.minute()).unwrap()
}

// The label of a minute of which the zone tells.
pub fn label_in<Z: Zone>(z: &Z, u: Told) -> Label
    ensures { result.0 ≡ label_of (Z.offsets z.now) u.minute.0 }
{
    z.lawful();
    let count = u.minute().count();
    let offset = offset_in(z, u);
    if offset < 0 {
        Label::new(count - offset.unsigned_abs())
    } else {
        Label::new(count + offset.unsigned_abs())
    }
}

// What the local clock shows at minute `u`.
pub fn label_at<Z: Zone>(z: &Z, u: Minute) -> Result<Label, Refusal>
    ensures { result ≡ label_answer (Z.offsets z.now) u }
{
    Ok(label_in(z, minute_from(u)?))
}
