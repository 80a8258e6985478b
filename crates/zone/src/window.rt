// The labels that a minute is the first to reach.
ghost use Rattle.std.specs.Prelude.{◌≡◌, ◌-◌, ◌≤◌};
ghost use Rattle.zone.specs.Answers.{fresh_answer, window};
ghost use Rattle.zone.specs.Limits.{look_back};
ghost use Rattle.zone.specs.Offsets.{reached};

use crate::label::Label;
use crate::limits::LOOK_BACK;
use crate::refusal::Refusal;
use crate::told::{label_in, minute_from, offset_in};
use crate::zone::Zone;
use time::{Minute, Served, Told};

// The labels above `above`, up to `to`: those that the clock shows or has just skipped, and did not show lately.
#[derive(Clone, Copy, Debug, PartialEq, Eq)]
pub struct Window {
    pub above: Label,
    pub to: Label,
}

// The minute `k` minutes before.
fn earlier(u: Served, k: u32) -> Told
    requires { k ≤ look_back }
    ensures { result.minute.0 ≡ u.minute.0 - k }
{
    let minute = Minute::new(u.minute().count() - k);
    Told::new(minute).unwrap()
}

// The greatest label that the clock showed lately before `u`, minute by minute.
fn highest_before<Z: Zone>(z: &Z, u: Served) -> Label
    ensures { result.0 ≡ reached (Z.offsets z.now) u.minute.0 }
{
    let mut top = Label::new(0);
    for k in 1..=LOOK_BACK {
        top = label_in(z, earlier(u, k)).max(top);
    }
    top
}

// The same: where the offset is what it was, the law rules out a change since, so the minute before has that label.
fn reached_before<Z: Zone>(z: &Z, u: Served) -> Label
    ensures { result.0 ≡ reached (Z.offsets z.now) u.minute.0 }
{
    z.lawful();
    let old = offset_in(z, earlier(u, LOOK_BACK));
    let new = offset_in(z, Told::from(u));
    if old == new {
        return label_in(z, earlier(u, 1));
    }
    highest_before(z, u)
}

// The labels that a minute is the first to reach.
pub fn fresh_in<Z: Zone>(z: &Z, u: Served) -> Window
    ensures { result ≡ window (Z.offsets z.now) u.minute.0 }
{
    let above = reached_before(z, u);
    let to = label_in(z, Told::from(u));
    Window { above, to }
}

// The labels that minute `u` is the first to reach, if a line can be due at it.
pub fn fresh<Z: Zone>(z: &Z, u: Minute) -> Result<Window, Refusal>
    ensures { result ≡ fresh_answer (Z.offsets z.now) u }
{
    Ok(fresh_in(z, minute_from(u)?))
}
