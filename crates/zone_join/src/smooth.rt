// When a join keeps the law.
ghost use Rattle.std.specs.Prelude.{◌≡◌};
ghost use Rattle.std.specs.Option.{option_map};
ghost use Rattle.zone_join.specs.Joined.{clear, late, smooth};

use time::Minute;
use zone::{MOST_CHANGE, is_day_later};

// Is the change `w`, if there is one, a day or more after `s`?
fn is_late(s: Minute, w: Option<Minute>) -> bool
    ensures { result ≡ late s.0 (option_map (λ m. m.0) w) }
{
    w.is_none_or(|w| is_day_later(s, w))
}

// Do changes lie a day apart around `t`, where the offset changes by `change`?
// `v` is the first change of the first zone after the day before `t`, and `w` that of the second after `t`.
fn is_clear(t: Minute, change: u32, v: Option<Minute>, w: Option<Minute>) -> bool
    ensures { result ≡ clear t.0 change (option_map (λ m. m.0) v) (option_map (λ m. m.0) w) }
{
    match v {
        Some(v) if v < t => change == 0 && is_late(v, w),
        _ => change == 0 || is_late(t, w),
    }
}

// And is the change at `t` not too large?
pub(crate) fn is_smooth(t: Minute, change: u32, v: Option<Minute>, w: Option<Minute>) -> bool
    ensures { result ≡ smooth t.0 change (option_map (λ m. m.0) v) (option_map (λ m. m.0) w) }
{
    change <= MOST_CHANGE && is_clear(t, change, v, w)
}
