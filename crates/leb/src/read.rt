// Reading.
ghost use Rattle.std.specs.Prelude.{◌≡◌, ◌≤◌, Decides, ◌≢◌};
ghost use Rattle.leb.specs.Number.{Reads, number_bytes};
ghost use Rattle.std.specs.Option.{option_map};

use crate::limits::GROUP;

// Is it in shortest form, which has no empty last group, and at most max?
fn is_taken(high: u32, n: u32, max: u32) -> bool
    ensures { Decides result ((high ≢ 0) × (n ≤ max)) }
{
    high != 0 && n <= max
}

// The number at the front of s, at most max, in shortest form, and what follows it.
pub fn read_number(s: &[u8], max: u32) -> Option<(u32, &[u8])>
    ensures { Reads (λ n. n ≤ max) number_bytes s.now (option_map (λ p. (p.0, p.1.now)) result) }
{
    let (first, rest) = s.split_first()?;
    let b = *first as u32;
    if b < GROUP {
        return (b <= max).then_some((b, rest));
    }
    if max < GROUP {
        return None;
    }
    let (high, rest) = read_number(rest, max / GROUP)?;
    let n = GROUP * high + (b - GROUP);
    if !is_taken(high, n, max) {
        return None;
    }
    Some((n, rest))
}
