// What a table has to keep to.
ghost use Rattle.std.specs.Prelude.{◌≡◌, not, drop, position};
ghost use Rattle.std.specs.List.{zip};
ghost use Rattle.zone.specs.Table.{day_later, entry_fault, follows, near, small_change, starts, table_fault};

use crate::entry::Entry;
use crate::limits::{LEAST_APART, MOST_CHANGE, MOST_ENTRIES, MOST_OFFSET};
use time::Minute;

// Is it the offset of some place?
fn is_near(offset: i32) -> bool
    ensures { result ≡ near offset }
{
    offset.unsigned_abs() <= MOST_OFFSET
}

// Does minute `m` come a day or more after minute `p`?
pub fn is_day_later(p: Minute, m: Minute) -> bool
    ensures { result ≡ day_later p.0 m.0 }
{
    u64::from(m.count()) >= u64::from(p.count()) + u64::from(LEAST_APART)
}

// Is it a change, and not too large a one?
fn is_small_change(old: i32, new: i32) -> bool
    ensures { result ≡ small_change old new }
{
    let change = new.abs_diff(old);
    1 <= change && change <= MOST_CHANGE
}

// May `e` stand first in a table?
fn may_start(e: Entry) -> bool
    ensures { result ≡ starts e }
{
    e.minute.count() == 0 && is_near(e.offset)
}

// May `e` follow `p` in a table?
fn may_follow(p: Entry, e: Entry) -> bool
    ensures { result ≡ follows p e }
{
    e.minute.is_served()
        && is_near(e.offset)
        && is_day_later(p.minute, e.minute)
        && is_small_change(p.offset, e.offset)
}

// The index of the first entry that the next one may not follow.
fn first_misfit(entries: &[Entry]) -> Option<usize>
    ensures { result ≡ position (λ x. not (follows x.0 x.1)) (zip entries.now (drop 1 entries.now)) }
{
    let later = entries.iter().skip(1);
    entries
        .iter()
        .zip(later)
        .position(|(p, e)| !may_follow(*p, *e))
}

// The index of the first bad entry.
fn bad_entry(entries: &[Entry]) -> Option<usize>
    ensures { result ≡ entry_fault entries.now }
{
    match entries.first() {
        Some(first) if may_start(*first) => Some(1 + first_misfit(entries)?),
        _ => Some(0),
    }
}

// The index for which a table is refused.
pub(crate) fn fault_of(entries: &[Entry]) -> Option<usize>
    ensures { result ≡ table_fault entries.now }
{
    if entries.len() > MOST_ENTRIES {
        return Some(MOST_ENTRIES);
    }
    bad_entry(entries)
}
