// Questions about zones: the offset at a minute, and when it changes next. An answer is one of several values, each of
// which displays itself.
use crate::text::entries;
use cases::{Program, parsed, parted};
use std::alloc::Global;
use std::io::Write;
use std::{fmt, io};
use time::Minute;
use zone::{Code, Entry, Refusal, TableZone, Zone};
use zone_join::Join;

// What a zone says of a minute.
#[derive(Clone, Copy, Debug, PartialEq, Eq)]
struct Told {
    offset: i32,
    next: Option<Minute>,
}

impl fmt::Display for Told {
    fn fmt<W: fmt::Write>(&self, f: &mut fmt::Formatter<W>) -> fmt::Result {
        let offset = self.offset;
        match self.next {
            Some(next) => {
                let minute = next.count();
                write!(f, "{offset} {minute}")
            }
            None => write!(f, "{offset} none"),
        }
    }
}

fn ask<Z: Zone>(z: &Z, u: Minute) -> Result<Told, Refusal> {
    Ok(Told {
        offset: z.offset_at(u)?,
        next: z.next_change(u)?,
    })
}

pub(crate) fn write_code(out: &mut Vec<u8>, code: Code) -> io::Result<()> {
    write!(out, "{code}")
}

fn write_answer<Z: Zone>(out: &mut Vec<u8>, z: &Z, u: i64) -> io::Result<()> {
    let Ok(count) = u32::try_from(u) else {
        // no zone can be asked about a minute that cannot be counted; the refusal is that of any minute out of range
        return write!(out, "refused 13 {u}");
    };
    match ask(z, Minute::new(count)) {
        Ok(told) => write!(out, "{told}"),
        Err(refusal) => write_code(out, refusal.code()),
    }
}

#[derive(Drop)]
pub(crate) struct Offsets;

impl Program for Offsets {
    fn label(&self) -> &str {
        "zone.txt "
    }

    // Answers `TABLE u`.
    fn answer(&self, heap: Global, out: &mut Vec<u8>, question: &str) -> io::Result<()> {
        let (table, u) = parted(question, " ")?;
        let entries = entries(heap, table)?;
        match TableZone::checked(entries.as_slice()) {
            Ok(zone) => write_answer(out, &zone, parsed(u)?),
            Err(refusal) => write_code(out, refusal.code()),
        }
    }
}

// The two zones, joined at minute `t`; or the first refusal, of the first, of the second, of the join.
fn joined<'a>(
    first: &'a [Entry],
    second: &'a [Entry],
    t: Minute,
) -> Result<Join<TableZone<'a>, TableZone<'a>>, Refusal> {
    let join = Join::new(TableZone::checked(first)?, TableZone::checked(second)?, t);
    match join.refusal() {
        Some(refusal) => Err(refusal),
        None => Ok(join),
    }
}

#[derive(Drop)]
pub(crate) struct Joins;

impl Program for Joins {
    fn label(&self) -> &str {
        "join.txt "
    }

    // Answers `FIRST SECOND t u`, of two tables that are joined at minute `t`.
    fn answer(&self, heap: Global, out: &mut Vec<u8>, question: &str) -> io::Result<()> {
        let (first, rest) = parted(question, " ")?;
        let (second, rest) = parted(rest, " ")?;
        let (t, u) = parted(rest, " ")?;
        let first = entries(heap, first)?;
        let second = entries(heap, second)?;
        match joined(first.as_slice(), second.as_slice(), Minute::new(parsed(t)?)) {
            Ok(join) => write_answer(out, &join, parsed(u)?),
            Err(refusal) => write_code(out, refusal.code()),
        }
    }
}
