// The parts of a case.
use cases::{parsed, parted};
use std::alloc::Global;
use std::io;
use time::Minute;
use zone::Entry;

// The entry `MINUTE:OFFSET`. A minute that cannot be counted becomes the greatest, which no table takes either.
fn entry(text: &str) -> io::Result<Entry> {
    let (minute, offset) = parted(text, ":")?;
    let minute = u32::try_from(parsed::<i64>(minute)?).unwrap_or(u32::MAX);
    Ok(Entry {
        minute: Minute::new(minute),
        offset: parsed(offset)?,
    })
}

// The entries of a table, parted by commas.
pub(crate) fn entries(heap: Global, text: &str) -> io::Result<Vec<Entry>> {
    text.split(',').map(entry).try_collect(heap)
}
