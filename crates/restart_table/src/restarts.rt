// Questions about restarts: what is found again of the journal on a disk.
use cases::{parsed, parted, unwritten, without_capitals};
use disk::Disk;
use disks::{Fate, HoldingDisk, Unmade};
use journal::{Refusal, Restarted, restart};
use page::PAGE_SIZE;
use position_text::{AsOpen, AsPosition};
use std::alloc::Global;
use std::io::Write;
use std::{fmt, io};

// The block that begins with the bytes that the digits say, and has zeros after them.
fn block_of(digits: &str) -> io::Result<[u8; PAGE_SIZE]> {
    let mut block = [0; PAGE_SIZE];
    let digits = without_capitals(digits).ok_or_else(|| unwritten())?;
    let front = block
        .get_mut(..digits.len() / 2)
        .ok_or_else(|| unwritten())?;
    hex::decode_to_slice(digits, front).map_err(|_| unwritten())?;
    Ok(block)
}

// A block that a question names: what it holds, in hexadecimal, or none where it is torn.
#[derive(Clone, Copy, Debug, PartialEq, Eq)]
struct Named<'a> {
    index: &'a str,
    digits: Option<&'a str>,
}

// The block `INDEX:HEX` or `INDEX:torn`.
fn block_named(text: &str) -> io::Result<Named<'_>> {
    let (index, content) = parted(text, ":")?;
    Ok(Named {
        index,
        digits: (content != "torn").then_some(content),
    })
}

// Writes the blocks that hold something, so that they last, and tears the others: these are being written when the
// power fails. The text is gone through twice, so that no list of the blocks takes memory.
fn fill(disk: &mut HoldingDisk, blocks: &str) -> io::Result<()> {
    for block in blocks.split(',').map(block_named) {
        if let Named {
            index,
            digits: Some(digits),
        } = block?
        {
            disk.write(parsed(index)?, &block_of(digits)?);
        }
    }
    disk.sync();
    for block in blocks.split(',').map(block_named) {
        if let Named {
            index,
            digits: None,
        } = block?
        {
            disk.write(parsed(index)?, &[0; PAGE_SIZE]);
        }
    }
    disk.cut_to(Fate::Torn);
    Ok(())
}

// What a restart found, as `TOP NEXT OPEN`.
#[derive(Drop)]
struct Found(Restarted);

impl fmt::Display for Found {
    fn fmt<W: fmt::Write>(&self, f: &mut fmt::Formatter<W>) -> fmt::Result {
        let top = self.0.top;
        let next = AsPosition(self.0.state.next);
        let open = AsOpen(self.0.state.tickets.as_slice());
        write!(f, "{top} {next} {open}")
    }
}

fn out_of_memory() -> io::Error {
    io::Error::from(io::ErrorKind::OutOfMemory)
}

fn write_unmade(out: &mut Vec<u8>, unmade: Unmade) -> io::Result<()> {
    match unmade {
        Unmade::Refused(refusal) => {
            let code = refusal.code();
            write!(out, "{code}")
        }
        Unmade::NoMemory => Err(out_of_memory()),
    }
}

fn write_refusal(out: &mut Vec<u8>, refusal: Refusal) -> io::Result<()> {
    match refusal.code() {
        Some(code) => write!(out, "{code}"),
        None => Err(out_of_memory()),
    }
}

// Answers `COUNT LINES BLOCKS`, where the blocks that are not named hold zeros and `-` names none.
pub(crate) fn write_restart(heap: Global, out: &mut Vec<u8>, question: &str) -> io::Result<()> {
    let (count, rest) = parted(question, " ")?;
    let (lines, blocks) = parted(rest, " ")?;
    let mut disk = match HoldingDisk::new(heap, parsed(count)?) {
        Ok(disk) => disk,
        Err(unmade) => return write_unmade(out, unmade),
    };
    if blocks != "-" {
        fill(&mut disk, blocks)?;
    }
    match restart(heap, &disk, parsed(lines)?) {
        Ok(found) => {
            let found = Found(found);
            write!(out, "{found}")
        }
        Err(refusal) => write_refusal(out, refusal),
    }
}
