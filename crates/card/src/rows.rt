// The rows: the pages that a restart replays, and what they leave. They are written and not displayed as a whole: each
// page is read as its row comes.
use crate::fault::Fault;
use disk::Disk;
use journal::{BadPage, Refusal, Restarted, block_of, first_replayed, read_page};
use journal_state::State;
use page::{Event, Head, MOST_OPEN};
use position_text::AsTicket;
use std::io::Write;
use std::{fmt, io};
use time::{Minute, Position};

// A page as a row.
#[derive(Clone, Copy, Debug, PartialEq, Eq)]
struct Row(Head);

impl fmt::Display for Row {
    fn fmt<W: fmt::Write>(&self, f: &mut fmt::Formatter<W>) -> fmt::Result {
        let number = self.0.number;
        match self.0.event {
            Event::Format => write!(f, "page {number} format"),
            Event::Start(ticket) => {
                let ticket = AsTicket(ticket);
                write!(f, "page {number} start {ticket}")
            }
            Event::Done(ticket, ending) => {
                let ticket = AsTicket(ticket);
                let code = ending.code;
                write!(f, "page {number} done {ticket} {code}")
            }
        }
    }
}

// The pages from the last checkpoint at or below the top, up to the top.
fn write_pages<D: Disk>(out: &mut Vec<u8>, disk: &D, top: u32) -> Result<(), Fault> {
    let mut place = [Position::start_of(Minute::new(0)); MOST_OPEN];
    for page in first_replayed(top)..=top {
        let block = block_of(disk, page);
        let head = read_page(disk, page, &mut place).map_err(|cause| Refusal::BadPage(BadPage {
            page,
            block,
            cause,
        }))?;
        let row = Row(head);
        writeln!(out, "{row}")?;
    }
    Ok(())
}

fn write_state(out: &mut Vec<u8>, state: &State) -> io::Result<()> {
    let minute = state.next.minute().count();
    let line = state.next.line();
    writeln!(out, "next {minute} {line}")?;
    for ticket in state.tickets.iter() {
        let ticket = AsTicket(*ticket);
        writeln!(out, "open {ticket}")?;
    }
    Ok(())
}

// What a restart found on the disk.
pub(crate) fn write_rows<D: Disk>(
    out: &mut Vec<u8>,
    disk: &D,
    found: &Restarted,
) -> Result<(), Fault> {
    let top = found.top;
    write_pages(out, disk, top)?;
    writeln!(out, "top {top}")?;
    write_state(out, &found.state)?;
    Ok(())
}
