// A page as the model writes it: kind, number, ticket, code, next position and open tickets, `-` for what it lacks.
use page::{Event, Head, MOST_OPEN, PAGE_SIZE, decode};
use position_text::{AsOpen, AsPosition, AsTicket};
use std::io::Write;
use std::{fmt, io};
use time::{Minute, Position};

// What happened, with the page's number: kind, number, ticket and code.
#[derive(Clone, Copy, Debug, PartialEq, Eq)]
struct Happened(Head);

impl fmt::Display for Happened {
    fn fmt<W: fmt::Write>(&self, f: &mut fmt::Formatter<W>) -> fmt::Result {
        let number = self.0.number;
        match self.0.event {
            Event::Start(ticket) => {
                let ticket = AsTicket(ticket);
                write!(f, "1 {number} {ticket} -")
            }
            Event::Done(ticket, ending) => {
                let ticket = AsTicket(ticket);
                let code = ending.code;
                write!(f, "2 {number} {ticket} {code}")
            }
            Event::Format => write!(f, "3 {number} - -"),
        }
    }
}

// The page that a block is, or `none`.
pub(crate) fn write_page(out: &mut Vec<u8>, bytes: &[u8; PAGE_SIZE]) -> io::Result<()> {
    let mut place = [Position::start_of(Minute::new(0)); MOST_OPEN];
    let Some(head) = decode(bytes, &mut place) else {
        return out.write_all(b"none");
    };
    let happened = Happened(head);
    match head.checkpoint {
        Some(checkpoint) => {
            let next = AsPosition(checkpoint.next);
            let open = AsOpen(place.get(0..checkpoint.count as usize).unwrap_or(&[]));
            write!(out, "{happened} {next} {open}")
        }
        None => write!(out, "{happened} - -"),
    }
}
