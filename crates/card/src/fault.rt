// Why an image has no rows.
use disks::Unmade;
use std::{fmt, io};

// What is refused of an image: its size, or its journal.
#[derive(Clone, Copy, Debug, PartialEq, Eq)]
pub(crate) enum Refusal {
    Disk(disks::Code),
    Journal(journal::Code),
}

impl fmt::Display for Refusal {
    fn fmt<W: fmt::Write>(&self, f: &mut fmt::Formatter<W>) -> fmt::Result {
        match self {
            Refusal::Disk(code) => write!(f, "{code}"),
            Refusal::Journal(code) => write!(f, "{code}"),
        }
    }
}

// Each program has an enum of its own: a library's generic one could not be given `From` another library's refusal.
#[derive(Drop)]
pub(crate) enum Fault {
    Refused(Refusal),
    // nothing is wrong with the image
    Failed(io::Error),
}

impl From<io::Error> for Fault {
    fn from(e: io::Error) -> Fault {
        Fault::Failed(e)
    }
}

fn out_of_memory() -> Fault {
    Fault::Failed(io::Error::from(io::ErrorKind::OutOfMemory))
}

impl From<Unmade> for Fault {
    fn from(unmade: Unmade) -> Fault {
        match unmade {
            Unmade::Refused(refusal) => Fault::Refused(Refusal::Disk(refusal.code())),
            Unmade::NoMemory => out_of_memory(),
        }
    }
}

impl From<journal::Refusal> for Fault {
    fn from(refusal: journal::Refusal) -> Fault {
        match refusal.code() {
            Some(code) => Fault::Refused(Refusal::Journal(code)),
            None => out_of_memory(),
        }
    }
}
