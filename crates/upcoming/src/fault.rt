// Why a script has no rows.
use std::alloc::AllocFailed;
use std::{fmt, io};

// What is refused of a script.
#[derive(Clone, Copy, Debug, PartialEq, Eq)]
pub(crate) enum Refusal {
    // a line before the crontab, counted from 1
    Line(usize),
    Zone(zone::Code),
    Crontab(crontab::Code),
    // a minute at which no line can be due
    Minute(u64),
}

impl fmt::Display for Refusal {
    fn fmt<W: fmt::Write>(&self, f: &mut fmt::Formatter<W>) -> fmt::Result {
        match self {
            Refusal::Line(line) => {
                let code = zone::Code {
                    number: 24,
                    beside: *line,
                };
                write!(f, "{code}")
            }
            Refusal::Zone(code) => write!(f, "{code}"),
            Refusal::Crontab(code) => write!(f, "{code}"),
            Refusal::Minute(minute) => write!(f, "refused 13 {minute}"),
        }
    }
}

// Each program has an enum of its own: a library's generic one could not be given `From` another library's refusal.
#[derive(Drop)]
pub(crate) enum Fault {
    Refused(Refusal),
    // nothing is wrong with the script
    Failed(io::Error),
}

impl From<Refusal> for Fault {
    fn from(refusal: Refusal) -> Fault {
        Fault::Refused(refusal)
    }
}

impl From<io::Error> for Fault {
    fn from(e: io::Error) -> Fault {
        Fault::Failed(e)
    }
}

impl<T: Drop> From<AllocFailed<T>> for Fault {
    fn from(_e: AllocFailed<T>) -> Fault {
        Fault::Failed(io::Error::from(io::ErrorKind::OutOfMemory))
    }
}

impl From<zone::Refusal> for Fault {
    fn from(refusal: zone::Refusal) -> Fault {
        Fault::Refused(Refusal::Zone(refusal.code()))
    }
}

impl From<crontab::Refusal> for Fault {
    fn from(refusal: crontab::Refusal) -> Fault {
        match refusal.code() {
            Some(code) => Fault::Refused(Refusal::Crontab(code)),
            None => Fault::Failed(io::Error::from(io::ErrorKind::OutOfMemory)),
        }
    }
}
