// Why a crontab is refused.
ghost use Rattle.std.specs.Prelude.{◌≡◌, Some};
ghost use Rattle.crontab.specs.Refusal.{code_of, code_text};

use fields::{Fault, Field};
use std::fmt;

// A place in the file, both counted from 1.
#[derive(Clone, Copy, PartialEq, Eq, Debug)]
pub struct Place {
    pub line: usize,
    pub column: usize,
}

#[derive(Clone, Copy, PartialEq, Eq, Debug)]
pub enum Refusal {
    FileTooLong,
    LineTooLong(Place),
    ForbiddenByte(Place),
    TooManyJobs(Place),
    Element(Fault, Place, Field),
    Missing(Place),
    Memory,
}

// A refusal as it is written: by the number that the formats give it, and what stands beside it.
#[derive(Clone, Copy, PartialEq, Eq, Debug)]
pub struct Code {
    pub number: u8,
    pub place: Option<Place>,
    pub field: Option<u8>,
}

impl fmt::Display for Code {
    ghost output = { λ c. Some (code_text c) };

    fn fmt<W: fmt::Write>(&self, f: &mut fmt::Formatter<W>) -> fmt::Result {
        write!(f, "refused {}", self.number)?;
        if let Some(Place { line, column }) = self.place {
            write!(f, " {line} {column}")?;
        }
        if let Some(field) = self.field {
            write!(f, " {field}")?;
        }
        Ok(())
    }
}

impl Refusal {
    // The refusal by its number; want of memory has none.
    pub fn code(self) -> Option<Code>
        ensures { result ≡ code_of self }
    {
        let (number, place, field) = match self {
            Refusal::FileTooLong => (1, None, None),
            Refusal::LineTooLong(p) => (2, Some(p), None),
            Refusal::ForbiddenByte(p) => (3, Some(p), None),
            Refusal::TooManyJobs(p) => (4, Some(p), None),
            Refusal::Element(Fault::NoSuchElement, p, f) => (5, Some(p), Some(f.number())),
            Refusal::Element(Fault::OutOfRange, p, f) => (6, Some(p), Some(f.number())),
            Refusal::Element(Fault::Turned, p, f) => (7, Some(p), Some(f.number())),
            Refusal::Missing(p) => (8, Some(p), None),
            Refusal::Memory => return None,
        };
        Some(Code {
            number,
            place,
            field,
        })
    }
}
