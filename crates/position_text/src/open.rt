// Open tickets.
ghost use Rattle.std.specs.Prelude.{Some};
ghost use Rattle.position_text.specs.Text.{open_text, rest_text};

use crate::single::AsPosition;
use std::fmt;
use time::Position;

// Positions after the first, each with a comma before it.
#[derive(Clone, Copy, Debug, PartialEq, Eq)]
struct Rest<'a>(&'a [Position]);

impl<'a> fmt::Display for Rest<'a> {
    ghost output = { λ r. Some (rest_text r.0.now) };

    fn fmt<W: fmt::Write>(&self, f: &mut fmt::Formatter<W>) -> fmt::Result {
        for ticket in self.0 {
            let position = AsPosition(*ticket);
            write!(f, ",{position}")?;
        }
        Ok(())
    }
}

// `(MINUTE:LINE,MINUTE:LINE)`, the tickets in brackets and parted by commas.
#[derive(Clone, Copy, Debug, PartialEq, Eq)]
pub struct AsOpen<'a>(pub &'a [Position]);

impl<'a> fmt::Display for AsOpen<'a> {
    ghost output = { λ o. Some (open_text o.0.now) };

    fn fmt<W: fmt::Write>(&self, f: &mut fmt::Formatter<W>) -> fmt::Result {
        match self.0 {
            [] => f.write_str("()"),
            [first, rest @ ..] => {
                let first = AsPosition(*first);
                let rest = Rest(rest);
                write!(f, "({first}{rest})")
            }
        }
    }
}
