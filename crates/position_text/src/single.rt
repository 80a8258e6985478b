// One position: the model of the cases writes its minute first, a journal's rows a ticket's line.
ghost use Rattle.std.specs.Prelude.{Some};
ghost use Rattle.position_text.specs.Text.{position_text, ticket_text};

use std::fmt;
use time::Position;

// `MINUTE:LINE`.
#[derive(Clone, Copy, Debug, PartialEq, Eq)]
pub struct AsPosition(pub Position);

impl fmt::Display for AsPosition {
    ghost output = { λ p. Some (position_text p.0) };

    fn fmt<W: fmt::Write>(&self, f: &mut fmt::Formatter<W>) -> fmt::Result {
        let minute = self.0.minute().count();
        let line = self.0.line();
        write!(f, "{minute}:{line}")
    }
}

// `LINE MINUTE`.
#[derive(Clone, Copy, Debug, PartialEq, Eq)]
pub struct AsTicket(pub Position);

impl fmt::Display for AsTicket {
    ghost output = { λ p. Some (ticket_text p.0) };

    fn fmt<W: fmt::Write>(&self, f: &mut fmt::Formatter<W>) -> fmt::Result {
        let line = self.0.line();
        let minute = self.0.minute().count();
        write!(f, "{line} {minute}")
    }
}
