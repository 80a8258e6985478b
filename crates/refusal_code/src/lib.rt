// A refusal as it is told: its number, and the one value that stands beside it.
#![tactic(auto)]

ghost use Rattle.std.specs.Prelude.{Some};
ghost use Rattle.refusal_code.specs.Text.{code_text};

use std::fmt;

// The number of a refusal, and what stands beside it.
#[derive(Clone, Copy, Debug, PartialEq, Eq)]
pub struct Code {
    pub number: u8,
    pub beside: usize,
}

// The text `refused NUMBER BESIDE`.
impl fmt::Display for Code {
    ghost output = { λ c. Some (code_text c) };

    fn fmt<W: fmt::Write>(&self, f: &mut fmt::Formatter<W>) -> fmt::Result {
        let number = self.number;
        let beside = self.beside;
        write!(f, "refused {number} {beside}")
    }
}
