// How many cases there are, and in how many of them the answer differs.
ghost use Rattle.std.specs.Prelude.{Some};
ghost use Rattle.cases.specs.Report.{tally_text};

use std::fmt;

#[derive(Clone, Copy, Debug, PartialEq, Eq)]
pub struct Tally {
    pub cases: usize,
    pub differ: usize,
}

impl fmt::Display for Tally {
    ghost output = { λ t. Some (tally_text t) };

    fn fmt<W: fmt::Write>(&self, f: &mut fmt::Formatter<W>) -> fmt::Result {
        let cases = self.cases;
        let differ = self.differ;
        write!(f, "cases {cases} differ {differ}")
    }
}
