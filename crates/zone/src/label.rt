// Local time, in minutes: what the clock of a place shows.
ghost use Rattle.std.specs.Prelude.{◌≡◌, ◌-◌};

#[derive(Clone, Copy, Debug, PartialEq, Eq, PartialOrd, Ord)]
pub struct Label(u32);

impl Label {
    pub(crate) fn new(count: u32) -> Label
        ensures { result.0 ≡ count }
    {
        Label(count)
    }

    // How many local minutes have passed since 1970-01-01 00:00 on that clock.
    pub fn count(self) -> u32
        ensures { result ≡ self.0 }
    {
        self.0
    }

    // The label one minute earlier; label 0 has none, and stays.
    pub fn previous(self) -> Label
        ensures { result.0 ≡ self.0 - 1 }
    {
        Label(self.0.saturating_sub(1))
    }
}
