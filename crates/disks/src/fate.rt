// How a write that was kept back fares when the power fails.
#[derive(Clone, Copy, Debug, PartialEq, Eq)]
pub enum Fate {
    // the block holds what it held before the write
    Old,
    // the block holds what was written
    New,
    // the block holds nothing that can be read
    Torn,
}
