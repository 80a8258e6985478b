// The limits of what is written.

// How many bytes a block has.
pub const BLOCK: usize = 256;

// How many values a group of seven bits has; a byte from here on says that another group follows.
pub(crate) const GROUP: u32 = 128;
