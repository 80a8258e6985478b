// Why a program ends with status 1.
ghost use Rattle.std.specs.Prelude.{◌≡◌};
ghost use Rattle.tool.specs.Stops.{TellsError};
ghost use Rattle.tool.specs.declared.stop.Stop.TheVariants.{Memory};

use std::alloc::AllocError;
use std::io;

#[derive(Debug, Drop)]
pub enum Stop {
    // the input is refused: what is printed of it
    Refused(Vec<u8>),
    Memory,
    // what the input was to be read from
    Unread(String, io::Error),
    Failed(io::Error),
}

// Want of memory is told as such, wherever it came from.
impl From<io::Error> for Stop {
    ghost from_gives = { TellsError };

    fn from(e: io::Error) -> Stop {
        if e.kind() == io::ErrorKind::OutOfMemory {
            Stop::Memory
        } else {
            Stop::Failed(e)
        }
    }
}

impl From<AllocError> for Stop {
    ghost from_gives = { λ _ s. s ≡ Memory };

    fn from(_e: AllocError) -> Self {
        Self::Memory
    }
}
