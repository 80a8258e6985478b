// Why a disk was not made.
ghost use Rattle.std.specs.Prelude.{◌≡◌};
ghost use Rattle.disks.specs.Refusal.{code_of};
ghost use Rattle.disks.specs.declared.refusal.Unmade.TheVariants.{NoMemory};

use refusal_code::Code;
use std::alloc::AllocError;

#[derive(Clone, Copy, Debug, PartialEq, Eq)]
pub enum Refusal {
    // a disk of this many blocks
    BlockCount(usize),
}

#[derive(Clone, Copy, Debug, PartialEq, Eq)]
pub enum Unmade {
    Refused(Refusal),
    // not a refusal, so it has no number
    NoMemory,
}

impl From<AllocError> for Unmade {
    ghost from_gives = { λ _ e. e ≡ NoMemory };

    fn from(_e: AllocError) -> Unmade {
        Unmade::NoMemory
    }
}

impl Refusal {
    // The refusal by its number, with the count.
    pub fn code(self) -> Code
        ensures { result ≡ code_of self }
    {
        match self {
            Refusal::BlockCount(count) => Code {
                number: 14,
                beside: count,
            },
        }
    }
}
