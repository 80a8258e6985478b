// What a zone is.
ghost use Rattle.std.specs.Prelude.{◌≡◌, ℕ, ℤ};
ghost use Rattle.zone.specs.Answers.{NextAnswer, offset_answer};
ghost use Rattle.zone.specs.Offsets.{Law};

use crate::refusal::Refusal;
use time::Minute;

// Local time: an offset for each minute of which zones tell.
pub trait Zone {
    // the offset at each minute
    ghost offsets: { Self → ℕ → ℤ };

    // Does nothing: its contract is the law that every zone owes.
    // A method, and no ghost law: the proof of a ghost law has to stand in specs/, and these proofs are long.
    fn lawful(&self)
        ensures { Law (offsets self.now) };

    // By how many minutes the local clock is ahead at minute `u`.
    fn offset_at(&self, u: Minute) -> Result<i32, Refusal>
        ensures { result ≡ offset_answer (offsets self.now) u };

    // The first minute after `u` at which the offset changes, if there is one.
    fn next_change(&self, u: Minute) -> Result<Option<Minute>, Refusal>
        ensures { NextAnswer (offsets self.now) u result };
}
