// Positions in their order: by minute, then by line.
ghost use Rattle.std.specs.Prelude.{◌≡◌, ◌+◌, ◌*◌, ◌^◌, ◌≤◌, MatchOption, nat_lt};
ghost use Rattle.time.specs.Limits.{lines};
ghost use Rattle.time.specs.Position.{rank};

use crate::limits::LINES;
use crate::minute::Minute;
use crate::position::Position;

impl Position {
    // The position of a line of a minute, if a minute has such a line.
    pub fn new(minute: Minute, line: u8) -> Option<Position>
        ensures { MatchOption result (lines ≤ line) (λ p. (p.minute ≡ minute) × (p.line ≡ line)) }
    {
        if line >= LINES {
            return None;
        }
        Some(Position { minute, line })
    }

    // The first position of a minute.
    pub fn start_of(minute: Minute) -> Position
        ensures minute { result.minute ≡ minute }
        ensures line { result.line ≡ 0 }
    {
        Position { minute, line: 0 }
    }

    // The place of the position in their order.
    pub fn rank(self) -> u64
        ensures { result ≡ rank self }
    {
        u64::from(self.minute.count()) * u64::from(LINES) + u64::from(self.line)
    }

    pub fn is_before(self, other: Position) -> bool
        ensures { result ≡ nat_lt (rank self) (rank other) }
    {
        self < other
    }

    // The next position; none after the last line of the last minute that can be counted.
    pub fn successor(self) -> Option<Position>
        ensures { MatchOption result (rank self + 1 ≡ lines * 2 ^ 32) (λ p. rank p ≡ rank self + 1) }
    {
        if self.line < LINES - 1 {
            return Some(Position {
                minute: self.minute,
                line: self.line + 1,
            });
        }
        let next = self.minute.count().checked_add(1)?;
        Some(Position::start_of(Minute::new(next)))
    }
}
