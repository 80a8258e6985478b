// Bytes of a text: which kinds there are, and where the next one of a kind stands.
#![tactic(auto)]

ghost use Rattle.std.specs.Prelude.{◌≡◌, ◌+◌, ◌≤◌, length, drop, position};
ghost use Rattle.scan.specs.Scan.{before_first, is};

// A kind of byte. An enum and no closure: the definitions name the kinds too.
#[derive(Clone, Copy, PartialEq, Eq, Debug)]
pub enum Kind {
    // this byte alone
    Byte(u8),
    // space or tab
    Blank,
    // neither
    Other,
    // a control byte, but for the tab
    Forbidden,
}

impl Kind {
    // Is `x` of this kind?
    pub fn has(self, x: u8) -> bool
        ensures { result ≡ is self x }
    {
        match self {
            Kind::Byte(b) => x == b,
            Kind::Blank => x == b' ' || x == b'\t',
            Kind::Other => x != b' ' && x != b'\t',
            Kind::Forbidden => x < 32 && x != b'\t',
        }
    }
}

// The place of the first byte of a kind, if there is one.
pub fn find(s: &[u8], kind: Kind) -> Option<usize>
    ensures { result ≡ position (is kind) s.now }
{
    s.iter().position(|x| kind.has(*x))
}

// The place of the first byte of a kind at or after `from`, or the text's end. No Option: a line's last word ends
// there, and so does a file's last line. For what may be missing there is find.
pub fn scan(s: &[u8], from: usize, kind: Kind) -> usize
    ensures value { result ≡ from + before_first (is kind) (drop from s.now) }
    ensures bound { from ≤ length s.now → result ≤ length s.now }
    ensures low { from ≤ result }
{
    match s.get(from..) {
        Some(rest) => from + find(rest, kind).unwrap_or(rest.len()),
        None => from,
    }
}
