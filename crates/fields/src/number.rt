// Numbers of one or two digits.
ghost use Rattle.std.specs.Prelude.{◌≡◌};
ghost use Rattle.fields.specs.Bytes.{number as number_of};

pub(crate) fn number(s: &[u8]) -> Option<u8>
    ensures { result ≡ number_of s.now }
{
    match s {
        [a] if a.is_ascii_digit() => Some(*a - b'0'),
        [a, b] if a.is_ascii_digit() && b.is_ascii_digit() => Some(10 * (*a - b'0') + (*b - b'0')),
        _ => None,
    }
}
