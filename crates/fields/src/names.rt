// The names of months and weekdays: their first three letters, in either case.
ghost use Rattle.std.specs.Prelude.{◌≡◌, ◌+◌, ◌<◌, length, map, position};
ghost use Rattle.std.specs.Char.{to_ascii_lowercase};
ghost use Rattle.std.specs.Str.{str_eq_ignore_ascii_case};
ghost use Rattle.fields.specs.Names.{name_in};

pub(crate) const MONTHS: [[u8; 3]; 12] = [
    *b"jan", *b"feb", *b"mar", *b"apr", *b"may", *b"jun", *b"jul", *b"aug", *b"sep", *b"oct",
    *b"nov", *b"dec",
];

pub(crate) const WEEKDAYS: [[u8; 3]; 7] = [
    *b"sun", *b"mon", *b"tue", *b"wed", *b"thu", *b"fri", *b"sat",
];

// The place of the name that a word spells.
fn find_name(names: &[[u8; 3]], word: &[u8]) -> Option<usize>
    ensures { result ≡ position (str_eq_ignore_ascii_case word.now) names.now }
{
    names
        .iter()
        .position(|name| word.eq_ignore_ascii_case(name))
}

// The number of a name in a list that counts from `first`.
pub(crate) fn name_number(names: &[[u8; 3]], first: u8, word: &[u8]) -> Option<u8>
    requires fits { first + length names.now < 256 }
    requires lower { map (map to_ascii_lowercase) names.now ≡ names.now }
    ensures { result ≡ name_in first names.now word.now }
{
    let i = find_name(names, word)?;
    Some(first + i as u8)
}
