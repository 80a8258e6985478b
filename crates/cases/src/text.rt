// The parts of a case.
ghost use Rattle.std.specs.Prelude.{◌≡◌, Err, MatchOption, MatchResult, None, Ok, false, true};
ghost use Rattle.std.specs.Str.Pattern.{FindsText, SplitsAroundMatch};
ghost use Rattle.cases.specs.Digits.{has_capital};
ghost use Rattle.std.specs.declared.io.ErrorKind.TheVariants.{InvalidData};
ghost use Rattle.std.specs.IoError.{error_kind};

use std::io;
use std::str::FromStr;

// What is told of a case that is not written as it has to be.
pub(crate) const UNWRITTEN: &str = "a case is not written as it should be";

// The same where a case is written in hexadecimal.
pub const NOT_HEX: &str = "a case is not written as HEX -> ANSWER";

// A case that is not written as it has to be.
pub fn malformed(form: &str) -> io::Error
    ensures { error_kind result ≡ InvalidData }
{
    io::Error::new(io::ErrorKind::InvalidData, form)
}

// A part of a case that is not written as it has to be.
pub fn unwritten() -> io::Error
    ensures { error_kind result ≡ InvalidData }
{
    malformed(UNWRITTEN)
}

// What stands before and after the first `mark`.
pub fn parted<'a>(text: &'a str, mark: &str) -> io::Result<(&'a str, &'a str)>
    ensures { MatchResult result
        (λ p. SplitsAroundMatch (FindsText mark.now) text.now p.0.now p.1.now)
        (λ e. (error_kind e ≡ InvalidData) × FindsText mark.now text.now None) }
{
    text.split_once(mark).ok_or_else(unwritten)
}

// A number of a case.
pub fn parsed<T: FromStr>(text: &str) -> io::Result<T>
where
    <T as FromStr>::Err: Drop,
    ensures { MatchResult result
        (λ x. T.from_str_gives text.now (Ok x))
        (λ e. (error_kind e ≡ InvalidData) × (f : T.Err) × T.from_str_gives text.now (Err f)) }
{
    text.parse::<T>().map_err(|_| unwritten())
}

// Does a letter from A to Z stand in it?
fn has_capital(text: &[u8]) -> bool
    ensures { result ≡ has_capital text.now }
{
    // By fold, and no any: with no way out between two bytes many of them are tested at a time.
    text.iter()
        .fold(false, |found, b| found | b.is_ascii_uppercase())
}

// Digits in which no capital letter stands: the library that reads hexadecimal would take them.
pub fn without_capitals(digits: &str) -> Option<&str>
    ensures { MatchOption result
        (has_capital digits.now ≡ true)
        (λ d. (d.now ≡ digits.now) × (has_capital digits.now ≡ false)) }
{
    (!has_capital(digits.as_bytes())).then_some(digits)
}
