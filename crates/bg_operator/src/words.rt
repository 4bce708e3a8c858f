//! The words of a line, and words that are numbers.
ghost use Rattle.std.specs.Prelude.{◌≡◌, ◌∷◌, [], false, ◌==◌, length, MatchResult};
ghost use Rattle.std.specs.Char.{is_ascii_digit};
ghost use Rattle.std.specs.List.{list_all};
ghost use Rattle.std.specs.Iterator.{YieldsFirstRef, item_count};
ghost use Rattle.bg_operator.specs.Words.{number_reading, words_of, words_ahead};
ghost use Rattle.bg_operator.specs.declared.line_fault.LineFault.TheVariants as line_fault;

use crate::line_fault::LineFault;

/// The maximum number of digits of a number.
const MOST_DIGITS: usize = 20;

/// The remaining words of a line. Words are separated by one or more spaces, and spaces at both
/// ends are ignored.
#[derive(Clone, Copy, Drop)]
pub struct Words<'a> {
    rest: &'a str,
}

impl<'a> Words<'a> {
    /// All words of the line.
    pub fn new(line: &'a str) -> Words<'a>
        ensures { words_ahead result ≡ words_of line.now }
    {
        Words { rest: line }
    }
}

impl<'a> Iterator for Words<'a> {
    type Item = &'a str;

    ghost next_gives = { YieldsFirstRef words_ahead };

    ghost remaining = { item_count words_ahead };

    fn next(&mut self) -> Option<&'a str> {
        while let Some((word, rest)) = self.rest.split_once(' ') {
            self.rest = rest;
            if !word.is_empty() {
                return Some(word);
            }
        }
        let last = self.rest;
        self.rest = "";
        if last.is_empty() { None } else { Some(last) }
    }
}

/// Whether no word is left.
pub fn is_at_end(mut words: Words) -> bool
    ensures { result ≡ (length (words_ahead words.entry) == 0) }
{
    words.next().is_none()
}

/// `WrongCount` if a word is left.
pub fn end(mut words: Words) -> Result<(), LineFault>
    ensures { MatchResult result (λ _. words_ahead words.entry ≡ [])
        (λ fault. ((length (words_ahead words.entry) == 0) ≡ false)
        × (fault ≡ line_fault.WrongCount)) }
{
    match words.next() {
        None => Ok(()),
        Some(_) => Err(LineFault::WrongCount),
    }
}

/// The only word that is left. `WrongCount` if there is none, or more than one.
pub fn one(mut words: Words<'_>) -> Result<&str, LineFault>
    ensures { MatchResult result (λ word. words_ahead words.entry ≡ word.now ∷ [])
        (λ fault. ((length (words_ahead words.entry) == 1) ≡ false)
        × (fault ≡ line_fault.WrongCount)) }
{
    let word = words.next().ok_or(LineFault::WrongCount)?;
    end(words)?;
    Ok(word)
}

/// The two words that are left. `WrongCount` if there are fewer or more.
pub fn two(mut words: Words<'_>) -> Result<(&str, &str), LineFault>
    ensures { MatchResult result (λ p. words_ahead words.entry ≡ p.0.now ∷ p.1.now ∷ [])
        (λ fault. ((length (words_ahead words.entry) == 2) ≡ false)
        × (fault ≡ line_fault.WrongCount)) }
{
    let first = words.next().ok_or(LineFault::WrongCount)?;
    Ok((first, one(words)?))
}

/// Parses a word as a number: 1 to 20 digits whose value is below 2^64. Any other word is
/// `BadNumber`.
pub fn long_number(word: &str) -> Result<u64, LineFault>
    ensures { result ≡ number_reading 64 word.now }
{
    if word.len() > MOST_DIGITS || !has_digits_only(word) {
        return Err(LineFault::BadNumber);
    }
    word.parse::<u64>().map_err(|_| LineFault::BadNumber)
}

/// Parses a word as a number below 2^32. Any other word is `BadNumber`.
pub fn number(word: &str) -> Result<u32, LineFault>
    ensures { result ≡ number_reading 32 word.now }
{
    u32::try_from(long_number(word)?).map_err(|_| LineFault::BadNumber)
}

/// Parses a word as a number below 2^16. Any other word is `BadNumber`.
pub fn short_number(word: &str) -> Result<u16, LineFault>
    ensures { result ≡ number_reading 16 word.now }
{
    u16::try_from(long_number(word)?).map_err(|_| LineFault::BadNumber)
}

fn has_digits_only(word: &str) -> bool
    ensures { result ≡ list_all is_ascii_digit word.now }
{
    word.as_bytes().iter().all(|byte| byte.is_ascii_digit())
}
