//! The words of a line, and words that are numbers.
ghost use Rattle.std.specs.Prelude.{◌≡◌, option_map};
ghost use Rattle.std.specs.Char.{is_ascii_digit};
ghost use Rattle.std.specs.List.{list_all};
ghost use Rattle.std.specs.Option.{option_copied};
ghost use Rattle.std.specs.Iterator.{YieldsFirstRef, item_count};
ghost use Rattle.bg_journal.specs.Words.{both, number_in, only as only_of, words_of, words_ahead};

/// The maximum number of digits of a number.
const MOST_DIGITS: usize = 20;

/// The remaining words of a line. Each space ends a word.
#[derive(Clone, Copy, Drop)]
pub struct Words<'a> {
    rest: Option<&'a str>,
}

impl<'a> Words<'a> {
    /// All words of the line.
    pub fn new(line: &'a str) -> Words<'a>
        ensures { words_ahead result ≡ words_of line.now }
    {
        Words { rest: Some(line) }
    }
}

impl<'a> Iterator for Words<'a> {
    type Item = &'a str;

    ghost next_gives = { YieldsFirstRef words_ahead };

    ghost remaining = { item_count words_ahead };

    fn next(&mut self) -> Option<&'a str> {
        let rest = self.rest?;
        match rest.split_once(' ') {
            Some((word, after)) => {
                self.rest = Some(after);
                Some(word)
            }
            None => {
                self.rest = None;
                Some(rest)
            }
        }
    }
}

/// The word that is left, if it is the only one.
pub fn only(mut words: Words<'_>) -> Option<&str>
    ensures { option_copied result ≡ only_of (words_ahead words.entry) }
{
    let word = words.next()?;
    match words.next() {
        None => Some(word),
        Some(_) => None,
    }
}

/// The first of two words that are left, and the second.
pub fn pair(mut words: Words<'_>) -> Option<(&str, &str)>
    ensures { option_map (λ p. (p.0.now, p.1.now)) result ≡ both (words_ahead words.entry) }
{
    let first = words.next()?;
    Some((first, only(words)?))
}

/// The number of a word of 1 to 20 digits, if it is below 2^64.
pub fn long_number(word: &str) -> Option<u64>
    ensures { result ≡ number_in 64 word.now }
{
    if word.len() > MOST_DIGITS || !has_digits_only(word) {
        return None;
    }
    word.parse::<u64>().ok()
}

/// The number of a word, if it is below 2^32.
pub fn number(word: &str) -> Option<u32>
    ensures { result ≡ number_in 32 word.now }
{
    u32::try_from(long_number(word)?).ok()
}

/// The number of a word, if it is below 2^16.
pub fn short_number(word: &str) -> Option<u16>
    ensures { result ≡ number_in 16 word.now }
{
    u16::try_from(long_number(word)?).ok()
}

fn has_digits_only(word: &str) -> bool
    ensures { result ≡ list_all is_ascii_digit word.now }
{
    word.as_bytes().iter().all(|byte| byte.is_ascii_digit())
}
