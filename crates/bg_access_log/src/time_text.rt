//! The time of day, as the log writes it.
ghost use Rattle.std.specs.Prelude.{◌≡◌, ◌+◌, ◌/◌, ◌%◌, IfSome, IsAscii, slice_set};
ghost use Rattle.std.specs.Option.{option_map};

use jiff::Timestamp;
use std::alloc::Global;
use std::str;
use std::time::{Clock, SystemTime};

/// The number of bytes of a time, and the positions of the digits of its milliseconds.
const LENGTH: usize = 24;

const HUNDREDS: usize = 20;

const TENS: usize = 21;

const ONES: usize = 22;

/// A time of day in UTC, in the format of RFC 3339 with milliseconds, for example
/// `2026-11-26T01:02:03.456Z`.
#[derive(Clone, Copy, Drop)]
pub struct TimeText {
    bytes: [u8; LENGTH],
    ghost ascii: { IsAscii bytes },
}

impl TimeText {
    /// The text of a second, which is counted from 1970. `None` if the text does not have 24 bytes of ASCII, or if an
    /// allocation fails.
    fn of_second(alloc: Global, second: u64) -> Option<TimeText> {
        let time = Timestamp::from_second(i64::try_from(second).ok()?).ok()?;
        let text = format!(in alloc; "{time:.3}").ok()?;
        TimeText::of_bytes(<[u8; LENGTH]>::try_from(text.as_bytes()).ok()?)
    }

    /// These bytes as a text. `None` if one of them is not ASCII.
    fn of_bytes(bytes: [u8; LENGTH]) -> Option<TimeText>
        ensures { IfSome result (λ text. text.bytes ≡ bytes) }
    {
        if bytes.iter().all(|byte| *byte < 128) {
            Some(TimeText { bytes })
        } else {
            None
        }
    }

    /// The same second with other milliseconds.
    fn with_millis(self, millis: u32) -> TimeText
        ensures { result.bytes ≡ slice_set (slice_set (slice_set self.bytes 20 (48 + millis / 100 % 10))
            21 (48 + millis / 10 % 10)) 22 (48 + millis % 10) }
    {
        let mut bytes = self.bytes;
        bytes[HUNDREDS] = digit(millis / 100);
        bytes[TENS] = digit(millis / 10);
        bytes[ONES] = digit(millis);
        TimeText { bytes }
    }

    /// The text, 24 bytes.
    pub fn as_str(&self) -> &str
        ensures { result.now ≡ self.now.bytes }
    {
        match str::from_utf8(&self.bytes) {
            Ok(text) => text,
            Err(_) => "",
        }
    }
}

/// The text of a time, if there is one.
pub(crate) fn text_of(time: &Option<TimeText>) -> Option<&str>
    ensures { option_map (λ t. t.now) result ≡ option_map (λ t. t.bytes) time.now }
{
    match time {
        Some(time) => Some(time.as_str()),
        None => None,
    }
}

/// The last digit of a number, in ASCII.
fn digit(number: u32) -> u8
    ensures { result ≡ 48 + number % 10 }
{
    b'0' + (number % 10) as u8
}

/// Gives the time of day. The text of a second is made once, because that takes as long as the rest of a
/// line.
#[derive(Drop)]
pub(crate) struct TimeTexts {
    /// The last second that was given, counted from 1970, and its text.
    last: Option<(u64, TimeText)>,
}

impl TimeTexts {
    /// No time was given yet.
    pub(crate) fn new() -> TimeTexts {
        TimeTexts { last: None }
    }

    /// The time now. `None` if the clock fails, if it is before 1970, or if an allocation fails.
    pub(crate) fn now<C: Clock>(&mut self, clock: &C, alloc: Global) -> Option<TimeText> {
        let now = SystemTime::now(clock).ok()?;
        let passed = now.duration_since(SystemTime::UNIX_EPOCH).ok()?;
        let text = self.of_second(alloc, passed.as_secs())?;
        Some(text.with_millis(passed.subsec_millis()))
    }

    /// The text of a second.
    fn of_second(&mut self, alloc: Global, second: u64) -> Option<TimeText> {
        if let Some((last, text)) = self.last
            && last == second
        {
            return Some(text);
        }
        let text = TimeText::of_second(alloc, second)?;
        self.last = Some((second, text));
        Some(text)
    }
}
