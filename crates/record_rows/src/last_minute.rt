//! A minute that was read or written last.
ghost use Rattle.std.specs.Prelude.{◌≡◌, ◌<◌, ◌+◌, ℕ, IfSome, IsTrue, take, drop};
ghost use Rattle.std.specs.Int.{w64, from_le_bytes};
ghost use Rattle.desk_base.specs.Minute.{IsInYears, minute_text, time_text};

use desk_base::Minute;

// How many bytes the text of a minute has.
const TEXT_BYTES: usize = 16;

/// The minute that was read or written last, and its text: many records and lines in a row name one minute, or one day.
#[derive(Clone, Copy)]
pub struct LastMinute {
    minute: Minute,
    text: [u8; TEXT_BYTES],
    ghost is: { text ≡ minute_text minute },
}

// The first eight bytes as one number.
fn front(text: &[u8; TEXT_BYTES]) -> u64
    ensures { result ≡ from_le_bytes w64 (take 8 text.now) }
{
    let [a, b, c, d, e, f, g, h, ..] = *text;
    u64::from_le_bytes([a, b, c, d, e, f, g, h])
}

// The last eight bytes as one number.
fn back(text: &[u8; TEXT_BYTES]) -> u64
    ensures { result ≡ from_le_bytes w64 (drop 8 text.now) }
{
    let [.., a, b, c, d, e, f, g, h] = *text;
    u64::from_le_bytes([a, b, c, d, e, f, g, h])
}

// Whether two texts are the same.
fn are_same(one: &[u8; TEXT_BYTES], other: &[u8; TEXT_BYTES]) -> bool
    ensures { IsTrue result → one.now ≡ other.now }
{
    if front(one) != front(other) {
        return false;
    }
    back(one) == back(other)
}

// Whether two texts have the same `YYYY-MM-DD` and the same byte behind it.
fn have_same_day(one: &[u8; TEXT_BYTES], other: &[u8; TEXT_BYTES]) -> bool
    ensures { IsTrue result → take 11 one.now ≡ take 11 other.now }
{
    if front(one) != front(other) || one[8] != other[8] || one[9] != other[9] {
        return false;
    }
    one[10] == other[10]
}

// The number of a decimal digit.
fn number_of(digit: u8) -> Option<u64>
    ensures { IfSome result (λ number. (number < 10) × (digit ≡ 48 + number)) }
{
    if digit.is_ascii_digit() {
        Some(u64::from(digit - b'0'))
    } else {
        None
    }
}

// The minute of the day that stands behind the day of a text, as `HH:MM`; `None` where none does.
fn time_of(text: &[u8; TEXT_BYTES]) -> Option<u64>
    ensures { IfSome result (λ time. (time < 1440) × (drop 11 text.now ≡ time_text time)) }
{
    let [.., h1, h2, b':', p1, p2] = *text else {
        return None;
    };
    let hour = 10 * number_of(h1)? + number_of(h2)?;
    let past = 10 * number_of(p1)? + number_of(p2)?;
    if hour < 24 && past < 60 {
        Some(60 * hour + past)
    } else {
        None
    }
}

impl LastMinute {
    /// None yet.
    pub fn new() -> LastMinute {
        LastMinute {
            minute: Minute::FIRST,
            text: Minute::FIRST.write(),
        }
    }

    // Takes this minute as the last.
    fn take(&mut self, minute: Minute)
        ensures { self.new.minute ≡ minute }
    {
        if self.minute != minute {
            *self = LastMinute {
                minute,
                text: minute.write(),
            };
        }
    }

    // The minute of a text that names the day of the last one; it may be `None` for any text.
    fn of_same_day(&self, text: &[u8; TEXT_BYTES]) -> Option<Minute>
        ensures { IfSome result (λ minute. IsInYears minute × (text.now ≡ minute_text minute)) }
    {
        if !self.minute.is_in_years() || !have_same_day(text, &self.text) {
            return None;
        }
        if are_same(text, &self.text) {
            return Some(self.minute);
        }
        let time = time_of(text)?;
        let last = self.minute.number();
        Minute::new(last - last % 1_440 + time)
    }

    /// The minute of the text `YYYY-MM-DD HH:MM`, of a real date of the years 2000 to 2099, hours 00 to 23 and minutes 00 to 59;
    /// `None` for any other text. It takes less time for one of the day of the last minute.
    pub fn read_beside(&self, text: &[u8]) -> Option<Minute>
        ensures some { IfSome result (λ minute. IsInYears minute × (text.now ≡ minute_text minute)) }
        ensures only { (minute : ℕ) → IsInYears minute → text.now ≡ minute_text minute → result ≡ Some minute }
    {
        match text.first_chunk() {
            Some(chunk) if text.len() == TEXT_BYTES => match self.of_same_day(chunk) {
                Some(minute) => Some(minute),
                None => Minute::read(text),
            },
            _ => None,
        }
    }

    /// The minute of a text, as `read_beside` has it, which is the last from then on.
    pub fn read(&mut self, text: &[u8]) -> Option<Minute>
        ensures some { IfSome result (λ minute. IsInYears minute × (text.now ≡ minute_text minute)) }
        ensures only { (minute : ℕ) → IsInYears minute → text.now ≡ minute_text minute → result ≡ Some minute }
    {
        let minute = self.read_beside(text)?;
        if let Some(text) = text.first_chunk() {
            *self = LastMinute {
                minute,
                text: *text,
            };
        }
        Some(minute)
    }

    /// Takes over what is kept of this minute elsewhere, where it is kept there alone.
    pub fn follow(&mut self, other: &LastMinute, minute: Minute) {
        if self.minute != minute && other.minute == minute {
            *self = *other;
        }
    }

    /// Whether a text is that of the minute.
    pub fn is_text_of(&mut self, minute: Minute, text: &[u8; 16]) -> bool
        ensures { IsTrue result → text.now ≡ minute_text minute }
    {
        self.take(minute);
        are_same(text, &self.text)
    }

    /// The text `YYYY-MM-DD HH:MM` of the minute: its civil date and time of day.
    pub fn write(&mut self, minute: Minute) -> [u8; 16]
        ensures { result ≡ minute_text minute }
    {
        self.take(minute);
        self.text
    }
}
