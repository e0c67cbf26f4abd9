ghost use Rattle.std.specs.Prelude.{◌≡◌};
ghost use Rattle.std.specs.Option.{SomeIff};
ghost use Rattle.desk_base.specs.Minute.{IsInYears};
ghost use Rattle.kept_desk.specs.Offset.{digits_below};

use desk_base::Minute;

/// How far a civil time is from UTC.
#[derive(Clone, Copy, Debug, PartialEq, Eq)]
pub enum Offset {
    /// It is ahead by so many minutes.
    Ahead(u16),
    /// It is behind by so many minutes.
    Behind(u16),
}

impl Offset {
    ghost use Rattle.kept_desk.specs.Offset.{offset_in, civil_minute};

    /// The offset of the text `+HHMM` or `-HHMM`, of hours 00 to 23 and minutes 00 to 59; `None` for any other text.
    pub fn read(text: &[u8]) -> Option<Offset>
        ensures { result ≡ offset_in text.now }
    {
        let [sign, h1, h2, p1, p2] = text else {
            return None;
        };
        let minutes = 60 * read_below(24, *h1, *h2)? + read_below(60, *p1, *p2)?;
        match *sign {
            b'+' => Some(Offset::Ahead(minutes)),
            b'-' => Some(Offset::Behind(minutes)),
            _ => None,
        }
    }

    /// The civil minute at a number of whole minutes of UTC since 1970; `None` outside the years 2000 to 2099.
    pub fn civil(self, utc: u64) -> Option<Minute>
        ensures { SomeIff result (IsInYears (civil_minute self utc)) (civil_minute self utc) }
    {
        let civil = match self {
            Offset::Ahead(minutes) => utc.saturating_add(u64::from(minutes)),
            Offset::Behind(minutes) => utc.saturating_sub(u64::from(minutes)),
        };
        let minute = Minute::new(civil)?;
        if minute.is_in_years() {
            Some(minute)
        } else {
            None
        }
    }
}

// The number below a limit that two digits spell; `None` for other bytes, and from the limit on.
fn read_below(limit: u16, tens: u8, ones: u8) -> Option<u16>
    ensures { result ≡ digits_below limit tens ones }
{
    if !tens.is_ascii_digit() || !ones.is_ascii_digit() {
        return None;
    }
    let number = 10 * u16::from(tens - b'0') + u16::from(ones - b'0');
    if number < limit { Some(number) } else { None }
}
