ghost use Rattle.std.specs.Prelude.{◌≡◌, ℕ, ◌+◌, ◌*◌, ◌<◌, ◌^◌, IfSome, pos};
ghost use Rattle.std.specs.Option.{SomeIff};
ghost use Rattle.std.specs.Bool.{Decides};
ghost use Rattle.desk_base.specs.Minute.{IsInYears, is_in_years, minute_text};
ghost use Rattle.desk_base.specs.Civil.{IsMinuteAt, civil_text};
ghost use Rattle.jiff_core.specs.declared.civil.date.Date.{Date};

use crate::digits::{digits_of, number_of};
use crate::{Day, Month};
use std::marker::Model;

/// The first minute of the years 2000 to 2099: 2000-01-01 00:00.
pub const YEARS_BEGIN: u64 = 15_778_080;

/// The first minute behind them: 2100-01-01 00:00.
pub const YEARS_END: u64 = 68_374_080;

/// A minute of the desk's one civil time, counted from 1970-01-01 00:00, below 2^28 (in the year 2480).
#[derive(Clone, Copy, Debug, PartialEq, Eq, PartialOrd, Ord, Hash)]
pub struct Minute(u32);

impl Model for Minute {
    ghost use Rattle.std.specs.Prelude.{ℕ, ◌<◌, ◌^◌};

    ghost Value = { ℕ };

    ghost view = { λ m. m.0 };

    ghost invariant = { λ m. m.0 < 2 ^ 28 };

    ghost inverse = { λ n. record { 0 = n } };
}

impl Minute {
    /// The minute of that number; `None` from 2^28 on.
    pub fn new(number: u64) -> Option<Minute>
        ensures { SomeIff result (number < 2 ^ 28) number }
    {
        if number < 1 << 28 {
            Some(Minute(number as u32))
        } else {
            None
        }
    }

    /// 1970-01-01 00:00, before which there is no minute.
    pub const FIRST: Minute = Minute(0);

    /// The minute that comes so many minutes after this one.
    pub fn after(self, minutes: u64) -> Minute
        requires { self + minutes < 2 ^ 28 }
        ensures { result ≡ self + minutes }
    {
        Minute(self.0 + minutes as u32)
    }

    // The first minute of a day.
    pub(crate) fn from_day(day: Day) -> Minute
        ensures { result ≡ 1440 * day }
    {
        Minute(1440 * day.number())
    }

    /// The minutes since 1970-01-01 00:00, below 2^28.
    pub fn number(self) -> u64
        ensures value { result ≡ self }
        ensures range { result < 2 ^ 28 }
    {
        u64::from(self.0)
    }

    /// Whether it lies in the years 2000 to 2099.
    pub fn is_in_years(self) -> bool
        ensures value { result ≡ is_in_years self }
        ensures lies { Decides result (IsInYears self) }
    {
        self.number() >= YEARS_BEGIN && self.number() < YEARS_END
    }

    /// The minute of the text `YYYY-MM-DD HH:MM`, of a real date of the years 2000 to 2099, hours 00 to 23
    /// and minutes 00 to 59; `None` for any other text.
    pub fn read(text: &[u8]) -> Option<Minute>
        ensures some { IfSome result (λ minute.
            IsInYears minute × (text.now ≡ minute_text minute)) }
        ensures only { (minute : ℕ) → IsInYears minute → text.now ≡ minute_text minute
            → result ≡ Some minute }
    {
        let (month, rest) = text.split_at_checked(7)?;
        let [b'-', d1, d2, b' ', h1, h2, b':', p1, p2] = rest else {
            return None;
        };
        let month = Month::read(month)?;
        let day = number_of(*d1, *d2)?;
        let hour = number_of(*h1, *h2)?;
        let past = number_of(*p1, *p2)?;
        if day < 1 || day > month.days() {
            return None;
        }
        if hour > 23 || past > 59 {
            return None;
        }
        let time = 60 * u64::from(hour) + u64::from(past);
        Some(month.first().after(1440 * u64::from(day - 1) + time))
    }

    /// The text `YYYY-MM-DD HH:MM` of the minute: its civil date and time of day.
    pub fn write(self) -> [u8; 16]
        ensures text { result ≡ minute_text self }
        ensures civil { (date : Date) (hour past : ℕ) → IsMinuteAt self date hour past
            → result ≡ civil_text date hour past }
    {
        let day = Day::of(self);
        let month = Month::of_day(day);
        let time = self.0 % 1440;
        let [y1, y2, y3, y4, _, m1, m2] = month.write();
        let [d1, d2] = digits_of(day.in_month(month));
        let [h1, h2] = digits_of((time / 60) as u8);
        let [p1, p2] = digits_of((time % 60) as u8);
        [
            y1, y2, y3, y4, b'-', m1, m2, b'-', d1, d2, b' ', h1, h2, b':', p1, p2,
        ]
    }
}
