ghost use Rattle.std.specs.Prelude.{◌≡◌, ℕ, ◌+◌, ◌≤◌, ◌<◌, IfSome, pos};
ghost use Rattle.std.specs.Option.{SomeIff};
ghost use Rattle.std.specs.Bool.{Decides};
ghost use Rattle.desk_base.specs.Month.{year_of, number_in_year, first_day, first_minute, minutes_of, month_text, IsMonthInYears, IsMonthOf};
ghost use Rattle.desk_base.specs.Minute.{month_of};
ghost use Rattle.desk_base.specs.Civil.{IsMinuteAt, IsMonthAt};
ghost use Rattle.jiff_core.specs.Calendar.{days_in_month};
ghost use Rattle.jiff_core.specs.declared.civil.date.Date.{Date as CivilDate};

use crate::civil::{days_of, first_day_of, month_of};
use crate::digits::{digits_of, number_of};
use crate::{Day, Minute};
use std::marker::Model;

/// January 2000, the first month of the years 2000 to 2099.
pub const MONTHS_BEGIN: u16 = 360;

/// January 2100, the first month behind them.
pub const MONTHS_END: u16 = 1560;

/// A calendar month, by its number from January 1970, which is 0, up to the month of the last minute, May 2480.
#[derive(Clone, Copy, Debug, PartialEq, Eq, PartialOrd, Ord, Hash)]
pub struct Month(u16);

impl Model for Month {
    ghost use Rattle.std.specs.Prelude.{ℕ, ◌≤◌};

    ghost Value = { ℕ };

    ghost view = { λ m. m.0 };

    ghost invariant = { λ m. m.0 ≤ 6124 };

    ghost inverse = { λ n. record { 0 = n } };
}

impl Month {
    /// The month of that number; `None` after May 2480.
    pub fn new(number: u16) -> Option<Month>
        ensures { SomeIff result (number ≤ 6124) number }
    {
        if number <= 6124 {
            Some(Month(number))
        } else {
            None
        }
    }

    /// The months since January 1970, at most 6,124.
    pub fn number(self) -> u16
        ensures value { result ≡ self }
        ensures range { result ≤ 6124 }
    {
        self.0
    }

    /// Whether it is of the years 2000 to 2099.
    pub fn is_in_years(self) -> bool
        ensures { Decides result (IsMonthInYears self) }
    {
        self.0 >= MONTHS_BEGIN && self.0 < MONTHS_END
    }

    // The month that comes so many months after this one.
    pub(crate) fn after(self, months: u8) -> Month
        requires { self + months ≤ 6124 }
        ensures { result ≡ self + months }
    {
        Month(self.0 + u16::from(months))
    }

    /// The month in which a minute lies, which is that of its civil date.
    pub fn of(minute: Minute) -> Month
        ensures value { result ≡ month_of minute }
        ensures begun { first_minute result ≤ minute }
        ensures not_over { minute < first_minute (result + 1) }
        ensures civil { (date : CivilDate) (hour past : ℕ) → IsMinuteAt minute date hour past
            → IsMonthAt result date }
    {
        Month::of_day(Day::of(minute))
    }

    // The month in which a day lies.
    pub(crate) fn of_day(day: Day) -> Month
        ensures { IsMonthOf day result }
    {
        Month(month_of(day.number()))
    }

    /// The month in which a minute lies that isn't before the month `from`. It is told at once where that is the one.
    pub fn of_from(minute: Minute, from: Month) -> Month
        requires { first_minute from ≤ minute }
        ensures value { result ≡ month_of minute }
        ensures begun { first_minute result ≤ minute }
        ensures not_over { minute < first_minute (result + 1) }
    {
        if minute.number() < from.first().number() + u64::from(from.minutes()) {
            from
        } else {
            Month::of(minute)
        }
    }

    // The month's first day.
    pub(crate) fn first_day(self) -> Day
        ensures { result ≡ first_day self }
    {
        Day::new(first_day_of(self.0))
    }

    /// The month's first minute.
    pub fn first(self) -> Minute
        ensures { result ≡ first_minute self }
    {
        Minute::from_day(self.first_day())
    }

    // How many days the month has, 28 to 31.
    pub(crate) fn days(self) -> u8
        ensures value { result ≡ days_in_month (pos (year_of self)) (number_in_year self) }
        ensures next { first_day self + result ≡ first_day (self + 1) }
        ensures most { result ≤ 31 }
    {
        days_of(self.0)
    }

    /// How many minutes the month has, 40,320 to 44,640.
    pub fn minutes(self) -> u32
        ensures value { result ≡ minutes_of self }
        ensures next { first_minute self + result ≡ first_minute (self + 1) }
    {
        1440 * u32::from(self.days())
    }

    /// The month of the text `YYYY-MM`, of the years 2000 to 2099; `None` for any other text.
    pub fn read(text: &[u8]) -> Option<Month>
        ensures some { IfSome result (λ month.
            IsMonthInYears month × (text.now ≡ month_text month)) }
        ensures only { (month : ℕ) → IsMonthInYears month → text.now ≡ month_text month
            → result ≡ Some month }
    {
        let [y1, y2, y3, y4, b'-', m1, m2] = text else {
            return None;
        };
        let century = number_of(*y1, *y2)?;
        let past = number_of(*y3, *y4)?;
        let number = number_of(*m1, *m2)?;
        if century != 20 || number < 1 || number > 12 {
            return None;
        }
        Some(Month(12 * (30 + u16::from(past)) + u16::from(number - 1)))
    }

    /// The text `YYYY-MM` of the month.
    pub fn write(self) -> [u8; 7]
        ensures { result ≡ month_text self }
    {
        let year = 1970 + self.0 / 12;
        let [y1, y2] = digits_of((year / 100) as u8);
        let [y3, y4] = digits_of((year % 100) as u8);
        let [m1, m2] = digits_of((self.0 % 12 + 1) as u8);
        [y1, y2, y3, y4, b'-', m1, m2]
    }
}
