ghost use Rattle.std.specs.Prelude.{◌≡◌, ℕ, ◌<◌, ◌≤◌, pos};
ghost use Rattle.desk_base.specs.Day.{day_of, number_in_month};
ghost use Rattle.desk_base.specs.Month.{IsMonthOf};
ghost use Rattle.desk_base.specs.Civil.{IsMinuteAt, IsDated};
ghost use Rattle.jiff_core.specs.declared.civil.date.Date.{Date};
ghost use Rattle.jiff_core.specs.Date.{epoch_day};

use crate::{Minute, Month};
use std::marker::Model;

/// A civil day, by its number from 1 January 1970, which is 0, up to the day of the last minute.
#[derive(Clone, Copy, Debug, PartialEq, Eq, PartialOrd, Ord, Hash)]
pub struct Day(u32);

impl Model for Day {
    ghost use Rattle.std.specs.Prelude.{ℕ, ◌<◌};

    ghost Value = { ℕ };

    ghost view = { λ d. d.0 };

    ghost invariant = { λ d. d.0 < 186_414 };

    ghost inverse = { λ n. record { 0 = n } };
}

impl Day {
    // The day of that number.
    pub(crate) fn new(number: u32) -> Day
        requires { number < 186_414 }
        ensures { result ≡ number }
    {
        Day(number)
    }

    /// The day of a minute, which is its civil date.
    pub fn of(minute: Minute) -> Day
        ensures value { result ≡ day_of minute }
        ensures dated { IsDated minute }
        ensures civil { (date : Date) (hour past : ℕ) → IsMinuteAt minute date hour past
            → epoch_day date ≡ pos result }
    {
        Day((minute.number() / 1440) as u32)
    }

    // The day's number in its month, from 1.
    pub(crate) fn in_month(self, month: Month) -> u8
        requires { IsMonthOf self month }
        ensures value { result ≡ number_in_month self }
        ensures range { result ≤ 31 }
    {
        (self.0 - month.first_day().0 + 1) as u8
    }

    /// The day's number from 1 January 1970, below 186,414.
    pub fn number(self) -> u32
        ensures value { result ≡ self }
        ensures range { result < 186_414 }
    {
        self.0
    }
}
