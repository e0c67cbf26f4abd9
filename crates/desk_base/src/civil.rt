//! Days and months of the civil calendar, by numbers: day 0 is 1 January 1970, and month 0 its January.
ghost use Rattle.std.specs.Prelude.{◌≡◌, ◌≤◌, ◌<◌, pos};
ghost use Rattle.jiff_core.specs.Date.{IsYmd};
ghost use Rattle.jiff_core.specs.Calendar.{days_in_month};
ghost use Rattle.desk_base.specs.Month.{first_day, year_of, number_in_year, IsMonthOf};

use jiff::civil::{Date, date};

// The first date of that month.
fn first_of(month: u16) -> Date
    requires { month ≤ 6125 }
    ensures { IsYmd (pos (year_of month)) (pos (number_in_year month)) (pos 1) result }
{
    date((1970 + month / 12) as i16, (month % 12 + 1) as i8, 1)
}

/// How many days the month has, 28 to 31.
pub(crate) fn days_of(month: u16) -> u8
    requires { month ≤ 6125 }
    ensures { result ≡ days_in_month (pos (year_of month)) (number_in_year month) }
{
    match month % 12 + 1 {
        2 => first_of(month).days_in_month() as u8,
        4 | 6 | 9 | 11 => 30,
        _ => 31,
    }
}

/// The first day of that month. Years are counted from March on here, 0 for March 1969 to February 1970, so that a leap day is the
/// last of its year, and the months before one are as long in each year.
pub(crate) fn first_day_of(month: u16) -> u32
    requires { month ≤ 6125 }
    ensures { result ≡ first_day month }
{
    let months = u32::from(month) + 10;
    let years = months / 12;
    let leap_days = (years + 1) / 4 - (years + 69) / 100 + (years + 369) / 400;
    365 * years + leap_days + (153 * (months % 12) + 2) / 5 - 306
}

/// The month of that day. 4,800 months have 146,097 days, and each begins less than five days from where it would if all were as long:
/// so it is the month that this gives for five days later, or the one before.
pub(crate) fn month_of(day: u32) -> u16
    requires { day < 186_414 }
    ensures { IsMonthOf day result }
{
    let near = ((day + 5) * 4_800 / 146_097) as u16;
    if day < first_day_of(near) {
        near - 1
    } else {
        near
    }
}
