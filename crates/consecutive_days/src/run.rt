ghost use Rattle.std.specs.Prelude.{◌≡◌, ◌+◌, ◌<◌, ◌^◌};
ghost use Rattle.duty_events.specs.Lists.{IsLawful};
ghost use Rattle.consecutive_days.specs.Run.{run_days, starts_on, last_start, IsRun, need};
ghost use Rattle.consecutive_days.specs.Steps.{last_day, next_run};

use desk_base::Day;
use duty_events::{Event, Stage};

/// So many days in a row on which tours begin need time off, 49 USC 21103(a)(4)(A).
pub const SIX_DAYS: u32 = 6;

/// The minutes off at home that six days in a row need: 48 hours.
pub const OFF_AFTER_SIX_DAYS: u32 = 2_880;

/// The minutes off at home that seven days in a row need, or more: 72 hours.
pub const OFF_AFTER_SEVEN_DAYS: u32 = 4_320;

/// What the names of the days in a row and of the minutes off behind them stand for. It does nothing: its clauses are the law.
pub fn the_numbers_of_days_in_a_row()
    ensures days { SIX_DAYS ≡ 6 }
    ensures after_six { OFF_AFTER_SIX_DAYS ≡ 2_880 }
    ensures after_seven { OFF_AFTER_SEVEN_DAYS ≡ 4_320 }
{}

/// Days in a row that have a tour's start.
#[derive(Clone, Copy, Debug, PartialEq, Eq)]
pub struct Run {
    /// How many they are.
    pub days: u32,
    /// The number of the last of them, 0 if there is none.
    pub last: u32,
}

/// How many days in a row have a tour's start, back from the day on which the last tour began; 0 without a tour. A tour
/// begins at a ride or duty from off.
pub fn run_days(events: &[Event]) -> u32
    requires { IsLawful events.now }
    ensures value { result ≡ run_days events.now }
    ensures run { IsRun (starts_on events.now) (last_start events.now) result }
{
    last_run(events).days
}

/// The days in a row, to that on which the last tour began.
pub fn last_run(events: &[Event]) -> Run
    requires { IsLawful events.now }
    ensures days { result.days ≡ run_days events.now }
    ensures run { IsRun (starts_on events.now) (last_start events.now) result.days }
    ensures last { result.last ≡ last_day (last_start events.now) }
{
    let mut days = 0;
    let mut last = 0;
    let mut stage = Stage::Off;
    for event in events {
        if stage.begins(event) {
            let day = Day::of(event.first_minute()).number();
            days = next_run(days, last, day);
            last = day;
        }
        stage = stage.after(event);
    }
    Run { days, last }
}

/// How many days in a row there are where a tour begins on a day, after so many up to a last day, which are few.
pub fn next_run(days: u32, last: u32, day: u32) -> u32
    ensures { days + 1 < 2 ^ 32 → result ≡ next_run days last day }
{
    if days > 0 && day == last {
        days
    } else if days > 0 && u64::from(day) == u64::from(last) + 1 {
        days.saturating_add(1)
    } else {
        1
    }
}

/// How many minutes off at home so many days in a row need, 49 USC 21103(a)(4)(A): none for less than six, 48 hours for
/// six, 72 hours for more.
pub fn need(run: u32) -> u32
    ensures { result ≡ need run }
{
    if run < SIX_DAYS {
        0
    } else if run == SIX_DAYS {
        OFF_AFTER_SIX_DAYS
    } else {
        OFF_AFTER_SEVEN_DAYS
    }
}
