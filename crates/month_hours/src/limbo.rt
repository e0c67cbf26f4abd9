ghost use Rattle.std.specs.Prelude.{◌≡◌, ◌<◌, ◌≤◌, ◌^◌};
ghost use Rattle.duty_events.specs.Lists.{IsLawful};
ghost use Rattle.duty_events.specs.Tours.{tour_minutes_between};
ghost use Rattle.month_hours.specs.Capped.{capped};
ghost use Rattle.month_hours.specs.Steps.{capped_between, sum_after};
ghost use Rattle.desk_base.specs.Month.{minutes_of};

use desk_base::Month;
use duty_events::{DUTY_LIMIT, Event, MinuteKind, Stage, between, shared};

/// How many limbo minutes of the month, of a lawful list of events, have twelve hours at least of on-duty and limbo minutes
/// of their tour before them, 49 USC 21103(c)(1).
pub fn capped(events: &[Event], month: Month) -> u32
    requires { IsLawful events.now }
    ensures value { result ≡ capped events.now month }
    ensures most { result ≤ minutes_of month }
{
    let first = month.first().number();
    let many = month.minutes();
    let mut total = 0;
    let mut sum = 0;
    let mut stage = Stage::Off;
    let mut before = None;
    for event in events {
        total += capped_between(&before, event, sum, first, many);
        sum = sum_after(&stage, &before, event, sum);
        stage = stage.after(event);
        before = Some(*event);
    }
    total
}

// How many limbo minutes between two events have twelve hours of their tour before them, which has summed so many up to
// the first of the two.
fn capped_between(before: &Option<Event>, event: &Event, sum: u64, first: u64, many: u32) -> u32
    requires { first < 2 ^ 28 }
    ensures { result ≡ capped_between before.now event.now sum first many }
{
    let Some(before) = before else {
        return 0;
    };
    if !matches!(between(before, event), MinuteKind::Limbo) {
        return 0;
    }
    let from = before.last_minute().number() + u64::from(DUTY_LIMIT).saturating_sub(sum);
    shared(from, event.first_minute().number(), first, many)
}

// The on-duty and limbo minutes of the last tour up to an event that comes at a stage; none where one begins there.
fn sum_after(stage: &Stage, before: &Option<Event>, event: &Event, sum: u64) -> u64
    requires { sum < 2 ^ 28 }
    ensures { result ≡ sum_after stage.now before.now event.now sum }
{
    if stage.begins(event) {
        return 0;
    }
    sum + tour_minutes_between(before, event)
}

// How many minutes between two events are on duty or limbo.
fn tour_minutes_between(before: &Option<Event>, event: &Event) -> u64
    ensures value { result ≡ tour_minutes_between before.now event.now }
    ensures range { result < 2 ^ 28 }
{
    let Some(before) = before else {
        return 0;
    };
    if !between(before, event).is_in_tour() {
        return 0;
    }
    event
        .first_minute()
        .number()
        .saturating_sub(before.last_minute().number())
}
