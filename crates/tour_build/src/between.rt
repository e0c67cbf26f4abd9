//! The minutes up to the next event that are asked about, as an interval, by the stage and the latest minute so far.
ghost use Rattle.std.specs.Prelude.{◌≡◌, ◌<◌, ℕ, IfSome};
ghost use Rattle.desk_base.specs.declared.minute.TheConstants.{YEARS_END};
ghost use Rattle.duty_events.specs.MinuteKind.{is_worked};
ghost use Rattle.duty_events.specs.Minutes.{shared};
ghost use Rattle.duty_events.specs.Tours.{is_in_tour};
ghost use Rattle.month_hours.specs.Capped.{is_limbo};
ghost use Rattle.tour_build.specs.During.{minutes_until, minutes_during, capped_during};
ghost use Rattle.tour_build.specs.LastTour.{is_on_duty};

use crate::Interval;
use desk_base::Minute;
use duty_events::{DUTY_LIMIT, Event, MinuteKind, Stage, kind_during};

/// Those on duty.
pub(crate) fn on_duty_between(stage: &Stage, last: &Option<Minute>, event: &Event) -> Interval
    ensures { (first many : ℕ) → shared result.from result.to first many
        ≡ minutes_during is_on_duty stage.now last.now event.now first many }
{
    until(
        matches!(kind_during(stage, event), MinuteKind::OnDuty),
        last,
        event,
    )
}

/// Those in limbo.
pub(crate) fn limbo_between(stage: &Stage, last: &Option<Minute>, event: &Event) -> Interval
    ensures { (first many : ℕ) → shared result.from result.to first many
        ≡ minutes_during is_limbo stage.now last.now event.now first many }
{
    until(
        matches!(kind_during(stage, event), MinuteKind::Limbo),
        last,
        event,
    )
}

/// Those on duty or in limbo.
pub fn tour_between(stage: &Stage, last: &Option<Minute>, event: &Event) -> Interval
    ensures { (first many : ℕ) → shared result.from result.to first many
        ≡ minutes_during is_in_tour stage.now last.now event.now first many }
{
    until(kind_during(stage, event).is_in_tour(), last, event)
}

/// Those worked: on duty, in limbo or other service.
pub fn worked_between(stage: &Stage, last: &Option<Minute>, event: &Event) -> Interval
    ensures { (first many : ℕ) → shared result.from result.to first many
        ≡ minutes_during is_worked stage.now last.now event.now first many }
{
    until(kind_during(stage, event).is_worked(), last, event)
}

/// Those in limbo that come when their tour, which had so many minutes on duty and in limbo up to the latest minute, has
/// twelve hours, 49 USC 21103(c)(1).
pub fn capped_between(stage: &Stage, last: &Option<Minute>, event: &Event, sum: u64) -> Interval
    requires { IfSome last.now (λ minute. minute < YEARS_END) }
    ensures { (first many : ℕ) → shared result.from result.to first many
        ≡ capped_during stage.now last.now event.now sum first many }
{
    match last {
        Some(last) if matches!(kind_during(stage, event), MinuteKind::Limbo) => Interval {
            from: last.after(u64::from(DUTY_LIMIT).saturating_sub(sum)),
            to: event.first_minute(),
        },
        _ => Interval::NONE,
    }
}

// All of them, where they are asked about.
fn until(are_asked: bool, last: &Option<Minute>, event: &Event) -> Interval
    ensures { (first many : ℕ) → shared result.from result.to first many
        ≡ minutes_until are_asked last.now event.now first many }
{
    match last {
        Some(last) if are_asked => Interval {
            from: *last,
            to: event.first_minute(),
        },
        _ => Interval::NONE,
    }
}
