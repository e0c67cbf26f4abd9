ghost use Rattle.std.specs.Prelude.{◌≡◌, ◌-◌};
ghost use Rattle.duty_events.specs.Allowed.{first_minute};
ghost use Rattle.duty_events.specs.MinuteKind.{resumed, interim, first_leads};
ghost use Rattle.duty_events.specs.Between.{between, kind_until, kind_behind};
ghost use Rattle.duty_events.specs.During.{kind_during};

use crate::{Event, Kind, MinuteKind, OFF_DUTY_INTERIM, Stage};
use desk_base::Minute;

/// What the minutes from an event to the next count as, by 49 USC 21103(b).
pub fn between(event: &Event, next: &Event) -> MinuteKind
    ensures { result ≡ between event.now next.now }
{
    match event {
        Event::Ride(_) | Event::Duty(_) | Event::Resume(_) => MinuteKind::OnDuty,
        Event::Relieve(_) | Event::RideHome(_) => MinuteKind::Limbo,
        Event::Final(_, _) | Event::Other(_, _) => MinuteKind::Off,
        Event::Interim(since, kind, _) => interim(*since, kind, next),
    }
}

/// What the minutes before an event count as that come behind the event before it; those before the first event are
/// off.
pub fn kind_until(before: &Option<Event>, next: &Event) -> MinuteKind
    ensures { result ≡ kind_until before.now next.now }
{
    match before {
        Some(event) => between(event, next),
        None => MinuteKind::Off,
    }
}

/// What the minutes behind the last event count as: off, but for those of an interim that has not ended.
pub fn kind_behind(last: &Option<Event>) -> MinuteKind
    ensures { result ≡ kind_behind last.now }
{
    match last {
        Some(Event::Interim(_, _, _)) => MinuteKind::Open,
        _ => MinuteKind::Off,
    }
}

/// What the minutes up to an event count as that comes at a stage, behind the latest minute.
pub fn kind_during(stage: &Stage, next: &Event) -> MinuteKind
    ensures { result ≡ kind_during stage.now next.now }
{
    match stage {
        Stage::Off => MinuteKind::Off,
        Stage::Riding | Stage::Duty => MinuteKind::OnDuty,
        Stage::Interim { kind, since, .. } => interim(*since, kind, next),
        Stage::Waiting | Stage::RidingHome => MinuteKind::Limbo,
    }
}

// What an interim counts as that ends with this event.
fn interim(since: Minute, kind: &Kind, next: &Event) -> MinuteKind
    ensures { result ≡ interim kind.now (first_minute next.now - since) (first_leads next.now) }
{
    match next {
        Event::Resume(at) => resumed(kind, at.number().saturating_sub(since.number())),
        _ => MinuteKind::Off,
    }
}

// What an interim of so many minutes counts as that ends with a resume.
fn resumed(kind: &Kind, minutes: u64) -> MinuteKind
    ensures { result ≡ resumed kind.now minutes }
{
    match kind {
        Kind::O => MinuteKind::OnDuty,
        Kind::D | Kind::P if minutes < OFF_DUTY_INTERIM => MinuteKind::OnDuty,
        Kind::D | Kind::P => MinuteKind::Off,
    }
}
