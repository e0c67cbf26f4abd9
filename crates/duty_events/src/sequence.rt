ghost use Rattle.std.specs.Prelude.{◌≡◌, ◌-◌};
ghost use Rattle.std.specs.Str.{bytes_eq};
ghost use Rattle.duty_events.specs.Lists.{stage_of};
ghost use Rattle.duty_events.specs.Allowed.{row, is_limited, behind, too_long, other_place, interim_fault, allow};

use crate::{Event, EventFault, INTERIM_LIMIT, Kind, Stage};
use desk_base::{Code, Minute};

/// The stage that an event leads to after events that ended in a stage, or why it is not allowed. `last` is the latest
/// minute of the events so far. The refusals, in order: `WrongStage` where nothing of that kind follows the stage;
/// `Behind` where it begins before `last`; `InterimTooLong` where it resumes `INTERIM_LIMIT` minutes or more after an interim of
/// kind `D` or `P`; `OtherPlace` where it is a final release during an interim and names another place.
pub fn allowed(stage: Stage, event: Event, last: Option<Minute>) -> Result<Stage, EventFault>
    ensures { result ≡ allow stage event last }
{
    let Some(next) = row(&stage, &event) else {
        return Err(EventFault::WrongStage(stage));
    };
    if let Some(last) = &last {
        if event.first_minute() < *last {
            return Err(EventFault::Behind(*last));
        }
    }
    match interim_fault(&stage, &event) {
        Some(fault) => Err(fault),
        None => Ok(next),
    }
}

/// The stage that a list of events ends in.
pub fn stage_of(events: &[Event]) -> Stage
    ensures { result ≡ stage_of events.now }
{
    let mut stage = Stage::Off;
    for event in events {
        stage = stage.after(event);
    }
    stage
}

/// The table of stages: the stage that an event leads to; `None` where nothing of that kind follows the stage.
pub(crate) fn row(stage: &Stage, event: &Event) -> Option<Stage>
    ensures { result ≡ row stage.now event.now }
{
    match (stage, event) {
        (Stage::Off, Event::Ride(_)) => Some(Stage::Riding),
        (Stage::Off | Stage::Riding, Event::Duty(_)) => Some(Stage::Duty),
        (Stage::Off, Event::Other(_, _)) => Some(Stage::Off),
        (Stage::Off, Event::Final(_, _)) => None,
        (_, Event::Final(_, _)) => Some(Stage::Off),
        (Stage::Duty, Event::Interim(since, kind, place)) => Some(Stage::Interim {
            kind: *kind,
            since: *since,
            place: *place,
        }),
        (Stage::Interim { .. }, Event::Resume(_)) => Some(Stage::Duty),
        (Stage::Duty, Event::Relieve(_)) => Some(Stage::Waiting),
        (Stage::Duty | Stage::Waiting, Event::RideHome(_)) => Some(Stage::RidingHome),
        _ => None,
    }
}

// An interim of this kind has to be shorter than ten hours.
fn is_limited(kind: &Kind) -> bool
    ensures { result ≡ is_limited kind.now }
{
    match kind {
        Kind::D | Kind::P => true,
        Kind::O => false,
    }
}

// What is wrong with an event during an interim.
fn interim_fault(stage: &Stage, event: &Event) -> Option<EventFault>
    ensures { result ≡ interim_fault stage.now event.now }
{
    let Stage::Interim { kind, since, place } = stage else {
        return None;
    };
    match event {
        Event::Resume(at) => too_long(kind, *since, *at),
        Event::Final(_, named) => other_place(place, named),
        _ => None,
    }
}

// An interim of this kind that ends at a minute is too long.
fn too_long(kind: &Kind, since: Minute, at: Minute) -> Option<EventFault>
    ensures { result ≡ too_long kind.now (at - since) }
{
    let minutes = at.number().saturating_sub(since.number());
    if is_limited(kind) && minutes >= INTERIM_LIMIT {
        Some(EventFault::InterimTooLong(minutes as u32))
    } else {
        None
    }
}

// A final release during an interim names another place than the interim's.
fn other_place(place: &Code, named: &Code) -> Option<EventFault>
    ensures { result ≡ other_place place.now named.now }
{
    if place.text() == named.text() {
        None
    } else {
        Some(EventFault::OtherPlace(*place))
    }
}
