ghost use Rattle.std.specs.Prelude.{◌≡◌};
ghost use Rattle.duty_events.specs.Places.{end_by, tour_end, place_by, place_of, place_until, place_behind};

use crate::end::End;
use crate::{Event, Stage};
use desk_base::{Code, Minute};

/// The place of the latest tour or other service that ended at or before a minute, else home. A tour ends at its final
/// release, or where the interim began during which that came. Of two that ended at one minute it is the later in the
/// list.
pub fn place(events: &[Event], home: Code, at: Minute) -> Code
    ensures { result ≡ place_of events.now home at }
{
    let mut found = home;
    let mut stage = Stage::Off;
    for event in events {
        let end = end_by(&stage, event);
        found = place_by(&end, found, at);
        stage = stage.after(event);
    }
    found
}

// The end that an event makes, which comes at a stage.
fn end_by(stage: &Stage, event: &Event) -> Option<End>
    ensures { result ≡ end_by stage.now event.now }
{
    match event {
        Event::Final(at, place) => Some(End {
            at: tour_end(stage, *at),
            place: *place,
        }),
        Event::Other(span, place) => Some(End {
            at: span.to(),
            place: *place,
        }),
        _ => None,
    }
}

// Where a tour ends with a final release that comes at a stage.
pub(crate) fn tour_end(stage: &Stage, at: Minute) -> Minute
    ensures { result ≡ tour_end stage.now at }
{
    match stage {
        Stage::Interim { since, .. } => *since,
        _ => at,
    }
}

// The place of an end that came by the minute, else another.
fn place_by(end: &Option<End>, other: Code, at: Minute) -> Code
    ensures { result ≡ place_by end.now other at }
{
    match end {
        Some(end) if end.at <= at => end.place,
        _ => other,
    }
}

/// Where someone is before an event that comes at a stage, who was at a place before: a final release during an interim
/// moves them to its place from the interim's first minute on.
pub fn place_until(stage: &Stage, event: &Event, place: Code) -> Code
    ensures { result ≡ place_until stage.now event.now place }
{
    match (stage, event) {
        (Stage::Interim { .. }, Event::Final(_, named)) => *named,
        _ => place,
    }
}

/// Where someone is behind an event, who was at a place before: where it ends a tour or other service.
pub fn place_behind(event: &Event, place: Code) -> Code
    ensures { result ≡ place_behind event.now place }
{
    match event {
        Event::Final(_, named) | Event::Other(_, named) => *named,
        _ => place,
    }
}
