ghost use Rattle.std.specs.Prelude.{◌≡◌, ◌<◌, ◌≤◌, IfSome};
ghost use Rattle.desk_base.specs.declared.minute.TheConstants.{YEARS_END};
ghost use Rattle.duty_events.specs.Lists.{IsLawful, last_event, reached};
ghost use Rattle.duty_events.specs.EndedTours.{begun, ended, last_tour};

use crate::places::tour_end;
use crate::{Event, Stage, Tour};
use desk_base::Minute;

/// The last tour that has ended; `None` where none has. Of events that aren't a lawful list, each final release ends the
/// tour that began last. In a lawful list it ends by the latest minute, and
/// before the year 2100.
pub fn last_tour(events: &[Event]) -> Option<Tour>
    ensures value { result ≡ last_tour events.now }
    ensures ends { IsLawful events.now
        → IfSome result (λ tour. tour.end ≤ reached (last_event events.now)) }
    ensures range { IsLawful events.now → IfSome result (λ tour. tour.end < YEARS_END) }
{
    let mut last = None;
    let mut start = None;
    let mut stage = Stage::Off;
    for event in events {
        last = ended(&stage, &start, event).or(last);
        start = begun(&stage, &start, event);
        stage = stage.after(event);
    }
    last
}

// Where the last tour began, after an event that comes at a stage.
fn begun(stage: &Stage, start: &Option<Minute>, event: &Event) -> Option<Minute>
    ensures { result ≡ begun stage.now start.now event.now }
{
    if stage.begins(event) {
        Some(event.first_minute())
    } else {
        *start
    }
}

// The tour that began at a minute, where the event ends it, which comes at a stage.
fn ended(stage: &Stage, start: &Option<Minute>, event: &Event) -> Option<Tour>
    ensures { result ≡ ended stage.now start.now event.now }
{
    let start = (*start)?;
    match event {
        Event::Final(at, place) => Some(Tour {
            start,
            end: tour_end(stage, *at),
            place: *place,
        }),
        _ => None,
    }
}
