ghost use Rattle.std.specs.Prelude.{◌≡◌};
ghost use Rattle.std.specs.Bool.{Decides};
ghost use Rattle.duty_events.specs.Lists.{Follows, IsLawful, may_follow};

use crate::{Event, Stage, allowed};
use desk_base::Minute;

/// Whether each event is allowed after those before it and lies in the years 2000 to 2099.
pub fn is_lawful(events: &[Event]) -> bool
    ensures { Decides result (IsLawful events.now) }
{
    let mut stage = Stage::Off;
    let mut last = None;
    for event in events {
        if !may_follow(&stage, &last, event) {
            return false;
        }
        stage = stage.after(event);
        last = Some(event.last_minute());
    }
    true
}

/// Whether an event may follow events that ended in a stage, with that latest minute: it is allowed, and its minutes lie in
/// the years 2000 to 2099.
pub fn may_follow(stage: &Stage, last: &Option<Minute>, event: &Event) -> bool
    ensures value { result ≡ may_follow stage.now last.now event.now }
    ensures decides { Decides result (Follows stage.now last.now event.now) }
{
    let in_years = event.first_minute().is_in_years() && event.last_minute().is_in_years();
    in_years && allowed(*stage, *event, *last).is_ok()
}
