ghost use Rattle.std.specs.Prelude.{◌≡◌};
ghost use Rattle.duty_events.specs.Lists.{stage_after};
ghost use Rattle.duty_events.specs.MinuteKind.{begins};

use crate::sequence::row;
use crate::{Event, Kind};
use desk_base::{Code, Minute};

/// Where an employee stands in a tour of duty.
#[derive(Clone, Copy, Debug, PartialEq, Eq)]
pub enum Stage {
    /// In no tour.
    Off,
    /// Riding to a duty assignment.
    Riding,
    /// On duty.
    Duty,
    /// Released for an interim since a minute, at a place of this kind.
    Interim {
        kind: Kind,
        since: Minute,
        place: Code,
    },
    /// Relieved, and waiting.
    Waiting,
    /// Riding to the place of final release.
    RidingHome,
}

impl Stage {
    /// The stage after an event that is allowed. One that nothing of the event's kind follows stays.
    pub fn after(&self, event: &Event) -> Stage
        ensures { result ≡ stage_after self.now event.now }
    {
        row(self, event).unwrap_or(*self)
    }

    /// Whether a tour begins at an event that comes at this stage.
    pub fn begins(&self, event: &Event) -> bool
        ensures { result ≡ begins self.now event.now }
    {
        matches!(self, Stage::Off) && matches!(event, Event::Ride(_) | Event::Duty(_))
    }
}
