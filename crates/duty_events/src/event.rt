ghost use Rattle.std.specs.Prelude.{◌≡◌, ◌≤◌};
ghost use Rattle.duty_events.specs.Allowed.{first_minute, last_minute};

use crate::Kind;
use desk_base::{Code, Minute, Span};

/// What an employee does, and when.
#[derive(Clone, Copy, Debug, PartialEq, Eq)]
pub enum Event {
    /// Begins to ride to a duty assignment.
    Ride(Minute),
    /// Goes on duty.
    Duty(Minute),
    /// Is released for an interim, at a place of this kind.
    Interim(Minute, Kind, Code),
    /// Goes on duty again after an interim.
    Resume(Minute),
    /// Is relieved, and waits to be taken to the place of final release.
    Relieve(Minute),
    /// Begins to ride from a duty assignment to the place of final release.
    RideHome(Minute),
    /// Is released finally, at a place.
    Final(Minute, Code),
    /// Other service for the railroad, and the place where it ends.
    Other(Span, Code),
}

impl Event {
    /// The event's first minute.
    pub fn first_minute(&self) -> Minute
        ensures { result ≡ first_minute self.now }
    {
        match self {
            Event::Other(span, _) => span.from(),
            Event::Ride(at)
            | Event::Duty(at)
            | Event::Interim(at, _, _)
            | Event::Resume(at)
            | Event::Relieve(at)
            | Event::RideHome(at)
            | Event::Final(at, _) => *at,
        }
    }

    /// The event's last minute: the first after other service, and else the first.
    pub fn last_minute(&self) -> Minute
        ensures value { result ≡ last_minute self.now }
        ensures whole { first_minute self.now ≤ result }
    {
        match self {
            Event::Other(span, _) => span.to(),
            Event::Ride(at)
            | Event::Duty(at)
            | Event::Interim(at, _, _)
            | Event::Resume(at)
            | Event::Relieve(at)
            | Event::RideHome(at)
            | Event::Final(at, _) => *at,
        }
    }
}
