ghost use Rattle.std.specs.Prelude.{◌≡◌, ◌<◌, ◌≤◌, ◌^◌};
ghost use Rattle.duty_events.specs.Lists.{IsLawful};
ghost use Rattle.duty_events.specs.Asked.{passes, asked_minutes, asked_between, asked_own};

use crate::{Event, MinuteKind, between, shared};

/// What is asked of each minute.
#[derive(Clone, Copy, Debug, PartialEq, Eq)]
pub enum Asked {
    /// Whether it is worked: on duty, limbo or other service.
    Worked,
    /// Whether it is on duty or limbo, as a tour's minutes are that are summed.
    InTour,
}

impl Asked {
    /// How many of so many minutes from a first one on, which lies below 2^28, are of the kinds that are asked about, by a
    /// lawful list of events.
    pub fn count(&self, events: &[Event], first: u64, many: u32) -> u32
        requires lawful { IsLawful events.now }
        requires range { first < 2 ^ 28 }
        ensures value { result ≡ asked_minutes self.now events.now first many }
        ensures most { result ≤ many }
    {
        let mut total = 0;
        let mut before = None;
        for event in events {
            total += self.between(&before, event, first, many) + self.own(event, first, many);
            before = Some(*event);
        }
        total
    }

    // Whether minutes that count as this are asked about.
    fn passes(&self, kind: &MinuteKind) -> bool
        ensures { result ≡ passes self.now kind.now }
    {
        match self {
            Asked::Worked => kind.is_worked(),
            Asked::InTour => kind.is_in_tour(),
        }
    }

    // How many of the minutes between two events.
    fn between(&self, before: &Option<Event>, event: &Event, first: u64, many: u32) -> u32
        requires { first < 2 ^ 28 }
        ensures { result ≡ asked_between self.now before.now event.now first many }
    {
        let Some(before) = before else {
            return 0;
        };
        if !self.passes(&between(before, event)) {
            return 0;
        }
        let from = before.last_minute().number();
        shared(from, event.first_minute().number(), first, many)
    }

    // How many of an event's own minutes, as other service has them.
    fn own(&self, event: &Event, first: u64, many: u32) -> u32
        requires { first < 2 ^ 28 }
        ensures { result ≡ asked_own self.now event.now first many }
    {
        if !self.passes(&MinuteKind::Other) {
            return 0;
        }
        let from = event.first_minute().number();
        shared(from, event.last_minute().number(), first, many)
    }
}
