ghost use Rattle.std.specs.Prelude.{◌≡◌, ◌<◌, ◌+◌, ◌^◌, ℕ, List, [], ◌∷◌, ◌++◌, if◌then◌else◌};
ghost use Rattle.duty_events.specs.declared.event.Event.{Event};
ghost use Rattle.duty_events.specs.EndedTours.{begun, ended};
ghost use Rattle.duty_events.specs.Lists.{Follows};
ghost use Rattle.duty_events.specs.Minutes.{shared};
ghost use Rattle.tour_build.specs.Runs.{AreTotals};

use crate::Interval;
use crate::between::{capped_between, limbo_between, on_duty_between};
use desk_base::Minute;
use duty_events::{Event, Stage, Tour};
use std::marker::Model;

/// The minutes of the last tour that has begun, whether it has ended or not, by events that come one after another: those on
/// duty, those in limbo, and of these the capped ones. It keeps no event, but the stage, the latest minute and where the tour
/// began.
#[derive(Clone, Copy, Debug)]
pub struct TourTotals {
    stage: Stage,
    last: Option<Minute>,
    begun: Option<Minute>,
    on_duty: u32,
    limbo: u32,
    capped: u32,
}

impl Model for TourTotals {
    ghost use Rattle.tour_build.specs.Runs.{TotalsValue, totals_of};

    ghost Value = { TotalsValue };

    ghost view = { λ t. totals_of t.stage t.last t.begun t.on_duty t.limbo t.capped };

    ghost inverse = { λ v. record {
      stage = v.stage;
      last = v.last;
      begun = v.begun;
      on_duty = v.on_duty;
      limbo = v.limbo;
      capped = v.capped;
    } };
}

impl TourTotals {
    /// Those of nobody's tour, before the first event.
    pub fn none() -> TourTotals
        ensures { AreTotals result [] }
    {
        TourTotals {
            stage: Stage::Off,
            last: None,
            begun: None,
            on_duty: 0,
            limbo: 0,
            capped: 0,
        }
    }

    /// Takes in the next event.
    pub fn apply(&mut self, event: Event)
        requires { Follows self.old.stage self.old.last event }
        ensures { (es : List Event) → AreTotals self.old es → AreTotals self.new (es ++ event ∷ []) }
    {
        let begins = self.stage.begins(&event);
        let on_duty = on_duty_between(&self.stage, &self.last, &event);
        let limbo = limbo_between(&self.stage, &self.last, &event);
        let sum = self.sum();
        let capped = capped_between(&self.stage, &self.last, &event, sum);
        *self = TourTotals {
            stage: self.stage.after(&event),
            last: Some(event.last_minute()),
            begun: self.begun_by(&event),
            on_duty: summed(begins, self.on_duty, on_duty),
            limbo: summed(begins, self.limbo, limbo),
            capped: summed(begins, self.capped, capped),
        };
    }

    /// The stage after the last event.
    pub fn stage(&self) -> Stage
        ensures { result ≡ self.now.stage }
    {
        self.stage
    }

    /// The latest minute; `None` before the first event.
    pub fn last_minute(&self) -> Option<Minute>
        ensures { result ≡ self.now.last }
    {
        self.last
    }

    // Where the last tour begins that has begun if the event comes next.
    fn begun_by(&self, event: &Event) -> Option<Minute>
        ensures { result ≡ begun self.now.stage self.now.begun event.now }
    {
        if self.stage.begins(event) {
            Some(event.first_minute())
        } else {
            self.begun
        }
    }

    /// The tour that the event ends if it comes next; `None` where it is no final release, or no tour has begun.
    pub fn ended_by(&self, event: &Event) -> Option<Tour>
        ensures { result ≡ ended self.now.stage self.now.begun event.now }
    {
        let start = self.begun?;
        let Event::Final(at, place) = event else {
            return None;
        };
        let end = match &self.stage {
            Stage::Interim { since, .. } => *since,
            _ => *at,
        };
        Some(Tour {
            start,
            end,
            place: *place,
        })
    }

    /// The tour's minutes on duty.
    pub fn on_duty(&self) -> u32
        ensures { result ≡ self.now.on_duty }
    {
        self.on_duty
    }

    /// Its minutes in limbo.
    pub fn limbo(&self) -> u32
        ensures { result ≡ self.now.limbo }
    {
        self.limbo
    }

    /// Its minutes in limbo that come when it has twelve hours, 49 USC 21103(c)(1).
    pub fn capped(&self) -> u32
        ensures { result ≡ self.now.capped }
    {
        self.capped
    }

    /// Its minutes on duty and in limbo together.
    pub fn sum(&self) -> u64
        ensures { result ≡ self.now.on_duty + self.now.limbo }
    {
        u64::from(self.on_duty) + u64::from(self.limbo)
    }
}

// A sum with more minutes, or none of a tour that begins.
fn summed(begins: bool, sum: u32, more: Interval) -> u32
    ensures { (now : ℕ) → now ≡ (if begins then 0 else sum + shared more.from more.to 0 (2 ^ 28)) → now < 2 ^ 32
        → result ≡ now }
{
    if begins {
        0
    } else {
        sum.saturating_add(more.count())
    }
}
