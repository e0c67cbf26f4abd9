ghost use Rattle.std.specs.Prelude.{◌≡◌, ◌<◌, ◌≤◌, ◌+◌, ℕ, List, [], ◌∷◌, ◌++◌};
ghost use Rattle.std.specs.Bool.{Decides};
ghost use Rattle.desk_base.specs.Month.{first_minute, minutes_of};
ghost use Rattle.duty_events.specs.declared.event.Event.{Event};
ghost use Rattle.duty_events.specs.Lists.{Follows, stage_of};
ghost use Rattle.duty_events.specs.Tours.{is_in_tour};
ghost use Rattle.month_hours.specs.Capped.{is_limbo};
ghost use Rattle.tour_build.specs.LastTour.{is_on_duty, tour_count, tour_capped, in_all};
ghost use Rattle.tour_build.specs.Runs.{Runs};

use crate::between::{capped_between, tour_between};
use crate::{MonthSums, TourTotals};
use desk_base::{Month, Window};
use duty_events::{Event, Stage, may_follow, may_follow_in_words};
use std::marker::Model;

/// The minutes of the last tour that has begun, whether it has ended or not, summed as its events come: in all, and by the
/// months of a window. It owns no memory.
#[derive(Clone, Copy, Debug)]
pub struct RunningTour {
    window: Window,
    totals: TourTotals,
    used_in: MonthSums,
    capped_in: MonthSums,
}

impl Model for RunningTour {
    ghost use Rattle.tour_build.specs.Runs.{RunningTourValue, running_of};

    ghost Value = { RunningTourValue };

    ghost view = { λ t. running_of t.window t.totals t.used_in t.capped_in };

    ghost inverse = { λ v. record {
      window = v.window;
      totals = v.totals;
      used_in = v.used_in;
      capped_in = v.capped_in;
    } };
}

impl RunningTour {
    /// Before the first event, with sums by the months of this window.
    pub fn begin(window: Window) -> RunningTour
        ensures window { result.window ≡ window }
        ensures runs { Runs result [] }
    {
        RunningTour {
            window,
            totals: TourTotals::none(),
            used_in: MonthSums::none(),
            capped_in: MonthSums::none(),
        }
    }

    /// The window of months.
    pub fn window(&self) -> Window
        ensures { result ≡ self.now.window }
    {
        self.window
    }

    /// Whether the event may come next: it is allowed, and its minutes lie in the years 2000 to 2099.
    pub fn may_take(&self, event: &Event) -> bool
        ensures { Decides result (Follows self.now.totals.stage self.now.totals.last event.now) }
    {
        may_follow_in_words();
        may_follow(&self.totals.stage(), &self.totals.last_minute(), event)
    }

    /// Takes in the next event, which is allowed and has its minutes in the years 2000 to 2099.
    pub fn apply(&mut self, event: Event)
        requires { Follows self.old.totals.stage self.old.totals.last event }
        ensures window { self.new.window ≡ self.old.window }
        ensures runs { (es : List Event) → Runs self.old es → Runs self.new (es ++ event ∷ []) }
    {
        let stage = self.totals.stage();
        let last = self.totals.last_minute();
        if stage.begins(&event) {
            self.used_in = MonthSums::none();
            self.capped_in = MonthSums::none();
        } else {
            let capped = capped_between(&stage, &last, &event, self.totals.sum());
            let worked = tour_between(&stage, &last, &event);
            self.used_in.add(&self.window, worked);
            self.capped_in.add(&self.window, capped);
        }
        self.totals.apply(event);
    }

    /// The stage after the last event.
    pub fn stage(&self) -> Stage
        ensures { (es : List Event) → Runs self.now es → result ≡ stage_of es }
    {
        self.totals.stage()
    }

    /// The tour's minutes on duty, in the window or not.
    pub fn on_duty(&self) -> u32
        ensures { (es : List Event) → Runs self.now es → result ≡ in_all (tour_count is_on_duty es) }
    {
        self.totals.on_duty()
    }

    /// Its minutes in limbo.
    pub fn limbo(&self) -> u32
        ensures { (es : List Event) → Runs self.now es → result ≡ in_all (tour_count is_limbo es) }
    {
        self.totals.limbo()
    }

    /// Its minutes in limbo that come when it has twelve hours, 49 USC 21103(c)(1).
    pub fn capped(&self) -> u32
        ensures { (es : List Event) → Runs self.now es → result ≡ in_all (tour_capped es) }
    {
        self.totals.capped()
    }

    /// Of these, those of a month of the window.
    pub fn capped_in(&self, month: Month) -> u32
        requires from { self.now.window.first ≤ month }
        requires to { month < self.now.window.first + self.now.window.months }
        ensures { (es : List Event) → Runs self.now es
            → result ≡ tour_capped es (first_minute month) (minutes_of month) }
    {
        self.capped_in.of(&self.window, month)
    }

    /// The tour's minutes of a month of the window: those on duty and those in limbo.
    pub fn used_in(&self, month: Month) -> u32
        requires from { self.now.window.first ≤ month }
        requires to { month < self.now.window.first + self.now.window.months }
        ensures { (es : List Event) → Runs self.now es
            → result ≡ tour_count is_in_tour es (first_minute month) (minutes_of month) }
    {
        self.used_in.of(&self.window, month)
    }
}
