ghost use Rattle.std.specs.Prelude.{◌≡◌, ◌<◌, ◌≤◌, ◌+◌, ◌^◌, ℕ, List, [], ◌∷◌, ◌++◌, Ok, IsOk, IfOk};
ghost use Rattle.std.specs.Bool.{Decides};
ghost use Rattle.desk_base.specs.Month.{minutes_of};
ghost use Rattle.desk_base.specs.Window.{end_of};
ghost use Rattle.duty_events.specs.declared.event.Event.{Event};
ghost use Rattle.duty_events.specs.declared.stage.Stage.TheVariants as stage;
ghost use Rattle.duty_events.specs.Allowed.{first_minute, last_minute};
ghost use Rattle.duty_events.specs.Lists.{stage_of, last_event, latest, reached};
ghost use Rattle.duty_events.specs.Places.{place_of};
ghost use Rattle.month_hours.specs.Capped.{capped};
ghost use Rattle.month_hours.specs.Plan.{end_of as end_of_plan};
ghost use Rattle.month_hours.specs.Used.{used};
ghost use Rattle.rest_rules.specs.Rest.{rest_end, EndsRest};
ghost use Rattle.law_bars.specs.Law.{law_bar};
ghost use Rattle.person_clock.specs.Clock.{stage_now, last_now, minute_of, LiesIn, Stands, MayTake};

use crate::bars::{days_bar, rest_bar};
use crate::days_clock::DaysClock;
use crate::hours::hours_bar;
use crate::rest_clock::RestClock;
use denial_rules::Bar;
use desk_base::{Code, Minute, Month, NoMemory, Window};
use duty_events::{Event, Stage, may_follow, may_follow_in_words};
use month_hours::{Plan, PlanMonths};
use std::marker::Model;
use tour_build::{Interval, MonthSums, TourTotals, capped_between, worked_between};

/// What someone of a home did, as numbers: it answers for a list of events as the scans of that list do, and keeps none. It
/// owns no memory.
#[derive(Clone, Copy, Debug)]
pub struct PersonClock {
    window: Window,
    home: Code,
    tour: TourTotals,
    rest: RestClock,
    days: DaysClock,
    used: MonthSums,
    capped: MonthSums,
}

impl Model for PersonClock {
    ghost use Rattle.person_clock.specs.Clock.{ClockValue, clock_of};

    ghost Value = { ClockValue };

    ghost view = { λ c. clock_of c.window c.home c.tour c.rest c.days c.used c.capped };

    ghost inverse = { λ v. record {
      window = v.window;
      home = v.home;
      tour = v.tour;
      rest = v.rest;
      days = v.days;
      used = v.used;
      capped = v.capped;
    } };
}

impl PersonClock {
    /// The clock of someone with this home, before their first event. It needs no memory.
    pub fn new(window: Window, home: Code) -> Result<PersonClock, NoMemory>
        ensures always { IsOk result }
        ensures window { IfOk result (λ clock. clock.window ≡ window) }
        ensures home { IfOk result (λ clock. clock.home ≡ home) }
        ensures stands { IfOk result (λ clock. Stands clock []) }
    {
        Ok(PersonClock::starting(window, home))
    }

    // The same, which can't fail.
    fn starting(window: Window, home: Code) -> PersonClock
        ensures window { result.window ≡ window }
        ensures home { result.home ≡ home }
        ensures stands { Stands result [] }
    {
        PersonClock {
            window,
            home,
            tour: TourTotals::none(),
            rest: RestClock::new(),
            days: DaysClock::new(home),
            used: MonthSums::none(),
            capped: MonthSums::none(),
        }
    }

    /// Starts again before the first event, with the same window, for someone with this home.
    pub fn restart(&mut self, home: Code)
        ensures window { self.new.window ≡ self.old.window }
        ensures home { self.new.home ≡ home }
        ensures stands { Stands self.new [] }
    {
        *self = PersonClock::starting(self.window, home);
    }

    /// The same clock again. It needs no memory.
    pub fn copy(&self) -> Result<PersonClock, NoMemory>
        ensures { result ≡ Ok self.now }
    {
        Ok(*self)
    }

    /// The window of months.
    pub fn window(&self) -> Window
        ensures { result ≡ self.now.window }
    {
        self.window
    }

    /// Whether the event may come next: it is allowed, and lies in the window.
    pub fn may_take(&self, event: &Event) -> bool
        ensures { Decides result (MayTake self.now event.now) }
    {
        may_follow_in_words();
        let follows = may_follow(&self.tour.stage(), &self.tour.last_minute(), event);
        follows && self.holds(event)
    }

    // Whether the event lies in the window.
    fn holds(&self, event: &Event) -> bool
        ensures { Decides result (LiesIn self.now.window event.now) }
    {
        self.window.holds(event.first_minute()) && self.window.holds(event.last_minute())
    }

    /// Takes in the next event, which is allowed and lies in the window.
    pub fn apply(&mut self, event: Event)
        requires { MayTake self.old event }
        ensures window { self.new.window ≡ self.old.window }
        ensures home { self.new.home ≡ self.old.home }
        ensures stands { (es : List Event) → Stands self.old es → Stands self.new (es ++ event ∷ []) }
    {
        let stage = self.tour.stage();
        let last = self.tour.last_minute();
        let ended = self.tour.ended_by(&event);
        self.used
            .add(&self.window, worked_between(&stage, &last, &event));
        self.used.add(&self.window, own_minutes(&event));
        let sum = self.tour.sum();
        self.capped
            .add(&self.window, capped_between(&stage, &last, &event, sum));
        self.tour.apply(event);
        self.rest = self
            .rest
            .after(&stage, &last, &event, &ended, sum_of(&self.tour));
        self.days = self.days.after(self.home, &stage, &event, &ended);
    }

    /// The first section of 49 USC 21103 that keeps the person from a job, by a call at a moment: the job has so many minutes on
    /// duty from its report on, and so many of limbo behind them. No tour runs, the moment isn't before the latest minute, the
    /// report not before the moment, and the job ends by the window's end.
    pub fn law(&self, moment: Minute, report: Minute, duty: u16, limbo: u16) -> Option<Bar>
        requires off { stage_now self.now ≡ stage.Off }
        requires moment { minute_of (last_now self.now) ≤ moment }
        requires report { moment ≤ report }
        requires end { report + duty + limbo ≤ end_of self.now.window }
        ensures { (es : List Event) → Stands self.now es
            → result ≡ law_bar es self.now.home moment report duty limbo }
    {
        let plan = Plan {
            report,
            duty: u32::from(duty),
            limbo: u32::from(limbo),
        };
        // A window lies in the years 2000 to 2099.
        self.window.start();
        self.law_of(moment, &PlanMonths::of(&plan))
    }

    /// The same of a plan whose months were told apart once for all persons who are asked about: its report, its minutes on duty
    /// and those of limbo are the job's.
    pub fn law_of(&self, moment: Minute, plan: &PlanMonths) -> Option<Bar>
        requires off { stage_now self.now ≡ stage.Off }
        requires moment { minute_of (last_now self.now) ≤ moment }
        requires report { moment ≤ plan.now.report }
        requires end { end_of_plan plan.now ≤ end_of self.now.window }
        ensures { (es : List Event) → Stands self.now es
            → result ≡ law_bar es self.now.home moment plan.now.report plan.now.duty plan.now.limbo }
    {
        let report = plan.plan().report;
        if let Some(bar) = rest_bar(&self.rest, moment, report) {
            return Some(bar);
        }
        if let Some(bar) = days_bar(&self.days, self.home, report) {
            return Some(bar);
        }
        hours_bar(&self.window, &self.used, &self.capped, plan)
    }

    /// How many minutes of a month of the window are worked.
    pub fn used(&self, month: Month) -> u32
        requires from { self.now.window.first ≤ month }
        requires to { month < self.now.window.first + self.now.window.months }
        ensures value { (es : List Event) → Stands self.now es → result ≡ used es month }
        ensures most { (es : List Event) → Stands self.now es → result ≤ minutes_of month }
    {
        self.used.of(&self.window, month)
    }

    /// How many limbo minutes of a month of the window count against its limit.
    pub fn capped(&self, month: Month) -> u32
        requires from { self.now.window.first ≤ month }
        requires to { month < self.now.window.first + self.now.window.months }
        ensures value { (es : List Event) → Stands self.now es → result ≡ capped es month }
        ensures most { (es : List Event) → Stands self.now es → result ≤ minutes_of month }
    {
        self.capped.of(&self.window, month)
    }

    /// Where the person is, from the latest minute on.
    pub fn place(&self) -> Code
        ensures { (es : List Event) → Stands self.now es
            → (t : ℕ) → reached (last_event es) ≤ t → result ≡ place_of es self.now.home t }
    {
        self.days.place()
    }

    /// The stage after the last event.
    pub fn stage(&self) -> Stage
        ensures value { result ≡ stage_now self.now }
        ensures events { (es : List Event) → Stands self.now es → result ≡ stage_of es }
    {
        self.tour.stage()
    }

    /// The latest minute; `None` before the first event.
    pub fn last(&self) -> Option<Minute>
        ensures value { result ≡ last_now self.now }
        ensures events { (es : List Event) → Stands self.now es → result ≡ latest es }
    {
        self.tour.last_minute()
    }

    /// The minute at which rest ends, ten hours and the excess of the last tour; 0 where no minute is worked.
    pub fn rest_end(&self) -> Minute
        ensures value { (es : List Event) → Stands self.now es → result ≡ rest_end es }
        ensures law { (es : List Event) → Stands self.now es → stage_of es ≡ stage.Off
            → EndsRest es result }
    {
        self.rest.end()
    }
}

// An event's own minutes, as other service has them.
fn own_minutes(event: &Event) -> Interval
    ensures from { result.from ≡ first_minute event.now }
    ensures to { result.to ≡ last_minute event.now }
{
    Interval {
        from: event.first_minute(),
        to: event.last_minute(),
    }
}

// A tour's minutes on duty and in limbo, which are few.
fn sum_of(tour: &TourTotals) -> u32
    ensures { tour.now.on_duty + tour.now.limbo < 2 ^ 32
        → result ≡ tour.now.on_duty + tour.now.limbo }
{
    tour.on_duty().saturating_add(tour.limbo())
}
