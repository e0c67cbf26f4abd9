ghost use Rattle.std.specs.Prelude.{◌≡◌, ◌<◌, ◌≤◌, ◌+◌, ◌^◌, ℕ, Bool, true, false, List, Option, [], ◌∷◌, ◌++◌};
ghost use Rattle.std.specs.Option.{option_or};
ghost use Rattle.duty_events.specs.Gauge.{Tells};
ghost use Rattle.duty_events.specs.declared.event.Event.{Event};
ghost use Rattle.duty_events.specs.declared.tour.Tour.{Tour};
ghost use Rattle.duty_events.specs.EndedTours.{ended, last_begun};
ghost use Rattle.duty_events.specs.Lists.{IsLawful, IsNext, stage_of, last_event, reached};
ghost use Rattle.duty_events.specs.declared.stage.Stage.TheVariants as stage;
ghost use Rattle.consecutive_days.specs.Days.{days_ok, is_away};
ghost use Rattle.consecutive_days.specs.Steps.{next_run};
ghost use Rattle.person_clock.specs.Days.{IsDaysOf};
ghost use Rattle.person_clock.specs.Rest.{end_after};

use consecutive_days::{Run, are_days_ok, days_when_an_event_comes, is_at_home, next_run};
use desk_base::{Code, Day, Minute};
use duty_events::{Event, Gauge, MinuteKind, Stage, Tour, kind_during, place_behind, place_until};

/// The days in a row on which someone's tours began, whether the last tour ended away from home, how long they have been off
/// at home in one stretch since then, and where they are.
#[derive(Clone, Copy, Debug)]
pub(crate) struct DaysClock {
    run: Run,
    is_away: bool,
    at_home: Gauge,
    place: Code,
}

impl DaysClock {
    /// Before the first event of someone with this home.
    pub(crate) fn new(home: Code) -> DaysClock
        ensures { IsDaysOf home result [] }
    {
        DaysClock {
            run: Run { days: 0, last: 0 },
            is_away: false,
            at_home: Gauge::starting(0),
            place: home,
        }
    }

    /// After the next event, which comes at a stage. It may end a tour.
    pub(crate) fn after(
        self,
        home: Code,
        stage: &Stage,
        event: &Event,
        tour: &Option<Tour>,
    ) -> DaysClock
        ensures { (es : List Event) → IsLawful es → IsNext es event.now → stage.now ≡ stage_of es
            → tour.now ≡ ended (stage_of es) (last_begun es) event.now
            → IsDaysOf home self es → IsDaysOf home result (es ++ event.now ∷ []) }
    {
        days_when_an_event_comes();
        let first = event.first_minute();
        let last = event.last_minute();
        let here = place_until(stage, event, self.place);
        let is_home = is_at_home(&kind_during(stage, event), here, home);
        DaysClock {
            run: run_after(self.run, stage.begins(event), Day::of(first).number()),
            is_away: is_away_after(self.is_away, tour, home),
            at_home: since_end(self.at_home, tour)
                .pass(first.number(), is_home)
                .pass(last.number(), false),
            place: place_behind(event, self.place),
        }
    }

    /// How many days in a row they are.
    pub(crate) fn days(&self) -> u32
        ensures { result ≡ self.now.run.days }
    {
        self.run.days
    }

    /// Where the person is.
    pub(crate) fn place(&self) -> Code
        ensures { result ≡ self.now.place }
    {
        self.place
    }

    /// Whether they may report at a minute that isn't before the latest. No tour runs.
    pub(crate) fn is_ok(&self, home: Code, report: Minute) -> bool
        ensures { (es : List Event) → IsLawful es → stage_of es ≡ stage.Off
            → reached (last_event es) ≤ report → IsDaysOf home self.now es
            → result ≡ days_ok es home report }
    {
        let is_home = is_at_home(&MinuteKind::Off, self.place, home);
        let longest = self.at_home.pass(report.number(), is_home).longest();
        are_days_ok(&self.run, self.is_away, longest, report)
    }
}

// The days in a row after an event on a day, at which a tour may begin.
fn run_after(run: Run, begins: bool, day: u32) -> Run
    ensures stay { begins ≡ false → result ≡ run }
    ensures days { begins ≡ true → run.days + 1 < 2 ^ 32
        → result.days ≡ next_run run.days run.last day }
    ensures last { begins ≡ true → result.last ≡ day }
{
    if begins {
        Run {
            days: next_run(run.days, run.last, day),
            last: day,
        }
    } else {
        run
    }
}

// Whether the last tour ended away from home, after a tour that ends, if one does.
fn is_away_after(was_away: bool, tour: &Option<Tour>, home: Code) -> bool
    ensures { (last : Option Tour) → was_away ≡ is_away last home
        → result ≡ is_away (option_or tour.now last) home }
{
    match tour {
        Some(tour) => tour.place != home,
        None => was_away,
    }
}

// The gauge from where a tour ends, if one does.
fn since_end(gauge: Gauge, tour: &Option<Tour>) -> Gauge
    ensures until { result.until ≡ end_after gauge.until tour.now }
    ensures tells { (asked : ℕ → Bool) (start : ℕ) → Tells asked start gauge
        → Tells asked (end_after start tour.now) result }
{
    match tour {
        Some(tour) => Gauge::starting(tour.end.number()),
        None => gauge,
    }
}
