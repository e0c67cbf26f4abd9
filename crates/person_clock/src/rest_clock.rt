ghost use Rattle.std.specs.Prelude.{◌≡◌, ◌<◌, ◌≤◌, ◌+◌, ◌^◌, ℕ, Bool, true, false, List, [], ◌∷◌, ◌++◌, IfSome, nat_eq, nat_le, ◌&&◌, ◌||◌, if◌then◌else◌};
ghost use Rattle.duty_events.specs.declared.event.Event.{Event};
ghost use Rattle.duty_events.specs.declared.stage.Stage.TheVariants as stage;
ghost use Rattle.duty_events.specs.EndedTours.{ended, last_begun};
ghost use Rattle.duty_events.specs.Lists.{IsLawful, IsNext, stage_of, last_event, latest, reached};
ghost use Rattle.duty_events.specs.Tours.{sum_so_far};
ghost use Rattle.rest_rules.specs.OffFrom.{off_from, end_after as off_after_minutes};
ghost use Rattle.rest_rules.specs.Rest.{rest_ok, rest_end};
ghost use Rattle.person_clock.specs.Rest.{GaugesOff, IsRestOf, end_after, excess_after};

use crate::minutes::minute_or;
use desk_base::Minute;
use duty_events::{DUTY_LIMIT, Event, Gauge, Stage, Tour, kind_during};
use rest_rules::{REST, excess_when_an_event_comes};

/// Since when someone is off, what their last tour had over twelve hours, and how long they have been off in one stretch since
/// it ended.
#[derive(Clone, Copy, Debug)]
pub(crate) struct RestClock {
    off_from: Minute,
    excess: u32,
    off: Gauge,
}

impl RestClock {
    /// Before the first event.
    pub(crate) fn new() -> RestClock
        ensures { IsRestOf result [] }
    {
        RestClock {
            off_from: Minute::FIRST,
            excess: 0,
            off: Gauge::starting(0),
        }
    }

    /// After the next event, which comes at a stage and behind a latest minute, and after which the last tour sums up so much. It
    /// may end that tour.
    pub(crate) fn after(
        self,
        stage: &Stage,
        last: &Option<Minute>,
        event: &Event,
        tour: &Option<Tour>,
        sum: u32,
    ) -> RestClock
        ensures { (es : List Event) → IsLawful es → IsNext es event.now
            → stage.now ≡ stage_of es → last.now ≡ latest es → tour.now ≡ ended (stage_of es) (last_begun es) event.now
            → sum ≡ sum_so_far (es ++ event.now ∷ [])
            → IsRestOf self es → IsRestOf result (es ++ event.now ∷ []) }
    {
        excess_when_an_event_comes();
        let first = event.first_minute();
        let is_worked = kind_during(stage, event).is_worked();
        self.with_minutes(is_worked, last.unwrap_or(Minute::FIRST), first)
            .with_minutes(true, first, event.last_minute())
            .with_end(tour, sum)
    }

    // After the minutes from one on and before another, which are all worked or none; all from when the person was off up to
    // them are off.
    fn with_minutes(self, is_worked: bool, from: Minute, to: Minute) -> RestClock
        ensures since { result.off_from ≡ off_after_minutes self.off_from is_worked from to }
        ensures over { result.excess ≡ self.excess }
        ensures gauges { (asked : ℕ → Bool) (start : ℕ) → GaugesOff asked start self
            → start ≤ from → self.off_from ≤ from
            → ((t : ℕ) → self.off_from ≤ t → t < from → asked t ≡ true)
            → ((t : ℕ) → from ≤ t → t < to → is_worked ≡ true → asked t ≡ false)
            → GaugesOff asked start result }
    {
        if is_worked && from < to {
            RestClock {
                off_from: to,
                excess: self.excess,
                off: self.off.pass(from.number(), true).pass(to.number(), false),
            }
        } else {
            self
        }
    }

    // After a tour that ends and sums up so much, if one does.
    fn with_end(self, tour: &Option<Tour>, sum: u32) -> RestClock
        ensures since { result.off_from ≡ self.off_from }
        ensures over { result.excess ≡ excess_after self.excess tour.now sum }
        ensures gauges { (asked : ℕ → Bool) (start : ℕ) → GaugesOff asked start self
            → IfSome tour.now (λ ended. self.off_from ≤ ended.end)
            → GaugesOff asked (end_after start tour.now) result }
    {
        match tour {
            Some(tour) => RestClock {
                off_from: self.off_from,
                excess: sum.saturating_sub(DUTY_LIMIT),
                off: Gauge::starting(tour.end.number()),
            },
            None => self,
        }
    }

    /// Ten hours after the person's last worked minute.
    pub(crate) fn ten_hours(&self) -> Minute
        ensures { (es : List Event) → IsRestOf self.now es → IsLawful es → result ≡ off_from es + REST }
    {
        later(self.off_from, REST)
    }

    /// What their last tour had over twelve hours.
    pub(crate) fn excess(&self) -> u32
        ensures { result ≡ self.now.excess }
    {
        self.excess
    }

    /// Whether they have rested at a minute that isn't before the latest, ten hours and so many minutes more.
    pub(crate) fn is_ok(&self, at: Minute, more: u32) -> bool
        ensures { (es : List Event) → IsLawful es → stage_of es ≡ stage.Off
            → reached (last_event es) ≤ at → IsRestOf self.now es → result ≡ rest_ok es at more }
    {
        let longest = self.off.pass(at.number(), true).longest();
        has_rested(self.off_from, at, more, longest)
    }

    /// The minute at which their rest ends.
    pub(crate) fn end(&self) -> Minute
        ensures { (es : List Event) → IsLawful es → IsRestOf self.now es → result ≡ rest_end es }
    {
        end_of_rest(self.off_from, self.excess, self.off.longest())
    }
}

// Who is off since a minute, and for as long in one stretch, has rested at another.
fn has_rested(off_from: Minute, at: Minute, more: u32, longest: u64) -> bool
    ensures { result ≡ (nat_eq off_from 0
        || (nat_le (off_from + REST) at && nat_le (REST + more) longest)) }
{
    let from = off_from.number();
    from == 0 || (from + REST <= at.number() && REST + u64::from(more) <= longest)
}

// Where rest ends for who is off since a minute, and for as long in one stretch, with so many minutes more than ten hours.
fn end_of_rest(off_from: Minute, more: u32, longest: u64) -> Minute
    ensures { off_from + REST + more < 2 ^ 28 → result ≡ (if nat_eq off_from 0 then 0
        else if nat_le (REST + more) longest then off_from + REST else off_from + REST + more) }
{
    if off_from == Minute::FIRST {
        return off_from;
    }
    let many = REST + u64::from(more);
    let late = if many <= longest { REST } else { many };
    later(off_from, late)
}

// The minute that comes so many minutes after another, which is near.
fn later(minute: Minute, many: u64) -> Minute
    ensures { minute + many < 2 ^ 28 → result ≡ minute + many }
{
    minute_or(minute.number().saturating_add(many), minute)
}
