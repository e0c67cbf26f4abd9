ghost use Rattle.std.specs.Prelude.{◌≡◌, ℕ, ◌+◌, false, ◌<◌, ◌≤◌, ◌^◌, ◌⊎◌, nat_le};
ghost use Rattle.std.specs.Bool.{Decides};
ghost use Rattle.duty_events.specs.Stretch.{has_stretch};
ghost use Rattle.duty_events.specs.declared.stage.Stage.TheVariants as stage;
ghost use Rattle.duty_events.specs.Lists.{IsLawful, stage_of};
ghost use Rattle.duty_events.specs.EndedTours.{last_tour, end_of};
ghost use Rattle.rest_rules.specs.Rest.{is_off, was_off, rest_ok, rest_end, RestOk, EndsRest};

use crate::{excess, off_from};
use desk_base::Minute;
use duty_events::{Event, Gauge, kind_behind, kind_until, last_tour};

/// The minutes off that are a rest: ten hours, 49 USC 21103(a)(3).
pub const REST: u64 = 600;

/// How many minutes off are a rest. It does nothing: its clause is the law.
pub fn the_minutes_of_a_rest()
    ensures { REST ≡ 600 }
{}

/// Whether someone has rested at a minute, by a lawful list of events: no minute is worked; or the last worked one is ten
/// hours ago at least, and they were off for ten hours and so many minutes `more` in one stretch since their last tour
/// ended (since ever, if none has). With no minutes more it is 49 USC 21103(a)(3), with the excess (c)(4) and (e).
pub fn rest_ok(events: &[Event], at: Minute, more: u32) -> bool
    requires { IsLawful events.now }
    ensures value { result ≡ rest_ok events.now at more }
    ensures cases { Decides result (RestOk events.now at more) }
{
    let off_from = off_from(events).number();
    if off_from == 0 {
        return true;
    }
    are_ten_hours(off_from, at.number()) && was_off(events, REST + u64::from(more), at)
}

// Ten hours at least lie between a minute and another.
fn are_ten_hours(from: u64, to: u64) -> bool
    requires { from < 2 ^ 28 }
    ensures { result ≡ nat_le (from + REST) to }
{
    from + REST <= to
}

/// The minute at which rest ends, by a lawful list of events after which no tour runs: 0 where no minute is worked; ten
/// hours after the last worked minute, where before it ten hours and the excess were taken in one stretch since the last
/// tour ended; else ten hours and the excess after it. Where someone has not rested at some minute it is not 0.
pub fn rest_end(events: &[Event]) -> Minute
    requires lawful { IsLawful events.now }
    requires off { stage_of events.now ≡ stage.Off }
    ensures value { result ≡ rest_end events.now }
    ensures law { EndsRest events.now result }
    ensures range { (result ≡ 0) ⊎ (15_778_680 ≤ result) }
    ensures some { (at more : ℕ) → rest_ok events.now at more ≡ false → 0 < result }
{
    let off_from = off_from(events);
    if off_from == Minute::FIRST {
        return off_from;
    }
    let excess = u64::from(excess(events));
    if was_off(events, REST + excess, off_from) {
        off_from.after(REST)
    } else {
        off_from.after(REST + excess)
    }
}

// So many minutes off lie in one stretch between the end of the last tour and a minute.
fn was_off(events: &[Event], many: u64, to: Minute) -> bool
    requires lawful { IsLawful events.now }
    requires some { 0 < many }
    ensures { result ≡ was_off events.now many to }
{
    many <= longest_off(events, last_end(events).number(), to.number())
}

// Where the last tour ended, 0 if none has.
fn last_end(events: &[Event]) -> Minute
    ensures { result ≡ end_of (last_tour events.now) }
{
    match last_tour(events) {
        Some(tour) => tour.end,
        None => Minute::FIRST,
    }
}

// How many minutes the longest stretch of minutes off has between two minutes.
fn longest_off(events: &[Event], from: u64, to: u64) -> u64
    requires { IsLawful events.now }
    ensures { (many : ℕ) → 0 < many
        → nat_le many result ≡ has_stretch (is_off events.now) many from to }
{
    let mut gauge = Gauge::new(from);
    let mut before = None;
    for event in events {
        let first = event.first_minute().number().min(to);
        let last = event.last_minute().number().min(to);
        gauge = gauge
            .pass(first, kind_until(&before, event).is_off_duty())
            .pass(last, false);
        before = Some(*event);
    }
    gauge.pass(to, kind_behind(&before).is_off_duty()).longest()
}
