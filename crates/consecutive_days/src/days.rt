ghost use Rattle.std.specs.Prelude.{◌≡◌, ℕ, ◌+◌, ◌==◌, ◌&&◌, ◌||◌, nat_le, Bool, List, ◌≤◌, Some, if◌then◌else◌, [], ◌∷◌, ◌++◌};
ghost use Rattle.std.specs.Bool.{Decides};
ghost use Rattle.desk_base.specs.Day.{day_of};
ghost use Rattle.duty_events.specs.Lists.{IsLawful, IsNext, stage_of};
ghost use Rattle.duty_events.specs.declared.event.Event.{Event};
ghost use Rattle.duty_events.specs.EndedTours.{end_of, last_tour};
ghost use Rattle.consecutive_days.specs.Days.{days_ok, DaysOk, is_away, TellsOffAtHome, DaysInWords};
ghost use Rattle.consecutive_days.specs.Run.{need, run_days, last_start};
ghost use Rattle.consecutive_days.specs.Steps.{IsRunOf, last_day, next_run};
ghost use Rattle.duty_events.specs.Allowed.{first_minute};
ghost use Rattle.duty_events.specs.MinuteKind.{begins};

use crate::home::{is_home, longest_at_home};
use crate::run::{Run, SIX_DAYS, last_run, need};
use desk_base::{Code, Day, Minute};
use duty_events::{Event, Tour, last_tour};

/// Whether a person may report after the days in a row on which their tours began, 49 USC 21103(a)(4)(A). That is so
/// where these are less than six; or where the person has been off and at home for as many minutes in one stretch as they
/// need, between the end of the last tour that has ended, 0 if none has, and the report; or where they are six, the last
/// tour that has ended did so away from home, and the report is on the day after that of the last start.
pub fn days_ok(events: &[Event], home: Code, report: Minute) -> bool
    requires { IsLawful events.now }
    ensures value { result ≡ days_ok events.now home report }
    ensures cases { Decides result (DaysOk events.now home report) }
{
    let run = last_run(events);
    let tour = last_tour(events);
    let longest = longest_at_home(events, home, end_of(&tour), report);
    are_days_ok(&run, is_away(&tour, home), longest, report)
}

/// The same by these days in a row, whether the last tour that has ended did so away from home, and the longest stretch off
/// at home since then.
pub fn are_days_ok(run: &Run, away: bool, longest: u64, report: Minute) -> bool
    ensures value { result ≡ ((need run.now.days == 0) || nat_le (need run.now.days) longest
        || ((run.now.days == SIX_DAYS) && away && (day_of report == run.now.last + 1))) }
    ensures events { (es : List Event) (home : List ℕ) → IsRunOf run.now es → away ≡ is_away (last_tour es) home
        → TellsOffAtHome es home report longest → result ≡ days_ok es home report }
{
    let seventh = is_seventh_from_away(run.days, away, is_day_after(run, report));
    is_enough(need(run.days), longest, seventh)
}

// Where a tour ended, 0 if there is none.
fn end_of(tour: &Option<Tour>) -> u64
    ensures { result ≡ end_of tour.now }
{
    match tour {
        Some(tour) => tour.end.number(),
        None => 0,
    }
}

// Whether a tour ended away from home; false where none has ended.
fn is_away(tour: &Option<Tour>, home: Code) -> bool
    ensures { result ≡ is_away tour.now home }
{
    match tour {
        Some(tour) => !is_home(tour.place, home),
        None => false,
    }
}

// Whether a minute lies on the day after the last of these days.
fn is_day_after(run: &Run, minute: Minute) -> bool
    ensures { result ≡ (day_of minute == run.now.last + 1) }
{
    let day = Day::of(minute).number();
    u64::from(day) == u64::from(run.last) + 1
}

// So many days in a row are six of which the last ended away, and the report is on the next.
fn is_seventh_from_away(days: u32, away: bool, next_day: bool) -> bool
    ensures { result ≡ ((days == SIX_DAYS) && away && next_day) }
{
    days == SIX_DAYS && away && next_day
}

// No minutes are needed, or the longest stretch has as many, or it is the seventh day from away.
fn is_enough(needed: u32, longest: u64, seventh: bool) -> bool
    ensures { result ≡ ((needed == 0) || nat_le needed longest || seventh) }
{
    needed == 0 || u64::from(needed) <= longest || seventh
}

/// The test of the time off after days in a row tells its three cases, of any list of events. It does nothing: its clause is
/// the law.
pub fn days_in_words()
    ensures { DaysInWords }
{}

/// The start of the last tour and the days in a row to it, where one event more comes that may follow; and what `next_run`
/// asks for. It does nothing: its clauses are the law.
pub fn days_when_an_event_comes()
    ensures start { (es : List Event) (e : Event) → last_start (es ++ e ∷ [])
        ≡ (if begins (stage_of es) e then Some (first_minute e) else last_start es) }
    ensures days { (es : List Event) (e : Event) → IsLawful es → IsNext es e → run_days (es ++ e ∷ [])
        ≡ (if begins (stage_of es) e
        then next_run (run_days es) (last_day (last_start es)) (day_of (first_minute e)) else run_days es) }
    ensures order { (es : List Event) (e : Event) → IsLawful es → IsNext es e
        → last_day (last_start es) ≤ day_of (first_minute e) }
    ensures most { (es : List Event) → IsLawful es → run_days es ≤ last_day (last_start es) + 1 }
{}
