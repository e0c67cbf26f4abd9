ghost use Rattle.std.specs.Prelude.{◌≡◌, ◌⊎◌};
ghost use Rattle.desk_base.specs.Minute.{IsInYears};
ghost use Rattle.duty_events.specs.Lists.{IsLawful};
ghost use Rattle.rest_rules.specs.OffFrom.{off_from, IsOffFrom, end_after};

use desk_base::Minute;
use duty_events::{Event, kind_until};

/// One past the last worked minute of a lawful list of events, 0 if none is worked. Where one is it lies in the years
/// 2000 to 2099, as events do.
pub fn off_from(events: &[Event]) -> Minute
    requires { IsLawful events.now }
    ensures value { result ≡ off_from events.now }
    ensures minutes { IsOffFrom events.now result }
    ensures range { (result ≡ 0) ⊎ IsInYears result }
{
    let mut end = Minute::FIRST;
    let mut latest = Minute::FIRST;
    let mut before = None;
    for event in events {
        let first = event.first_minute();
        let last = event.last_minute();
        end = end_after(end, kind_until(&before, event).is_worked(), latest, first);
        end = end_after(end, true, first, last);
        latest = last;
        before = Some(*event);
    }
    end
}

// Where work ends that ended at a minute before those from one on and before another, which are all worked or none.
fn end_after(end: Minute, is_worked: bool, from: Minute, to: Minute) -> Minute
    ensures { result ≡ end_after end is_worked from to }
{
    if is_worked && from < to { to } else { end }
}
