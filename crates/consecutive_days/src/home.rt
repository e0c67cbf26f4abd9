ghost use Rattle.std.specs.Prelude.{◌≡◌, ℕ, ◌<◌, ◌&&◌, nat_le};
ghost use Rattle.std.specs.Str.{bytes_eq};
ghost use Rattle.duty_events.specs.MinuteKind.{is_off_duty};
ghost use Rattle.duty_events.specs.Lists.{IsLawful};
ghost use Rattle.duty_events.specs.Stretch.{has_stretch};
ghost use Rattle.consecutive_days.specs.Days.{is_off_at_home};

use desk_base::{Code, Minute};
use duty_events::{
    Event, Gauge, MinuteKind, Stage, kind_behind, kind_until, place_behind, place_until,
};

/// How many minutes the longest stretch has in which the person is off and at home, from one minute on and before
/// another.
pub(crate) fn longest_at_home(events: &[Event], home: Code, from: u64, to: Minute) -> u64
    requires { IsLawful events.now }
    ensures { (many : ℕ) → 0 < many
        → nat_le many result ≡ has_stretch (is_off_at_home events.now home) many from to }
{
    let to = to.number();
    let mut gauge = Gauge::new(from);
    let mut place = home;
    let mut stage = Stage::Off;
    let mut before = None;
    for event in events {
        let kind = kind_until(&before, event);
        let here = place_until(&stage, event, place);
        let first = event.first_minute().number();
        let last = event.last_minute().number();
        gauge = gauge.pass(first.min(to), is_at_home(&kind, here, home));
        gauge = gauge.pass(last.min(to), false);
        place = place_behind(event, place);
        stage = stage.after(event);
        before = Some(*event);
    }
    let kind = kind_behind(&before);
    gauge.pass(to, is_at_home(&kind, place, home)).longest()
}

/// Whether minutes of that kind at a place are off and at home.
pub fn is_at_home(kind: &MinuteKind, place: Code, home: Code) -> bool
    ensures { result ≡ (is_off_duty kind.now && bytes_eq place home) }
{
    kind.is_off_duty() && is_home(place, home)
}

/// Whether a place is the person's home.
pub(crate) fn is_home(place: Code, home: Code) -> bool
    ensures { result ≡ bytes_eq place home }
{
    place == home
}
