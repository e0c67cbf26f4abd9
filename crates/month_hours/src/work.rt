ghost use Rattle.std.specs.Prelude.{◌≡◌, ◌≤◌};
ghost use Rattle.desk_base.specs.Month.{minutes_of};
ghost use Rattle.duty_events.specs.Lists.{IsLawful};
ghost use Rattle.month_hours.specs.Used.{used};

use desk_base::Month;
use duty_events::{Asked, Event};

/// How many minutes of the month are worked by a lawful list of events: on duty, limbo or other service,
/// 49 USC 21103(a)(1).
#[tactic(auto, unfolding(crate::specs::Used::used))]
pub fn used(events: &[Event], month: Month) -> u32
    requires { IsLawful events.now }
    ensures value { result ≡ used events.now month }
    ensures most { result ≤ minutes_of month }
{
    Asked::Worked.count(events, month.first().number(), month.minutes())
}
