ghost use Rattle.std.specs.Prelude.{◌≡◌, ◌+◌, ◌<◌, ◌^◌, max};
ghost use Rattle.month_hours.specs.Plan.{end_of};

use desk_base::Minute;
use duty_events::DUTY_LIMIT;

/// So many minutes on duty from a report on, and behind them so many of limbo.
#[derive(Clone, Copy, Debug, PartialEq, Eq)]
pub struct Plan {
    pub report: Minute,
    pub duty: u32,
    pub limbo: u32,
}

impl Plan {
    /// The first minute after the plan.
    pub fn end(&self) -> u64
        ensures { result ≡ end_of self.now }
    {
        let duty = self.duty;
        let limbo = self.limbo;
        self.report.number() + u64::from(duty) + u64::from(limbo)
    }
}

// The first minute behind the time on duty that comes twelve hours after the report or later.
pub(crate) fn capped_from(report: u64, duty: u32) -> u64
    requires { report < 2 ^ 28 }
    ensures { result ≡ max (report + duty) (report + DUTY_LIMIT) }
{
    (report + u64::from(duty)).max(report + u64::from(DUTY_LIMIT))
}
