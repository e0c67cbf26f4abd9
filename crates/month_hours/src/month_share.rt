ghost use Rattle.std.specs.Prelude.{◌≡◌, ◌≤◌, ◌+◌};
ghost use Rattle.desk_base.specs.Month.{first_minute};
ghost use Rattle.month_hours.specs.declared.plan_months.TheConstants.{MOST_PLANNED};
ghost use Rattle.month_hours.specs.Plan.{end_of};
ghost use Rattle.month_hours.specs.Shares.{share_of};

use crate::plan::{Plan, capped_from};
use desk_base::Month;
use duty_events::{DUTY_LIMIT, shared};

/// What a month has of a plan.
#[derive(Clone, Copy, Debug, PartialEq, Eq)]
pub struct MonthShare {
    pub month: Month,
    /// How many of its minutes are the plan's.
    pub planned: u32,
    /// How many are the plan's limbo that comes twelve hours after the report or later.
    pub capped: u32,
}

impl MonthShare {
    // That of this month.
    pub(crate) fn of(plan: &Plan, month: Month) -> MonthShare
        ensures { result ≡ share_of plan.now month }
    {
        let report = plan.report.number();
        let end = plan.end();
        let first = month.first().number();
        let many = month.minutes();
        MonthShare {
            month,
            planned: shared(report, end, first, many),
            capped: shared(capped_from(report, plan.duty), end, first, many),
        }
    }

    // That of a month in which the whole plan lies.
    pub(crate) fn whole(plan: &Plan, month: Month) -> MonthShare
        requires few { plan.now.duty + plan.now.limbo ≤ MOST_PLANNED }
        requires begun { first_minute month ≤ plan.now.report }
        requires over { end_of plan.now ≤ first_minute (month + 1) }
        ensures { result ≡ share_of plan.now month }
    {
        let below = DUTY_LIMIT.saturating_sub(plan.duty);
        MonthShare {
            month,
            planned: plan.duty + plan.limbo,
            capped: plan.limbo.saturating_sub(below),
        }
    }
}
