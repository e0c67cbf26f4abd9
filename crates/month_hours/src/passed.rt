ghost use Rattle.std.specs.Prelude.{◌≡◌, ◌+◌, ◌<◌, ◌^◌, IfSome};
ghost use Rattle.duty_events.specs.Lists.{IsLawful};
ghost use Rattle.month_hours.specs.declared.limit.Limit.TheVariants.{Hours, Limbo};
ghost use Rattle.month_hours.specs.Plan.{plan_of};
ghost use Rattle.month_hours.specs.Over.{over_month, over_limbo, TellsFirst, IsMonthOfPlan};

use crate::limit::Limit;
use crate::over::Over;
use crate::plan::Plan;
use desk_base::Minute;
use duty_events::Event;

/// The first month of a plan that would have more than 276 hours with it, `MONTH_LIMIT`, 49 USC 21103(a)(1): it holds a
/// minute of the plan, and its worked minutes and the plan's are more than that. The plan is `duty` minutes from the report on and `limbo` behind
/// them.
pub fn over_month(events: &[Event], report: Minute, duty: u32, limbo: u32) -> Option<Over>
    requires lawful { IsLawful events.now }
    requires range { report + duty + limbo < 2 ^ 28 }
    ensures value { result ≡ over_month events.now (plan_of report duty limbo) }
    ensures first { TellsFirst Hours events.now (plan_of report duty limbo) result }
    ensures months { IfSome result (λ over.
        IsMonthOfPlan (plan_of report duty limbo) over.month) }
{
    let plan = Plan {
        report,
        duty,
        limbo,
    };
    Limit::Hours.first_over(events, &plan)
}

/// The first month of a plan that would have more than 30 hours of limbo behind twelve of a tour with it, `LIMBO_LIMIT`, 49
/// USC 21103(c)(1): it holds a minute of the plan, and its capped minutes and those of the plan's limbo that come twelve
/// hours after the report or later are more than that. One that has more already is such a month. The plan is `duty` minutes from the report on and `limbo` behind them.
pub fn over_limbo(events: &[Event], report: Minute, duty: u32, limbo: u32) -> Option<Over>
    requires lawful { IsLawful events.now }
    requires range { report + duty + limbo < 2 ^ 28 }
    ensures value { result ≡ over_limbo events.now (plan_of report duty limbo) }
    ensures first { TellsFirst Limbo events.now (plan_of report duty limbo) result }
    ensures months { IfSome result (λ over.
        IsMonthOfPlan (plan_of report duty limbo) over.month) }
{
    let plan = Plan {
        report,
        duty,
        limbo,
    };
    Limit::Limbo.first_over(events, &plan)
}
