ghost use Rattle.std.specs.Prelude.{◌≡◌, ◌+◌, ◌<◌, ◌≤◌, List, [], ◌∷◌};
ghost use Rattle.desk_base.specs.Window.{end_of as window_end};
ghost use Rattle.duty_events.specs.declared.event.Event.{Event};
ghost use Rattle.month_hours.specs.declared.limit.Limit.{Limit};
ghost use Rattle.month_hours.specs.declared.limit.Limit.TheVariants as limit;
ghost use Rattle.month_hours.specs.Over.{so_far, first_over};
ghost use Rattle.month_hours.specs.Plan.{end_of};
ghost use Rattle.denial_rules.specs.Table.{first_some};
ghost use Rattle.law_bars.specs.Law.{month_row, limbo_row};
ghost use Rattle.person_clock.specs.Hours.{AreSoFar};

use denial_rules::Bar;
use desk_base::{Month, Window};
use month_hours::{Limit, Over, PlanMonths};
use tour_build::MonthSums;

/// The first bar of a month's hours, from a job of so many minutes on duty from the report on, and so many of limbo behind
/// them, by the worked minutes and the capped ones of the window's months.
pub(crate) fn hours_bar(
    window: &Window,
    used: &MonthSums,
    capped: &MonthSums,
    plan: &PlanMonths,
) -> Option<Bar>
    requires { end_of plan.now ≤ window_end window.now }
    ensures { (es : List Event) → AreSoFar limit.Hours window.now used.now es
        → AreSoFar limit.Limbo window.now capped.now es
        → result ≡ first_some (month_row es plan.now.report plan.now.duty plan.now.limbo
        ∷ limbo_row es plan.now.report plan.now.duty plan.now.limbo ∷ []) }
{
    if let Some(over) = first_over(&Limit::Hours, window, used, plan) {
        return Some(Bar::MonthHours {
            month: over.month,
            total: over.total,
        });
    }
    match first_over(&Limit::Limbo, window, capped, plan) {
        Some(over) => Some(Bar::LimboHours {
            month: over.month,
            total: over.total,
        }),
        None => None,
    }
}

// The first month of a plan that would pass the limit, with so many minutes so far in each month of the window.
fn first_over(limit: &Limit, window: &Window, sums: &MonthSums, plan: &PlanMonths) -> Option<Over>
    requires { end_of plan.now ≤ window_end window.now }
    ensures { (es : List Event) → AreSoFar limit.now window.now sums.now es
        → result ≡ first_over limit.now es plan.now }
{
    // A window lies in the years 2000 to 2099.
    window.months();
    for share in plan.shares() {
        let so_far = so_far(window, sums, share.month);
        if let Some(over) = limit.over_share(so_far, share) {
            return Some(over);
        }
    }
    None
}

// How many minutes a month has that isn't behind the window: none before it.
fn so_far(window: &Window, sums: &MonthSums, month: Month) -> u32
    ensures { (limit : Limit) (es : List Event) → AreSoFar limit window.now sums.now es
        → month < window.now.first + window.now.months → result ≡ so_far limit es month }
{
    if month < window.first() {
        0
    } else {
        sums.of(window, month)
    }
}
