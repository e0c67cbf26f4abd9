ghost use Rattle.std.specs.Prelude.{◌≡◌, ◌<◌, ◌^◌, ◌≤◌, ◌+◌, ◌&&◌, nat_lt};
ghost use Rattle.duty_events.specs.Lists.{IsLawful};
ghost use Rattle.month_hours.specs.Plan.{end_of};
ghost use Rattle.month_hours.specs.Over.{most, so_far, over_with, first_over};
ghost use Rattle.month_hours.specs.Shares.{added_by, over_share};
ghost use Rattle.desk_base.specs.Month.{minutes_of};

use crate::limbo::capped;
use crate::month_share::MonthShare;
use crate::over::Over;
use crate::plan::Plan;
use crate::work::used;
use desk_base::{Minute, Month};
use duty_events::Event;

/// The minutes that a month may have on duty, in limbo and in other service: 276 hours, 49 USC 21103(a)(1).
pub const MONTH_LIMIT: u32 = 16_560;

/// The minutes of limbo behind twelve hours of a tour that a month may have: 30 hours, 49 USC 21103(c)(1).
pub const LIMBO_LIMIT: u32 = 1_800;

/// What the names of a month's limits stand for, in minutes. It does nothing: its clauses are the law.
pub fn the_limits_of_a_month()
    ensures month { MONTH_LIMIT ≡ 16_560 }
    ensures limbo { LIMBO_LIMIT ≡ 1_800 }
{}

/// A limit on the minutes of a month.
#[derive(Clone, Copy, Debug, PartialEq, Eq)]
pub enum Limit {
    /// Of worked minutes, 49 USC 21103(a)(1).
    Hours,
    /// Of limbo behind twelve hours of a tour, 21103(c)(1).
    Limbo,
}

impl Limit {
    // How many minutes a month may have.
    fn most(&self) -> u32
        ensures { result ≡ most self.now }
    {
        match self {
            Limit::Hours => MONTH_LIMIT,
            Limit::Limbo => LIMBO_LIMIT,
        }
    }

    // How many the month has so far.
    fn so_far(&self, events: &[Event], month: Month) -> u32
        requires { IsLawful events.now }
        ensures value { result ≡ so_far self.now events.now month }
        ensures most { result ≤ minutes_of month }
    {
        match self {
            Limit::Hours => used(events, month),
            Limit::Limbo => capped(events, month),
        }
    }

    // How many the share adds.
    fn added_by(&self, share: &MonthShare) -> u32
        ensures { result ≡ added_by self.now share.now }
    {
        match self {
            Limit::Hours => share.planned,
            Limit::Limbo => share.capped,
        }
    }

    /// The share's month with its total, where it holds a minute of the plan and would pass the limit with it, having so many
    /// minutes so far.
    pub fn over_share(&self, so_far: u32, share: &MonthShare) -> Option<Over>
        ensures { so_far + added_by self.now share.now < 2 ^ 32
            → result ≡ over_share self.now so_far share.now }
    {
        let total = so_far.saturating_add(self.added_by(share));
        if is_over(share.planned, total, self.most()) {
            Some(Over {
                month: share.month,
                total,
            })
        } else {
            None
        }
    }

    // The same of a month, which has so many minutes so far.
    fn over_with(&self, so_far: u32, plan: &Plan, month: Month) -> Option<Over>
        requires { so_far ≤ minutes_of month }
        ensures { result ≡ over_with self.now so_far plan.now month }
    {
        self.over_share(so_far, &MonthShare::of(plan, month))
    }

    // The first month that would pass the limit, of those from the report's to that of the plan's last minute.
    pub(crate) fn first_over(&self, events: &[Event], plan: &Plan) -> Option<Over>
        requires lawful { IsLawful events.now }
        requires range { end_of plan.now < 2 ^ 28 }
        ensures { result ≡ first_over self.now events.now plan.now }
    {
        let last_minute = Minute::new(plan.end().saturating_sub(1))?;
        let first = Month::of(plan.report).number();
        let end = Month::of(last_minute).number() + 1;
        for number in first..end {
            let month = Month::new(number)?;
            let so_far = self.so_far(events, month);
            if let Some(over) = self.over_with(so_far, plan, month) {
                return Some(over);
            }
        }
        None
    }
}

// A month with so many minutes of a plan, and so many in all, would pass the limit.
fn is_over(planned: u32, total: u32, most: u32) -> bool
    ensures { result ≡ (nat_lt 0 planned && nat_lt most total) }
{
    planned > 0 && total > most
}
