ghost use Rattle.std.specs.Prelude.{◌≡◌, ◌+◌, ◌-◌, ◌<◌, ◌≤◌, ◌^◌, IsTrue};
ghost use Rattle.desk_base.specs.Minute.{month_of};
ghost use Rattle.desk_base.specs.Month.{first_minute};
ghost use Rattle.month_hours.specs.Plan.{end_of};
ghost use Rattle.month_hours.specs.Shares.{shares_of};

use crate::month_share::MonthShare;
use crate::plan::Plan;
use desk_base::{Minute, Month};
use std::marker::Model;

/// The most minutes of a plan whose months are told apart: four times the 28 days that each month has at least.
pub const MOST_PLANNED: u32 = 161_280;

// How many months such a plan may have: that of its report, and four more.
const MOST_MONTHS: usize = 5;

/// A plan with what each of its months has of it, which is told apart once for whomever is asked about. A contract sees the plan.
#[derive(Debug, Drop)]
pub struct PlanMonths {
    plan: Plan,
    shares: [MonthShare; MOST_MONTHS],
    many: usize,
}

// How many minutes each month has at least: those of 28 days.
const SHORTEST_MONTH: u64 = 40_320;

// The plan has a minute, and all of them lie in the month of its report; it may be false for such a plan, too, that ends late in the month.
fn lies_in(plan: &Plan, first: Month) -> bool
    requires { end_of plan.now < 2 ^ 28 }
    ensures some { IsTrue result → plan.now.report < end_of plan.now }
    ensures over { IsTrue result → end_of plan.now ≤ first_minute (first + 1) }
{
    let end = plan.end();
    plan.report.number() < end && end <= first.first().number() + SHORTEST_MONTH
}

// The month behind that of the plan's last minute; the first is that of its report.
fn end_month(plan: &Plan, first: Month) -> u16
    requires range { end_of plan.now < 2 ^ 28 }
    requires first { first_minute first ≤ plan.now.report }
    ensures value { result ≡ month_of (end_of plan.now - 1) + 1 }
    ensures range { result ≤ 6125 }
{
    let last = Minute::new(plan.end().saturating_sub(1)).unwrap_or(plan.report);
    let month = if last < plan.report {
        Month::of(last)
    } else {
        Month::of_from(last, first)
    };
    month.number() + 1
}

impl Model for PlanMonths {
    ghost use Rattle.month_hours.specs.declared.plan.Plan.{Plan};
    ghost use Rattle.month_hours.specs.Shares.{AreShares};

    ghost Value = { Plan };

    ghost view = { λ m. m.plan };

    ghost invariant = { λ m. AreShares m.plan m.many m.shares };
}

impl PlanMonths {
    /// That of a plan of at most `MOST_PLANNED` minutes.
    pub fn of(plan: &Plan) -> PlanMonths
        requires few { plan.now.duty + plan.now.limbo ≤ MOST_PLANNED }
        requires range { end_of plan.now < 2 ^ 28 }
        ensures { result ≡ plan.now }
    {
        let first = Month::of(plan.report);
        if lies_in(plan, first) {
            return PlanMonths {
                plan: *plan,
                shares: [MonthShare::whole(plan, first); MOST_MONTHS],
                many: 1,
            };
        }
        let none = MonthShare {
            month: first,
            planned: 0,
            capped: 0,
        };
        let mut shares = [none; MOST_MONTHS];
        let mut many = 0;
        for number in first.number()..end_month(plan, first) {
            let month = Month::new(number).unwrap_or(first);
            shares[many] = MonthShare::of(plan, month);
            many += 1;
        }
        PlanMonths {
            plan: *plan,
            shares,
            many,
        }
    }

    /// The plan.
    pub fn plan(&self) -> Plan
        ensures { result ≡ self.now }
    {
        self.plan
    }

    /// What the months have of it, from that of the report to that of the plan's last minute.
    pub fn shares(&self) -> &[MonthShare]
        ensures { result.now ≡ shares_of self.now }
    {
        &self.shares[..self.many]
    }
}
