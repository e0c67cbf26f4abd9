//! The hours of a month, by scanning events: how many of its minutes are worked, how many of its limbo minutes count
//! against the month's limit, and which month a plan would bring over a limit.
#![tactic(auto)]

mod laws;
mod limbo;
mod limit;
mod month_share;
mod over;
mod passed;
mod plan;
mod plan_months;
mod work;

pub use laws::{hours_in_words, limbo_when_an_event_comes};
pub use limbo::capped;
pub use limit::{LIMBO_LIMIT, Limit, MONTH_LIMIT, the_limits_of_a_month};
pub use month_share::MonthShare;
pub use over::Over;
pub use passed::{over_limbo, over_month};
pub use plan::Plan;
pub use plan_months::{MOST_PLANNED, PlanMonths};
pub use work::used;
