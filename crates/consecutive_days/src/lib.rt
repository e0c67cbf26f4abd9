//! Days in a row on which tours begin, and the time off at home that they need, 49 USC 21103(a)(4)(A).
#![tactic(auto)]

mod days;
mod home;
mod run;

pub use days::{are_days_ok, days_in_words, days_ok, days_when_an_event_comes};
pub use home::is_at_home;
pub use run::{
    OFF_AFTER_SEVEN_DAYS, OFF_AFTER_SIX_DAYS, Run, SIX_DAYS, last_run, need, next_run, run_days,
    the_numbers_of_days_in_a_row,
};
