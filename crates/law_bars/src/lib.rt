//! The bars of 49 USC 21103: the first that keeps someone from a job, by what they did.
#![tactic(auto)]

mod days;
mod hours;
mod laws;
mod rest;
mod section;

pub use days::bar_of_days;
pub use laws::{
    no_bar_where_the_law_is_kept, what_a_bar_of_the_law_keeps, who_is_rested_was_off_ten_hours,
};
pub use section::law_bar;
