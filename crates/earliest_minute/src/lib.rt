//! From when on nothing bars a person from a vacancy, over what a core can tell of its history.
#![tactic(auto)]

mod clear_search;
mod earliest;
mod laws;
mod least;

pub use clear_search::earliest_clear;
pub use earliest::Earliest;
pub use laws::{a_bar_that_is_gone_stays_gone, the_earliest_minute_is_one};
