//! The first of a vacancy's chain of boards whom nothing bars.
#![tactic(auto)]

mod fill;
mod judge;
mod on_board;

pub use fill::{Found, first};
pub use judge::Judge;
