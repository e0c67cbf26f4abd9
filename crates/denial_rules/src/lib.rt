//! The bars that keep a person from being offered a vacancy, and the first of them that holds.
#![tactic(auto)]

mod bar;
mod facts;
mod table;

pub use bar::{Bar, name};
pub use facts::Facts;
pub use table::{busy_bar, first_bar, the_law_comes_last};
