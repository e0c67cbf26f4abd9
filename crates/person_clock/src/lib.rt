//! What someone did, as numbers: a person's clock stands for a list of events without keeping it, and answers as the scans of
//! that list do.
#![tactic(auto)]

mod bars;
mod clock;
mod days_clock;
mod hours;
mod minutes;
mod rest_clock;

pub use clock::PersonClock;
