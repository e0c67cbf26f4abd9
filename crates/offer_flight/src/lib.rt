//! The offers that are open: which one a vacancy has, and which one a person.
#![tactic(auto)]

mod flight;
mod in_flight;
mod indexes;

pub use flight::{Flight, OFFERS, the_most_open_offers};
pub use in_flight::InFlight;
