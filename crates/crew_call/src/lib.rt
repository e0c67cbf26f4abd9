//! Crew calls: two vacancies that are called as one outcome, decided from entries alone.
#![tactic(auto)]

mod crew;
mod crew_outcome;
mod heard;
mod laws;
#[cfg(test)]
mod tests;

pub use crew::Crew;
pub use crew_outcome::CrewOutcome;
pub use laws::{what_an_outcome_says, who_ended_an_offer};
