//! Days that are made from a number, for a desk to be tried on: each command follows from the number and from the last entry.
#![tactic(auto)]

mod codes;
mod course;
mod day_gen;
mod due;
mod laws;
mod numbers;
mod plan;
mod set_up;

pub use day_gen::DayGen;
pub use due::Due;
pub use laws::{
    a_generated_day_grows, a_generated_day_is_legal, what_is_due_is_for_the_last_vacancy,
};
pub use numbers::{
    ANSWER, COMMANDS, COMMANDS_OF_TWO, FIRST_MONTH, INCREMENT, MONTHS, MULTIPLIER, PERSONS,
    POOL_PERSONS, SET_UP, most_commands, the_numbers_of_a_day,
};

#[cfg(test)]
mod tests;
