//! Cases of open offers, of boards and their trees, and of who fills a vacancy. Nothing else is here: these tests need no second
//! proof of `offer_flight`, `slot_tree`, `pool_board` and `vacancy_fill`, as they would in them.
#![tactic(auto)]

#[cfg(test)]
mod board_tests;
#[cfg(test)]
mod fill_tests;
#[cfg(test)]
mod flight_tests;
#[cfg(test)]
mod given;
#[cfg(test)]
mod tree_tests;
