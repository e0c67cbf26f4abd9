//! Cases of what a desk keeps in place of entries: persons, boards and vacancies, clocks, offers and holds, and the boards' orders.
//! Nothing else is here: these tests need no second proof of `desk_register` and `desk_state`, as they would in them.
#![tactic(auto)]

#[cfg(test)]
mod commands;
#[cfg(test)]
mod duty_tests;
#[cfg(test)]
mod lists_tests;
#[cfg(test)]
mod offers_tests;
#[cfg(test)]
mod register_tests;
