//! Cases of a book and a desk that are kept on a device. Nothing else is here: these tests need no second proof of `kept_book` and `kept_desk`, as they
//! would in them.
#![tactic(auto)]

#[cfg(test)]
mod guard_tests;
#[cfg(test)]
mod open_tests;
#[cfg(test)]
mod serve_tests;
#[cfg(test)]
mod stop_tests;
