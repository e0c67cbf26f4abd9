//! The commands of generated days, beside those that were worked out by hand from the rules and their draws.
mod commands;
mod edition_tests;
mod refusal_tests;
mod set_up_tests;
mod told;
