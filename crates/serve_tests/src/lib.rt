//! Cases of the lines that are served at one desk. Nothing else is here: these tests need no second proof of `serve_desk`, as they
//! would in it.
#![tactic(auto)]

#[cfg(test)]
mod line_tests;
#[cfg(test)]
mod meeting_tests;
#[cfg(test)]
mod openings;
#[cfg(test)]
mod replay_tests;
#[cfg(test)]
mod serve_tests;
#[cfg(test)]
mod session_tests;
