//! Cases of the lines of callers. Nothing else is here: these tests need no second proof of `caller_lines`, as they would in it.
#![tactic(auto)]

#[cfg(test)]
mod command_tests;
#[cfg(test)]
mod file_tests;
#[cfg(test)]
mod hear_tests;
#[cfg(test)]
mod memory_tests;
#[cfg(test)]
mod request_tests;
