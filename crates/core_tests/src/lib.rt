//! Cases of the desk's two cores: days that are drawn and one that is generated, which both answer alike, a desk and its copy, which go
//! on apart, forecasts of drawn days, which come true, and room for more steps than memory would hold. Days that are worked by hand,
//! and tables that are full, are examples of the program. Nothing else is here: these tests need no second proof of `plain_core` and
//! `fast_core`, as they would in them.
#![tactic(auto)]

#[cfg(test)]
mod commands;
#[cfg(test)]
mod fast_tests;
#[cfg(test)]
mod generated;
#[cfg(test)]
mod plain_tests;
