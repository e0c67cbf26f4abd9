//! Cases of what is read of journals: audits, and the records of tours. Nothing else is here: these tests need no second proof of
//! `audit_desk` and `duty_record`, as they would in them.
#![tactic(auto)]

#[cfg(test)]
mod audit_tests;
#[cfg(test)]
mod tour_tests;
