//! Cases of values, of bytes in and out, of crafts, sets and bars, and of records. Nothing else is here: these tests need no second
//! proof of `desk_base`, `desk_io`, `qualifications`, `denial_rules` and `record_rows`, as they would in them.
#![tactic(auto)]

#[cfg(test)]
mod bar_tests;
#[cfg(test)]
mod io_tests;
#[cfg(test)]
mod qualification_tests;
#[cfg(test)]
mod row_tests;
#[cfg(test)]
mod value_tests;
