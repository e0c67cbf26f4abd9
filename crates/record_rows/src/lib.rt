//! The records of a text of fields between commas, one after another: as `csv` reads them, or cut at line feeds and commas where it
//! would read just those; and the minute that records and lines in a row name alike.
#![tactic(auto)]

mod fields;
mod last_minute;
mod plain;
mod row;
mod rows;

pub use fields::{Fields, fill_with_line, the_most_fields_of_a_record};
pub use last_minute::LastMinute;
pub use plain::is_plain;
pub use row::Row;
pub use rows::Rows;
