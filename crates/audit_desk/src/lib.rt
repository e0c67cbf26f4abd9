//! The audit of a journal: whether it is that of a legal history, and else which line is the first that is wrong.
#![tactic(auto)]

mod audit_entries;
mod journal;
mod lines;
mod outcome;
mod resumed;
mod verdict;
mod verdict_text;

pub use journal::{JOURNAL_BYTES, audit, resume, the_most_bytes_of_a_journal};
pub use lines::first_line;
pub use outcome::Outcome;
pub use resumed::Resumed;
pub use verdict::{Verdict, an_audit_finds_one_verdict};
pub use verdict_text::write_verdict;
