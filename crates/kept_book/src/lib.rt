//! A book whose journal is kept on a device while the desk serves: each entry's line is appended and synced as it is answered.
#![tactic(auto)]

mod kept_book;

pub use kept_book::KeptBook;
