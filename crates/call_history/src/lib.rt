//! Books: a desk with its entries, or with their count and the last of them, and what steps one.
#![tactic(auto)]

mod book;
mod counted_book;
mod full;
mod node;
mod past;
mod steps;

pub use book::Book;
pub use counted_book::CountedBook;
pub use full::Full;
pub use steps::Steps;
