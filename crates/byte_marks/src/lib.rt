//! Where a byte stands in a text, found sixteen bytes at a time.
#![tactic(auto)]

mod lanes;
mod marks;

pub use marks::Marks;
