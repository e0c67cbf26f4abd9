//! What a person can do: crafts and qualifications.
#![tactic(auto)]

mod craft;
mod quals;

pub use craft::Craft;
pub use quals::{Quals, QualsText};
