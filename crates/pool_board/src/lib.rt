//! A board: its members in order, each with the minute from which they are ready.
#![tactic(auto)]

mod board;
mod members_full;
mod slots;

pub use board::{Board, MOST_MEMBERS};
pub use members_full::MembersFull;
