//! What changes at a desk as it goes on, kept beside what a history says: each person's clock, the open offers and holds, and the
//! boards' members in order, with who is ready when.
#![tactic(auto)]

mod board_changes;
mod duty;
mod holds;
mod laws;
mod listings;
mod lists;
mod named_indexes;
mod offers;
mod orders;

pub use duty::Duty;
pub use laws::who_is_kept_on_a_board_is_on_it;
pub use listings::with_board;
pub use lists::Lists;
pub use named_indexes::{NEVER, NamedIndexes, the_last_minute};
pub use offers::Offers;
