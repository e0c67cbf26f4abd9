//! The gate at which callers take turns with one book: a ticket is drawn, and whose ticket is served has the book.
#![tactic(auto)]

mod deal;
mod gate;
mod lasting;
mod laws;
mod note;
mod phase;
mod rejoin;
mod seat;
mod short;
mod spent;
mod start;
mod steps;
mod terms;
mod tickets;
mod told;
mod turn;
mod view;
mod waiters;
mod wall;

pub use gate::Gate;
pub use lasting::Lasting;
pub use laws::what_one_entry_more_makes_known;
pub use seat::Seat;
pub use short::Short;
pub use spent::Spent;
pub use turn::Turn;
