use crate::Why;
use call_history::Book;
use desk_model::DeskCore;
use turn_gate::Seat;

/// A session that has ended.
#[derive(Drop)]
pub struct Ended<C: DeskCore> {
    /// The seat.
    pub seat: Seat<Book<C>>,
    /// Why it ended.
    pub why: Why,
    /// How many calls the seat made in it.
    pub taken: u32,
}
