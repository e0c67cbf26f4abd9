use crate::Why;
use call_history::Book;
use desk_model::DeskCore;
use turn_gate::Seat;

/// A seat after one answer of its line.
#[derive(Drop)]
pub(crate) struct Answered<C: DeskCore> {
    /// The seat.
    pub seat: Seat<Book<C>>,
    /// Why the session ends, where it does.
    pub ends: Option<Why>,
}
