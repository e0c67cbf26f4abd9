use crate::{Receipt, SeatSpent};
use call_history::Book;
use desk_model::DeskCore;
use turn_gate::Seat;

/// What came of a call, and the seat that made it.
#[derive(Drop)]
pub struct Called<C: DeskCore> {
    /// The seat.
    pub seat: Seat<Book<C>>,
    /// What came of it.
    pub outcome: Result<Receipt, SeatSpent>,
}
