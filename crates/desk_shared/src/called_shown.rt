use crate::shown_book::ShownBook;
use crate::{Receipt, SeatSpent};
use board_window::Showing;
use call_history::Steps;
use turn_gate::Seat;

/// What came of a call of a desk with windows, and the seat that made it.
pub struct CalledShown<B: Steps> {
    /// The seat.
    pub seat: Seat<ShownBook<B>>,
    /// What came of it.
    pub outcome: Result<Receipt, SeatSpent>,
    /// What the wall shows after it; `None` where the entry isn't told as kept, or the seat has no call left.
    pub showing: Option<Showing>,
}
