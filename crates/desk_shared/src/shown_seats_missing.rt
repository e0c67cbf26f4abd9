use crate::shown_book::ShownBook;
use crate::shown_desk::ShownDesk;
use call_history::Steps;
use turn_gate::Seat;

/// Fewer seats were given than the desk was made with: the desk and the seats, as they were.
pub struct ShownSeatsMissing<B: Steps> {
    /// The desk.
    pub desk: ShownDesk<B>,
    /// The seats that were given.
    pub seats: Vec<Seat<ShownBook<B>>>,
}
