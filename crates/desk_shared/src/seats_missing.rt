use crate::Desk;
use call_history::Book;
use desk_model::DeskCore;
use turn_gate::Seat;

/// Fewer seats were given than the desk was made with: the desk and the seats, as they were.
#[derive(Drop)]
pub struct SeatsMissing<C: DeskCore> {
    /// The desk.
    pub desk: Desk<C>,
    /// The seats that were given.
    pub seats: Vec<Seat<Book<C>>>,
}
