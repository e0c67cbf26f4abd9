use crate::Why;
use board_window::View;
use call_history::Steps;
use desk_shared::ShownBook;
use turn_gate::Seat;

/// A session with looks that has ended.
pub struct EndedWatched<B: Steps> {
    /// The seat.
    pub seat: Seat<ShownBook<B>>,
    /// Why it ended.
    pub why: Why,
    /// How many calls the seat made in it.
    pub taken: u32,
    /// The view.
    pub view: View,
}
