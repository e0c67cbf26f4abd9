use crate::Why;
use call_history::Steps;
use desk_shared::ShownBook;
use turn_gate::Seat;

/// A seat after one answer of its line, where looks are heard.
pub(crate) struct AnsweredWatched<B: Steps> {
    /// The seat.
    pub seat: Seat<ShownBook<B>>,
    /// Why the session ends, where it does.
    pub ends: Option<Why>,
}
