use crate::TooFew;
use crate::shown_book::ShownBook;
use board_window::Showing;
use call_history::Steps;
use crew_call::CrewOutcome;
use desk_model::Entry;
use turn_gate::Seat;

/// What came of a crew call of a desk with windows, and the seat that made it.
pub struct CrewCalled<B: Steps> {
    /// The seat.
    pub seat: Seat<ShownBook<B>>,
    /// Its entries in their order, at the front.
    pub entries: [Option<Entry>; 3],
    /// What came of it.
    pub outcome: Result<CrewOutcome, TooFew>,
    /// What the wall shows after the last of them; `None` where one of them isn't told as kept, or no call was made.
    pub showing: Option<Showing>,
}
