//! One desk for many callers, who take turns at it; and one with windows on its boards.
#![tactic(auto)]

mod called;
mod called_shown;
mod crew_called;
mod desk;
mod receipt;
mod seat_spent;
mod seats_missing;
mod shown_book;
mod shown_desk;
mod shown_seats_missing;
mod too_few;

pub use called::Called;
pub use called_shown::CalledShown;
pub use crew_called::CrewCalled;
pub use desk::Desk;
pub use receipt::Receipt;
pub use seat_spent::SeatSpent;
pub use seats_missing::SeatsMissing;
pub use shown_book::{ShownBook, a_desk_has_one_wall};
pub use shown_desk::ShownDesk;
pub use shown_seats_missing::ShownSeatsMissing;
pub use too_few::TooFew;
