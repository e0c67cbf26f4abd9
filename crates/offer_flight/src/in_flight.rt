use desk_base::{Minute, PersonNo, VacNo};
use desk_register::BoardIndex;

/// An offer that is open.
#[derive(Clone, Copy, Debug, PartialEq, Eq)]
pub struct InFlight {
    /// To whom it was made.
    pub person: PersonNo,
    /// Of which vacancy.
    pub vac: VacNo,
    /// On which board the person stood.
    pub board: BoardIndex,
    /// From which minute on it counts as not answered.
    pub deadline: Minute,
}
