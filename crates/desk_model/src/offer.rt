use desk_base::{Code, Minute, PersonNo};

/// An offer of a vacancy.
#[derive(Clone, Copy, Debug, PartialEq, Eq)]
pub struct Offer {
    /// To whom.
    pub person: PersonNo,
    /// From which board.
    pub board: Code,
    /// At which moment.
    pub made: Minute,
}
