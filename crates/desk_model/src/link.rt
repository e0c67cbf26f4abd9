use desk_base::{Code, PersonNo};

/// A position in the chain of a vacancy.
#[derive(Clone, Copy, Debug, PartialEq, Eq)]
pub struct Link {
    /// The board.
    pub board: Code,
    /// The position on it, from 1.
    pub position: u16,
    /// Who stands there.
    pub person: PersonNo,
}
