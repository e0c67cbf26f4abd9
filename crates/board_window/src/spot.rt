use desk_base::PersonNo;

/// What stands at a position of a board.
#[derive(Clone, Copy, Debug, PartialEq, Eq)]
pub enum Spot {
    /// This person.
    Person(PersonNo),
    /// Nobody: the board has no more persons than this, 0 to 500.
    NoOne { length: u16 },
    /// The code is no board.
    NoBoard,
}
