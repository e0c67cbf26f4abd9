ghost use Rattle.std.specs.Prelude.{◌≡◌, ◌<◌, ℕ};
ghost use Rattle.std.specs.Option.{SomeIff};
ghost use Rattle.desk_model.specs.declared.limits.TheConstants.{BOARD_LIMIT};

use desk_model::BOARD_LIMIT;
use std::marker::Model;

/// The index of a board that was set up among all, in the order in which they came, from 0 and below 64. A contract sees the number.
#[derive(Clone, Copy, Debug, PartialEq, Eq)]
pub struct BoardIndex(usize);

impl Model for BoardIndex {
    ghost Value = { ℕ };

    ghost view = { λ i. i.0 };

    ghost invariant = { λ i. i.0 < BOARD_LIMIT };

    ghost inverse = { λ n. record { 0 = n } };
}

impl BoardIndex {
    /// The index of that number; `None` from 64 on.
    pub fn new(number: usize) -> Option<BoardIndex>
        ensures { SomeIff result (number < BOARD_LIMIT) number }
    {
        if number < BOARD_LIMIT {
            Some(BoardIndex(number))
        } else {
            None
        }
    }

    /// The index of that number.
    pub fn of(number: usize) -> BoardIndex
        requires { number < BOARD_LIMIT }
        ensures { result ≡ number }
    {
        BoardIndex(number)
    }

    /// The number, below 64.
    pub fn number(self) -> usize
        ensures value { result ≡ self }
        ensures range { result < BOARD_LIMIT }
    {
        self.0
    }
}
