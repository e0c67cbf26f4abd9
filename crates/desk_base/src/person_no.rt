ghost use Rattle.std.specs.Prelude.{◌≡◌, ℕ};
ghost use Rattle.std.specs.Option.{SomeIff};
ghost use Rattle.desk_base.specs.Number.{IsNumber};

use crate::limits::NUMBER_LIMIT;
use std::marker::Model;

/// The number of an enrolled person, 1 to 9,999,999.
#[derive(Clone, Copy, Debug, PartialEq, Eq, PartialOrd, Ord, Hash)]
pub struct PersonNo(u32);

impl Model for PersonNo {
    ghost Value = { ℕ };

    ghost view = { λ p. p.0 };

    ghost invariant = { λ p. IsNumber p.0 };

    ghost inverse = { λ n. record { 0 = n } };
}

impl PersonNo {
    /// The person of that number; `None` outside 1 to 9,999,999.
    pub fn new(number: u32) -> Option<PersonNo>
        ensures { SomeIff result (IsNumber number) number }
    {
        if number >= 1 && number <= NUMBER_LIMIT {
            Some(PersonNo(number))
        } else {
            None
        }
    }

    /// The number, 1 to 9,999,999.
    pub fn number(self) -> u32
        ensures value { result ≡ self }
        ensures range { IsNumber result }
    {
        self.0
    }
}
