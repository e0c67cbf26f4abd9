ghost use Rattle.std.specs.Prelude.{◌≡◌, ◌<◌, ℕ};
ghost use Rattle.std.specs.Option.{SomeIff};
ghost use Rattle.desk_model.specs.declared.limits.TheConstants.{PERSON_LIMIT};

use desk_model::PERSON_LIMIT;
use std::marker::Model;

/// The index of an enrolled person among all, in the order in which they came, from 0 and below 1,000. A contract sees the number.
#[derive(Clone, Copy, Debug, PartialEq, Eq)]
pub struct PersonIndex(usize);

impl Model for PersonIndex {
    ghost Value = { ℕ };

    ghost view = { λ i. i.0 };

    ghost invariant = { λ i. i.0 < PERSON_LIMIT };

    ghost inverse = { λ n. record { 0 = n } };
}

impl PersonIndex {
    /// The index of that number; `None` from 1,000 on.
    pub fn new(number: usize) -> Option<PersonIndex>
        ensures { SomeIff result (number < PERSON_LIMIT) number }
    {
        if number < PERSON_LIMIT {
            Some(PersonIndex(number))
        } else {
            None
        }
    }

    /// The number, below 1,000.
    pub fn number(self) -> usize
        ensures value { result ≡ self }
        ensures range { result < PERSON_LIMIT }
    {
        self.0
    }
}
