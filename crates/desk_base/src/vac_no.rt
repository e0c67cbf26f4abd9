ghost use Rattle.std.specs.Prelude.{◌≡◌, ℕ};
ghost use Rattle.std.specs.Option.{SomeIff};
ghost use Rattle.desk_base.specs.Number.{IsNumber};

use crate::limits::NUMBER_LIMIT;
use std::marker::Model;

/// The number of a vacancy, 1 to 9,999,999.
#[derive(Clone, Copy, Debug, PartialEq, Eq, PartialOrd, Ord, Hash)]
pub struct VacNo(u32);

impl Model for VacNo {
    ghost Value = { ℕ };

    ghost view = { λ v. v.0 };

    ghost invariant = { λ v. IsNumber v.0 };

    ghost inverse = { λ n. record { 0 = n } };
}

impl VacNo {
    /// The vacancy of that number; `None` outside 1 to 9,999,999.
    pub fn new(number: u32) -> Option<VacNo>
        ensures { SomeIff result (IsNumber number) number }
    {
        if number >= 1 && number <= NUMBER_LIMIT {
            Some(VacNo(number))
        } else {
            None
        }
    }

    /// The number, 1 to 9,999,999.
    pub fn number(self) -> u32
        ensures value { result ≡ self }
        ensures range { IsNumber result }
    {
        self.0
    }
}
