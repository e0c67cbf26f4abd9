ghost use Rattle.std.specs.Prelude.{◌≡◌, ◌<◌, ℕ};
ghost use Rattle.std.specs.Option.{SomeIff};
ghost use Rattle.desk_model.specs.declared.limits.TheConstants.{VACANCY_LIMIT};

use desk_model::VACANCY_LIMIT;
use std::marker::Model;

/// The index of a vacancy that was made among all, in the order in which they came, from 0 and below 20,000. A contract sees the number.
#[derive(Clone, Copy, Debug, PartialEq, Eq)]
pub struct VacancyIndex(usize);

impl Model for VacancyIndex {
    ghost Value = { ℕ };

    ghost view = { λ i. i.0 };

    ghost invariant = { λ i. i.0 < VACANCY_LIMIT };

    ghost inverse = { λ n. record { 0 = n } };
}

impl VacancyIndex {
    /// The index of that number; `None` from 20,000 on.
    pub fn new(number: usize) -> Option<VacancyIndex>
        ensures { SomeIff result (number < VACANCY_LIMIT) number }
    {
        if number < VACANCY_LIMIT {
            Some(VacancyIndex(number))
        } else {
            None
        }
    }

    /// The number, below 20,000.
    pub fn number(self) -> usize
        ensures value { result ≡ self }
        ensures range { result < VACANCY_LIMIT }
    {
        self.0
    }
}
