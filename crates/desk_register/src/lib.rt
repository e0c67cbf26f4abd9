//! What a desk keeps of persons, boards and vacancies, each found by its number or code.
#![tactic(auto)]

mod add_last;
mod board_index;
mod boards;
mod copy_of;
mod enrolled;
mod find_in;
mod kept_person;
mod kept_vacancy;
mod person_index;
mod register;
mod roster;
mod row_hasher;
mod turned_down;
mod vacancies;
mod vacancy_index;

pub use board_index::BoardIndex;
pub use boards::Boards;
pub use enrolled::Enrolled;
pub use kept_person::KeptPerson;
pub use kept_vacancy::KeptVacancy;
pub use person_index::PersonIndex;
pub use register::Register;
pub use roster::{Roster, who_is_enrolled_has_an_index};
pub use turned_down::TurnedDown;
pub use vacancies::Vacancies;
pub use vacancy_index::VacancyIndex;
