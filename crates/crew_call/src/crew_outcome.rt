use desk_base::{PersonNo, VacNo};
use desk_model::Reply;

/// What a crew call came to.
#[derive(Clone, Copy, Debug, PartialEq, Eq)]
pub enum CrewOutcome {
    /// Both vacancies were offered, the first to the one person and the second to the other.
    Both { first: PersonNo, second: PersonNo },
    /// This vacancy was not offered, with this reply. If it is the second, the offer of the first was withdrawn.
    Neither { vac: VacNo, reply: Reply },
    /// The second vacancy was not offered, and another entry had closed the offer of the first, this one to this person, before it
    /// could be withdrawn.
    Between { vac: VacNo, person: PersonNo },
}
