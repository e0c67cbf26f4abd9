ghost use Rattle.std.specs.Prelude.{◌≡◌};
ghost use Rattle.desk_model.specs.histories.History.{History};
ghost use Rattle.desk_model.specs.answers.GiveUpAnswer.{over_answer, annul_answer, drop_answer};

use crate::Reads;
use desk_base::{PersonNo, VacNo};
use desk_model::{Reply, VacState};

// Whether the vacancy can still be annulled, by how it stands.
fn over_answer(state: VacState) -> Reply
    ensures { result ≡ over_answer state }
{
    match &state {
        VacState::Begun(_) | VacState::Annulled => Reply::Closed(state),
        VacState::Vacant | VacState::OnOffer(_) | VacState::Taken(_) => Reply::Done,
    }
}

/// The answer to `annul`.
pub(crate) fn annul_answer<R: Reads>(reads: &R, vac: VacNo) -> Reply
    ensures { (h : History) → R.tells reads.now h → result ≡ annul_answer h vac }
{
    if reads.vacancy(vac).is_none() {
        Reply::UnknownVacancy
    } else {
        over_answer(reads.state(vac))
    }
}

/// The answer to `drop`.
pub(crate) fn drop_answer<R: Reads>(reads: &R, person: PersonNo) -> Reply
    ensures { (h : History) → R.tells reads.now h → result ≡ drop_answer h person }
{
    if reads.person(person).is_none() {
        Reply::UnknownPerson
    } else if reads.assigned(person).is_none() {
        Reply::NotAssigned
    } else {
        Reply::Done
    }
}
