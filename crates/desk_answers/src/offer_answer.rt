ghost use Rattle.std.specs.Prelude.{◌≡◌, ◌≤◌, ◌+◌};
ghost use Rattle.desk_model.specs.histories.History.{History};
ghost use Rattle.desk_model.specs.histories.Legal.{last_moment};
ghost use Rattle.desk_model.specs.answers.OfferAnswer.{named_answer, offer_answer};
ghost use Rattle.desk_model.specs.histories.Register.{vacancy_of};
ghost use Rattle.desk_answers.specs.Searched.{steps_of};

use crate::Reads;
use crate::next_answer::closed;
use crate::question_answers::judge;
use desk_base::{Minute, PersonNo, VacNo};
use desk_model::{Link, Reply};

// The answer where nothing bars the person, whose position this is, and the first whom nothing bars is this one.
fn named_answer(person: PersonNo, first: &Option<Link>, link: &Link) -> Reply
    ensures { result ≡ named_answer person first.now link.now }
{
    let offered = Reply::Offered {
        person,
        board: link.board,
        position: link.position,
    };
    match first {
        Some(first) if first.person != person => Reply::RunAround(first.person),
        _ => offered,
    }
}

/// The answer to `offer` at a moment.
pub(crate) fn offer_answer<R: Reads>(
    reads: &R,
    work: &mut R::Work,
    moment: Minute,
    vac: VacNo,
    number: PersonNo,
) -> Reply
    requires { R.suits reads.now work.old }
    ensures answer { (h : History) → R.tells reads.now h → last_moment h ≤ moment
        → result ≡ offer_answer h moment vac number }
    ensures suits { R.suits reads.now work.new }
    ensures steps { (h : History) → R.tells reads.now h → last_moment h ≤ moment
        → R.steps work.new ≤ R.steps work.old + steps_of (R.most reads.now h moment) (vacancy_of h vac) }
{
    let Some(job) = &reads.vacancy(vac) else {
        return Reply::UnknownVacancy;
    };
    let Some(person) = &reads.person(number) else {
        return Reply::UnknownPerson;
    };
    if let Some(refusal) = closed(reads.state(vac)) {
        return refusal;
    }
    match judge(reads, work, moment, job, number, person) {
        Ok(link) => named_answer(number, &reads.first_free(work, moment, job), &link),
        Err(refusal) => refusal,
    }
}
