ghost use Rattle.std.specs.Prelude.{◌≡◌, ◌≤◌, ◌+◌, ℕ, Some, unwrap_or};
ghost use Rattle.desk_model.specs.declared.reply.Reply.{Reply};
ghost use Rattle.desk_model.specs.histories.History.{History};
ghost use Rattle.desk_model.specs.histories.Register.{vacancy_of};
ghost use Rattle.desk_model.specs.histories.Legal.{last_moment};
ghost use Rattle.desk_model.specs.answers.NextAnswer.{vacant_answer, unless_closed, next_answer};
ghost use Rattle.desk_answers.specs.Searched.{steps_of};

use crate::Reads;
use desk_base::{Minute, VacNo};
use desk_model::{Job, Reply, VacState};

/// Why a vacancy that stands so can't be offered; `None` where it is vacant.
pub(crate) fn closed(state: VacState) -> Option<Reply>
    ensures { (other : Reply) → unwrap_or result other ≡ unless_closed state other }
{
    match &state {
        VacState::Vacant => None,
        VacState::OnOffer(person) => Some(Reply::OfferOpen(*person)),
        VacState::Taken(_) | VacState::Begun(_) | VacState::Annulled => Some(Reply::Closed(state)),
    }
}

// The answer where the vacancy is vacant.
fn vacant_answer<R: Reads>(reads: &R, work: &mut R::Work, moment: Minute, job: &Job) -> Reply
    requires { R.suits reads.now work.old }
    ensures answer { (h : History) → R.tells reads.now h → (v : ℕ) → vacancy_of h v ≡ Some job.now
        → last_moment h ≤ moment → result ≡ vacant_answer h moment job.now }
    ensures suits { R.suits reads.now work.new }
    ensures steps { (h : History) → R.tells reads.now h → (v : ℕ) → vacancy_of h v ≡ Some job.now
        → last_moment h ≤ moment → R.steps work.new ≤ R.steps work.old + R.most reads.now h moment job.now }
{
    if job.report() < moment {
        return Reply::Lapsed(job.report());
    }
    match reads.first_free(work, moment, job) {
        Some(link) => Reply::Offered {
            person: link.person,
            board: link.board,
            position: link.position,
        },
        None => Reply::Unfilled {
            listed: reads.listed(work, &job.chain()),
        },
    }
}

/// The answer to `next` at a moment.
pub(crate) fn next_answer<R: Reads>(
    reads: &R,
    work: &mut R::Work,
    moment: Minute,
    vac: VacNo,
) -> Reply
    requires { R.suits reads.now work.old }
    ensures answer { (h : History) → R.tells reads.now h → last_moment h ≤ moment
        → result ≡ next_answer h moment vac }
    ensures suits { R.suits reads.now work.new }
    ensures steps { (h : History) → R.tells reads.now h → last_moment h ≤ moment
        → R.steps work.new ≤ R.steps work.old + steps_of (R.most reads.now h moment) (vacancy_of h vac) }
{
    let Some(job) = &reads.vacancy(vac) else {
        return Reply::UnknownVacancy;
    };
    match closed(reads.state(vac)) {
        Some(refusal) => refusal,
        None => vacant_answer(reads, work, moment, job),
    }
}
