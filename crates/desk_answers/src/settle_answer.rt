ghost use Rattle.std.specs.Prelude.{◌≡◌, ℕ, IfOk};
ghost use Rattle.desk_base.specs.Minute.{IsInYears};
ghost use Rattle.desk_model.specs.declared.reply.Reply.{Reply};
ghost use Rattle.desk_model.specs.declared.offer.Offer.{Offer};
ghost use Rattle.desk_model.specs.histories.History.{History};
ghost use Rattle.desk_model.specs.answers.SettleAnswer.{settle_answer, accept_answer, decline_answer, no_answer};
ghost use Rattle.desk_answers.specs.Answered.{answered};

use crate::Reads;
use desk_base::{Minute, PersonNo, VacNo};
use desk_model::{Offer, Reply};

// The open offer of a vacancy, and the minute of its report.
#[derive(Clone, Copy, Debug)]
struct JobOffer {
    report: Minute,
    offer: Offer,
}

// The vacancy's open offer to this person; or why there is nothing to settle.
fn offer_to<R: Reads>(reads: &R, vac: VacNo, person: PersonNo) -> Result<JobOffer, Reply>
    ensures answer { (h : History) → R.tells reads.now h → (rest : ℕ → Offer → Reply)
        → answered (λ found. rest found.report found.offer) result ≡ settle_answer h vac person (λ job. rest job.report) }
    ensures made { IfOk result (λ found. IsInYears found.offer.made) }
{
    let Some(job) = &reads.vacancy(vac) else {
        return Err(Reply::UnknownVacancy);
    };
    let report = job.report();
    if reads.person(person).is_none() {
        return Err(Reply::UnknownPerson);
    }
    let Some(offer) = reads.offer(vac) else {
        return Err(Reply::NoOffer);
    };
    if offer.person == person {
        Ok(JobOffer { report, offer })
    } else {
        Err(Reply::NoOffer)
    }
}

/// The answer to `accept` at a moment.
pub(crate) fn accept_answer<R: Reads>(
    reads: &R,
    moment: Minute,
    vac: VacNo,
    person: PersonNo,
) -> Reply
    ensures { (h : History) → R.tells reads.now h → result ≡ accept_answer h moment vac person }
{
    let found = match offer_to(reads, vac, person) {
        Ok(found) => found,
        Err(refusal) => return refusal,
    };
    if found.report < moment {
        Reply::Lapsed(found.report)
    } else {
        Reply::Done
    }
}

/// The answer to `decline`, and to `withdraw`.
pub(crate) fn decline_answer<R: Reads>(reads: &R, vac: VacNo, person: PersonNo) -> Reply
    ensures { (h : History) → R.tells reads.now h → result ≡ decline_answer h vac person }
{
    match offer_to(reads, vac, person) {
        Ok(_) => Reply::Done,
        Err(refusal) => refusal,
    }
}

/// The answer to `noanswer` at a moment.
pub(crate) fn no_answer<R: Reads>(reads: &R, moment: Minute, vac: VacNo, person: PersonNo) -> Reply
    ensures { (h : History) → R.tells reads.now h → result ≡ no_answer h moment vac person }
{
    let found = match offer_to(reads, vac, person) {
        Ok(found) => found,
        Err(refusal) => return refusal,
    };
    let deadline = found.offer.made.after(u64::from(reads.opening().answer()));
    if moment < deadline {
        Reply::EarlyNoAnswer(deadline)
    } else {
        Reply::Done
    }
}
