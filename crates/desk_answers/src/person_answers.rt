//! The answers to `enrol`, `off`, `on` and `qualify`.
ghost use Rattle.std.specs.Prelude.{◌≡◌};
ghost use Rattle.desk_model.specs.histories.History.{History};
ghost use Rattle.desk_model.specs.answers.EnrolAnswer.{enrol_answer};
ghost use Rattle.desk_model.specs.answers.MarkAnswer.{off_answer, on_answer, qualify_answer};

use crate::Reads;
use crate::event_answer::done_unless_frozen;
use desk_base::PersonNo;
use desk_model::{PERSON_LIMIT, Reply};

/// The answer to `enrol`.
pub(crate) fn enrol_answer<R: Reads>(reads: &R, person: PersonNo) -> Reply
    ensures { (h : History) → R.tells reads.now h → result ≡ enrol_answer h person }
{
    if reads.person(person).is_some() {
        Reply::Used
    } else if reads.person_count() >= PERSON_LIMIT {
        Reply::PersonsFull
    } else {
        Reply::Done
    }
}

/// The answer to `off`.
pub(crate) fn off_answer<R: Reads>(reads: &R, person: PersonNo) -> Reply
    ensures { (h : History) → R.tells reads.now h → result ≡ off_answer h person }
{
    if reads.person(person).is_none() {
        Reply::UnknownPerson
    } else if reads.is_marked_off(person) {
        Reply::Already
    } else {
        done_unless_frozen(reads.on_offer(person).or(reads.assigned(person)))
    }
}

/// The answer to `on`.
pub(crate) fn on_answer<R: Reads>(reads: &R, person: PersonNo) -> Reply
    ensures { (h : History) → R.tells reads.now h → result ≡ on_answer h person }
{
    if reads.person(person).is_none() {
        Reply::UnknownPerson
    } else if reads.is_marked_off(person) {
        Reply::Done
    } else {
        Reply::Already
    }
}

/// The answer to `qualify`.
pub(crate) fn qualify_answer<R: Reads>(reads: &R, person: PersonNo) -> Reply
    ensures { (h : History) → R.tells reads.now h → result ≡ qualify_answer h person }
{
    if reads.person(person).is_none() {
        Reply::UnknownPerson
    } else {
        Reply::Done
    }
}
