//! The answers to `at`, `vac`, `hours` and `explain`, which change nothing.
ghost use Rattle.std.specs.Prelude.{◌≡◌, ◌≤◌, ℕ, Some, IfOk};
ghost use Rattle.desk_model.specs.histories.History.{History};
ghost use Rattle.desk_model.specs.answers.QuestionAnswer.{at_answer, vac_answer};
ghost use Rattle.desk_model.specs.answers.HoursAnswer.{has_month, hours_answer};
ghost use Rattle.desk_model.specs.declared.reply.Reply.{Reply};
ghost use Rattle.desk_model.specs.declared.link.Link.{Link};
ghost use Rattle.desk_model.specs.histories.Register.{person_of, vacancy_of};
ghost use Rattle.desk_model.specs.histories.Legal.{last_moment};
ghost use Rattle.desk_model.specs.answers.ExplainAnswer.{judged_by, explain_answer};
ghost use Rattle.desk_answers.specs.Answered.{answered};

use crate::Reads;
use desk_base::{Code, Minute, Month, PersonNo, VacNo, Window};
use desk_model::{Job, Link, Person, Reply};

/// The answer to `at`.
pub(crate) fn at_answer<R: Reads>(
    reads: &R,
    work: &mut R::Work,
    board: &Code,
    position: u16,
) -> Reply
    requires { R.suits reads.now work.old }
    ensures answer { (h : History) → R.tells reads.now h → result ≡ at_answer h board.now position }
    ensures suits { R.suits reads.now work.new }
    ensures steps { R.steps work.new ≡ R.steps work.old }
{
    if reads.board(board).is_none() {
        return Reply::UnknownBoard(*board);
    }
    match reads.member_at(work, board, position) {
        Some(person) => Reply::Seen(person),
        None => Reply::NoOne {
            length: reads.member_count(work, board),
        },
    }
}

/// The answer to `vac`.
pub(crate) fn vac_answer<R: Reads>(reads: &R, vac: VacNo) -> Reply
    ensures { (h : History) → R.tells reads.now h → result ≡ vac_answer h vac }
{
    if reads.vacancy(vac).is_none() {
        Reply::UnknownVacancy
    } else {
        Reply::State(reads.state(vac))
    }
}

// The month is one of the window's.
fn has_month(window: &Window, month: Month) -> bool
    ensures { result ≡ has_month window.now month }
{
    let first = window.first().number();
    first <= month.number() && month.number() < first + u16::from(window.months())
}

/// The answer to `hours`.
pub(crate) fn hours_answer<R: Reads>(
    reads: &R,
    work: &mut R::Work,
    person: PersonNo,
    month: Month,
) -> Reply
    requires { R.suits reads.now work.old }
    ensures answer { (h : History) → R.tells reads.now h → result ≡ hours_answer h person month }
    ensures suits { R.suits reads.now work.new }
    ensures steps { R.steps work.new ≡ R.steps work.old }
{
    if reads.person(person).is_none() {
        return Reply::UnknownPerson;
    }
    if !has_month(&reads.opening().window(), month) {
        return Reply::OutsideWindow;
    }
    let used = reads.used(work, person, month);
    let capped = reads.capped(work, person, month);
    Reply::Hours { used, capped }
}

/// The first position of an enrolled person in the job's chain, where nothing bars them from it at this moment; or why they
/// can't have it.
pub(crate) fn judge<R: Reads>(
    reads: &R,
    work: &mut R::Work,
    moment: Minute,
    job: &Job,
    number: PersonNo,
    person: &Person,
) -> Result<Link, Reply>
    requires { R.suits reads.now work.old }
    ensures answer { (h : History) → R.tells reads.now h → (v : ℕ) → vacancy_of h v ≡ Some job.now
        → last_moment h ≤ moment → person_of h number ≡ Some person.now → (rest : Link → Reply)
        → answered rest result ≡ judged_by h moment job.now number rest person.now }
    ensures in_time { IfOk result (λ _. moment ≤ job.now.report) }
    ensures suits { R.suits reads.now work.new }
    ensures steps { R.steps work.new ≡ R.steps work.old }
{
    if job.report() < moment {
        return Err(Reply::Lapsed(job.report()));
    }
    let Some(link) = reads.position_in(work, &job.chain(), number) else {
        return Err(Reply::NotListed);
    };
    match reads.bar(work, moment, job, number, person) {
        Some(bar) => Err(Reply::Denied(bar)),
        None => Ok(link),
    }
}

/// The answer to `explain` at a moment.
pub(crate) fn explain_answer<R: Reads>(
    reads: &R,
    work: &mut R::Work,
    moment: Minute,
    vac: VacNo,
    number: PersonNo,
) -> Reply
    requires { R.suits reads.now work.old }
    ensures answer { (h : History) → R.tells reads.now h → last_moment h ≤ moment
        → result ≡ explain_answer h moment vac number }
    ensures suits { R.suits reads.now work.new }
    ensures steps { R.steps work.new ≡ R.steps work.old }
{
    let Some(job) = &reads.vacancy(vac) else {
        return Reply::UnknownVacancy;
    };
    let Some(person) = &reads.person(number) else {
        return Reply::UnknownPerson;
    };
    match judge(reads, work, moment, job, number, person) {
        Ok(link) => Reply::Clear {
            board: link.board,
            position: link.position,
        },
        Err(refusal) => refusal,
    }
}
