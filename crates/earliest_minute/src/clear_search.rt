ghost use Rattle.std.specs.Prelude.{◌≡◌, ◌≤◌, ℕ, Some};
ghost use Rattle.desk_model.specs.histories.History.{History};
ghost use Rattle.desk_model.specs.histories.Legal.{last_moment};
ghost use Rattle.desk_model.specs.histories.Register.{person_of, vacancy_of};
ghost use Rattle.earliest_minute.specs.When.{IsTimeOrBar, IsWhen};

use crate::earliest::Earliest;
use crate::laws::a_bar_that_is_gone_stays_gone;
use crate::least::least;
use desk_answers::Reads;
use desk_base::{Minute, PersonNo, VacNo};
use desk_model::{Job, Person};

// The first minute at which nothing bars an enrolled person from the job of a vacancy, from the last moment on, which isn't past its
// report; or what bars them at the report.
fn time_or_bar<R: Reads>(
    reads: &R,
    work: &mut R::Work,
    last: Minute,
    job: &Job,
    number: PersonNo,
    person: &Person,
) -> Earliest
    requires { R.suits reads.now work.old }
    ensures answer { (h : History) → R.tells reads.now h → (v : ℕ) → vacancy_of h v ≡ Some job.now
        → person_of h number ≡ Some person.now → last ≡ last_moment h → last ≤ job.now.report
        → IsTimeOrBar h job.now number person.now result }
    ensures suits { R.suits reads.now work.new }
    ensures steps { R.steps work.new ≡ R.steps work.old }
{
    a_bar_that_is_gone_stays_gone();
    let report = job.report();
    if let Some(bar) = reads.bar(work, report, job, number, person) {
        return Earliest::Barred(bar);
    }
    match reads.bar(work, last, job, number, person) {
        None => Earliest::Clear(last),
        Some(_) => Earliest::Clear(least(reads, work, last, report, job, number, person)),
    }
}

/// From when on nothing bars a person from a vacancy, as things stand. The first four answers come in their order, just where
/// `explain` at the last moment has them.
pub fn earliest_clear<R: Reads>(
    reads: &R,
    work: &mut R::Work,
    vac: VacNo,
    number: PersonNo,
) -> Earliest
    requires { R.suits reads.now work.old }
    ensures answer { (h : History) → R.tells reads.now h → IsWhen h vac number result }
    ensures suits { R.suits reads.now work.new }
    ensures steps { R.steps work.new ≡ R.steps work.old }
{
    let Some(job) = &reads.vacancy(vac) else {
        return Earliest::UnknownVacancy;
    };
    let Some(person) = &reads.person(number) else {
        return Earliest::UnknownPerson;
    };
    let last = reads.last_moment();
    if job.report() < last {
        return Earliest::Lapsed(job.report());
    }
    match reads.position_in(work, &job.chain(), number) {
        None => Earliest::NotListed,
        Some(_) => time_or_bar(reads, work, last, job, number, person),
    }
}
