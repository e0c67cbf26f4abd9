ghost use Rattle.std.specs.Prelude.{◌≡◌, ◌≤◌, ◌<◌, ◌+◌, ℕ, IfNone, IfSome};
ghost use Rattle.desk_model.specs.histories.History.{History};
ghost use Rattle.desk_model.specs.histories.Legal.{last_moment};
ghost use Rattle.earliest_minute.specs.Least.{IsBetween, IsLeast};

use crate::laws::a_bar_that_is_gone_stays_gone;
use desk_answers::Reads;
use desk_base::{Minute, PersonNo};
use desk_model::{Job, Person};

// The minute in the middle of two, where there is one between them: as far from the one as from the other, or a minute nearer to the
// first.
fn middle(from: Minute, to: Minute) -> Option<Minute>
    ensures some { IfSome result (λ m. (from < m) × (m < to)) }
    ensures near { IfSome result (λ m. (m + m ≤ from + to) × (from + to ≤ m + m + 1)) }
    ensures none { IfNone result (to ≤ from + 1) }
{
    let low = from.number();
    let high = to.number();
    if high <= low + 1 {
        return None;
    }
    Minute::new(low + (high - low) / 2)
}

/// The first minute at which nothing bars an enrolled person from a job, where something bars them at the last moment, `from`, and
/// nothing at `to`. It is found by halving: a bar that is gone stays gone.
pub(crate) fn least<R: Reads>(
    reads: &R,
    work: &mut R::Work,
    from: Minute,
    to: Minute,
    job: &Job,
    number: PersonNo,
    person: &Person,
) -> Minute
    requires { R.suits reads.now work.old }
    ensures answer { (h : History) → R.tells reads.now h
        → IsBetween h job.now number person.now from to → from ≡ last_moment h
        → IsLeast h job.now number person.now result }
    ensures suits { R.suits reads.now work.new }
    ensures steps { R.steps work.new ≡ R.steps work.old }
{
    a_bar_that_is_gone_stays_gone();
    let mut barred = from;
    let mut clear = to;
    while let Some(minute) = middle(barred, clear) {
        match reads.bar(work, minute, job, number, person) {
            Some(_) => barred = minute,
            None => clear = minute,
        }
    }
    clear
}
