//! What bars somebody from a vacancy, and until when they are held.
ghost use Rattle.std.specs.Prelude.{◌≡◌, ℕ, Some, ◌∷◌, [], max};
ghost use Rattle.month_hours.specs.Plan.{plan_of};
ghost use Rattle.desk_model.specs.declared.person.Person.{Person};
ghost use Rattle.desk_model.specs.histories.History.{History};
ghost use Rattle.desk_model.specs.histories.Register.{person_of, persons};
ghost use Rattle.desk_model.specs.offers.Bars.{bar_of};
ghost use Rattle.desk_answers.specs.Asked.{IsAsked};
ghost use Rattle.fast_core.specs.KeptDesk.{Tells};
ghost use Rattle.fast_core.specs.Candidates.{IsJobAsked, IsCandidate};
ghost use Rattle.fast_core.specs.Search.{bar_for};
ghost use Rattle.desk_model.specs.offers.Held.{hold_end, held};
ghost use Rattle.desk_register.specs.Among.{index_among};

use crate::candidate::Candidate;
use crate::job_asked::JobAsked;
use crate::kept_desk::KeptDesk;
use denial_rules::{Bar, first_bar, the_law_comes_last};
use desk_base::{Code, Minute, PersonNo};
use desk_model::{Chain, Edition, Job, a_hold_is_by_boards};
use desk_register::PersonIndex;
use month_hours::{Plan, PlanMonths};

// What the months have of a job's plan.
fn months_of(job: &Job) -> PlanMonths
    ensures { result ≡ plan_of job.now.report job.now.duty job.now.limbo }
{
    let plan = Plan {
        report: job.report(),
        duty: u32::from(job.duty()),
        limbo: u32::from(job.limbo()),
    };
    PlanMonths::of(&plan)
}

// The later of two minutes.
fn later(one: Minute, other: Minute) -> Minute
    ensures { result ≡ max one other }
{
    one.max(other)
}

impl KeptDesk {
    /// The job of a vacancy that was made, for persons who are asked about at this moment, which isn't past its report.
    pub(crate) fn job_asked<'a>(&'a self, moment: Minute, job: &'a Job) -> JobAsked<'a>
        ensures moment { result.moment ≡ moment }
        ensures job { result.job.now ≡ job.now }
        ensures asked { (h : History) → Tells self.now h → IsAsked h moment job.now → IsJobAsked result h }
    {
        JobAsked {
            moment,
            job,
            plan: months_of(job),
            vacancy: self.people.register.vacancies().index(job.vac()),
            turned_down: self.people.register.turned_down(),
        }
    }

    // The first bar that keeps an enrolled person from the job that is asked about, of all bars. It stays a call, so that whoever is
    // busy is passed over in a few steps.
    #[inline(never)]
    fn bar_by_facts(&self, asked: &JobAsked, person: &Candidate) -> Option<Bar>
        ensures { (h : History) (p : ℕ) (who : Person) → Tells self.now h → IsJobAsked asked.now h → IsCandidate person.now h p
            → person_of h p ≡ Some who → result ≡ bar_of h asked.now.moment asked.now.job.now p who }
    {
        the_law_comes_last();
        let until = self.held(asked.moment, &asked.job.chain(), person.index);
        match first_bar(&person.facts(asked, until)) {
            Some(bar) => Some(bar),
            None => person.law(asked),
        }
    }

    /// The first bar that keeps an enrolled person from the job that is asked about; `None` where nothing does. The bars that are
    /// told before all others are looked for first, by themselves.
    #[inline(always)]
    pub(crate) fn bar_of(&self, asked: &JobAsked, person: &Candidate) -> Option<Bar>
        ensures { (h : History) (p : ℕ) (who : Person) → Tells self.now h → IsJobAsked asked.now h → IsCandidate person.now h p
            → person_of h p ≡ Some who → result ≡ bar_of h asked.now.moment asked.now.job.now p who }
    {
        match person.busy_bar() {
            Some(bar) => Some(bar),
            None => self.bar_by_facts(asked, person),
        }
    }

    /// The first bar that keeps a person from the job of a vacancy that was made, at this moment, which isn't past its report;
    /// `None` where nothing does. Who isn't enrolled counts as marked off.
    pub(crate) fn bar(&self, moment: Minute, job: &Job, number: PersonNo) -> Option<Bar>
        ensures { (h : History) → Tells self.now h → IsAsked h moment job.now
            → result ≡ bar_for h moment job.now number }
    {
        match self.people.candidate(number) {
            Some(person) => self.bar_of(&self.job_asked(moment, job), &person),
            None => Some(Bar::MarkedOff),
        }
    }

    // Until when the person is held by this board alone; the first minute of all where they aren't.
    fn hold_by(&self, board: &Code, person: PersonIndex) -> Minute
        ensures { (h : History) (p : ℕ) → Tells self.now h → index_among (persons h) p ≡ Some person
            → result ≡ hold_end h (board.now ∷ []) p }
    {
        match self.board_index(board) {
            Some(board) => self.offers.hold_end(person, board),
            None => Minute::FIRST,
        }
    }

    // Until when the person is held by a chain's boards.
    fn hold_end(&self, boards: &Chain, person: PersonIndex) -> Minute
        ensures { (h : History) (p : ℕ) → Tells self.now h → index_among (persons h) p ≡ Some person
            → result ≡ hold_end h boards.now p }
    {
        a_hold_is_by_boards();
        let mut end = Minute::FIRST;
        for board in boards.codes() {
            end = later(end, self.hold_by(board, person));
        }
        end
    }

    /// Until when the person at this index among all is held from vacancies of this chain, at this moment; `None` where they aren't.
    pub(crate) fn held(&self, moment: Minute, boards: &Chain, person: PersonIndex) -> Option<Minute>
        ensures { (h : History) (p : ℕ) → Tells self.now h → index_among (persons h) p ≡ Some person
            → result ≡ held h moment boards.now p }
    {
        if self.opening.edition() == Edition::One {
            return None;
        }
        let end = self.hold_end(boards, person);
        if moment < end { Some(end) } else { None }
    }
}
