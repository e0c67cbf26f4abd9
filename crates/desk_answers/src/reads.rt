ghost use Rattle.std.specs.Prelude.{◌≡◌, ◌≤◌, ◌+◌, true, Some, IfSome, length};
ghost use Rattle.desk_base.specs.Minute.{IsInYears};
ghost use Rattle.duty_events.specs.Allowed.{allow};
ghost use Rattle.duty_events.specs.Lists.{stage_of, latest};
ghost use Rattle.month_hours.specs.Used.{used};
ghost use Rattle.month_hours.specs.Capped.{capped};
ghost use Rattle.desk_model.specs.histories.Register.{person_of, persons, board_of, boards, vacancy_of, vacancies};
ghost use Rattle.desk_model.specs.boards.Boards.{is_on, boards_of, order, chain};
ghost use Rattle.desk_model.specs.histories.Duty.{events, is_closed};
ghost use Rattle.desk_model.specs.offers.Offers.{open_offer, on_offer};
ghost use Rattle.desk_model.specs.boards.Marks.{is_marked_off};
ghost use Rattle.desk_model.specs.offers.Assigned.{assigned};
ghost use Rattle.desk_model.specs.offers.States.{state_of};
ghost use Rattle.desk_model.specs.offers.Bars.{bar_of, first_free};
ghost use Rattle.desk_model.specs.answers.ExplainAnswer.{position_in};
ghost use Rattle.desk_model.specs.answers.QuestionAnswer.{member_at};
ghost use Rattle.desk_model.specs.answers.HoursAnswer.{has_month};
ghost use Rattle.desk_model.specs.histories.Legal.{last_moment};
ghost use Rattle.desk_answers.specs.Asked.{IsAsked};

use denial_rules::Bar;
use desk_base::{Code, Minute, Month, PersonNo, VacNo};
use desk_model::{BoardSetup, Chain, Job, Link, Offer, Opening, Person, VacState};
use duty_events::{Event, EventFault, Stage};

/// What can tell of the history that it stands for. It may want something to work with: lists, or a count of steps.
pub trait Reads {
    ghost use Rattle.std.specs.Prelude.{ℕ};
    ghost use Rattle.desk_model.specs.statements.Job.{JobValue};
    ghost use Rattle.desk_model.specs.histories.History.{History};
    ghost use Rattle.desk_model.specs.histories.Legal.{IsLegal};

    /// What it is lent to work with.
    type Work;

    // It stands for this history.
    ghost tells: { Self → History → Type 0 };

    // What it stands for is legal.
    ghost legal: { (reads : Self) (h : History) → tells reads h → IsLegal h };

    // That has room enough for it.
    ghost suits: { Self → Self.Work → Type 0 };

    // How many steps were counted there, each of a search of boards.
    ghost steps: { Self.Work → ℕ };

    // At most so many does a search of a job's chain take at a moment.
    ghost most: { Self → History → ℕ → JobValue → ℕ };

    /// How the desk was opened.
    fn opening(&self) -> Opening
        ensures { (h : History) → tells self.now h → result ≡ h.opening };

    /// The moment of the last entry, or the opening's first minute.
    fn last_moment(&self) -> Minute
        ensures { (h : History) → tells self.now h → result ≡ last_moment h };

    /// What the person was enrolled as; `None` where nobody has the number.
    fn person(&self, person: PersonNo) -> Option<Person>
        ensures { (h : History) → tells self.now h → result ≡ person_of h person };

    /// How many persons are enrolled.
    fn person_count(&self) -> usize
        ensures { (h : History) → tells self.now h → result ≡ length (persons h) };

    /// What the board was set up as; `None` where the code is no board.
    fn board(&self, board: &Code) -> Option<BoardSetup>
        ensures { (h : History) → tells self.now h → result ≡ board_of h board.now };

    /// How many boards there are.
    fn board_count(&self) -> usize
        ensures { (h : History) → tells self.now h → result ≡ length (boards h) };

    /// The job that the vacancy was made as; `None` where it never was.
    fn vacancy(&self, vac: VacNo) -> Option<Job>
        ensures { (h : History) → tells self.now h → result ≡ vacancy_of h vac };

    /// How many vacancies were made.
    fn vacancy_count(&self) -> usize
        ensures { (h : History) → tells self.now h → result ≡ length (vacancies h) };

    /// How a vacancy stands.
    fn state(&self, vac: VacNo) -> VacState
        ensures { (h : History) → tells self.now h → result ≡ state_of h vac };

    /// Whether the person is on the board.
    fn is_on(&self, person: PersonNo, board: &Code) -> bool
        ensures { (h : History) → tells self.now h → result ≡ is_on h person board.now };

    /// On how many boards the person is.
    fn list_count(&self, person: PersonNo) -> usize
        ensures { (h : History) → tells self.now h → result ≡ length (boards_of h person) };

    /// How many persons are on the board.
    fn member_count(&self, work: &mut Self::Work, board: &Code) -> u16
        requires { suits self.now work.old }
        ensures answer { (h : History) → tells self.now h → result ≡ length (order h board.now) }
        ensures suits { suits self.now work.new }
        ensures steps { steps work.new ≡ steps work.old };

    /// Who stands at this position of the board, from 1; `None` where nobody does.
    fn member_at(&self, work: &mut Self::Work, board: &Code, position: u16) -> Option<PersonNo>
        requires { suits self.now work.old }
        ensures answer { (h : History) → tells self.now h → result ≡ member_at h board.now position }
        ensures suits { suits self.now work.new }
        ensures steps { steps work.new ≡ steps work.old };

    /// Whether the person is marked off.
    fn is_marked_off(&self, person: PersonNo) -> bool
        ensures { (h : History) → tells self.now h → result ≡ is_marked_off h person };

    /// The vacancy that is assigned to the person; `None` where none is.
    fn assigned(&self, person: PersonNo) -> Option<VacNo>
        ensures { (h : History) → tells self.now h → result ≡ assigned h person };

    /// Whether what the person did before they were listed can't be told any more.
    fn is_closed(&self, person: PersonNo) -> bool
        ensures { (h : History) → tells self.now h → result ≡ is_closed h person };

    /// The open offer of the vacancy, made in the years 2000 to 2099; `None` where none is open.
    fn offer(&self, vac: VacNo) -> Option<Offer>
        ensures answer { (h : History) → tells self.now h → result ≡ open_offer h vac }
        ensures made { IfSome result (λ offer. IsInYears offer.made) };

    /// The vacancy that is on offer to the person; `None` where none is.
    fn on_offer(&self, person: PersonNo) -> Option<VacNo>
        ensures { (h : History) → tells self.now h → result ≡ on_offer h person };

    /// The stage that an event leads to after the person's events, or why it is not allowed.
    fn allow(
        &self,
        work: &mut Self::Work,
        person: PersonNo,
        event: &Event,
    ) -> Result<Stage, EventFault>
        requires { suits self.now work.old }
        ensures answer { (h : History) → tells self.now h
            → result ≡ allow (stage_of (events h person)) event.now (latest (events h person)) }
        ensures suits { suits self.now work.new }
        ensures steps { steps work.new ≡ steps work.old };

    /// How many minutes of a month of the window the person worked.
    fn used(&self, work: &mut Self::Work, person: PersonNo, month: Month) -> u32
        requires { suits self.now work.old }
        ensures answer { (h : History) → tells self.now h → has_month h.opening.window month ≡ true
            → result ≡ used (events h person) month }
        ensures suits { suits self.now work.new }
        ensures steps { steps work.new ≡ steps work.old };

    /// How many of the person's minutes of limbo in a month of the window are capped.
    fn capped(&self, work: &mut Self::Work, person: PersonNo, month: Month) -> u32
        requires { suits self.now work.old }
        ensures answer { (h : History) → tells self.now h → has_month h.opening.window month ≡ true
            → result ≡ capped (events h person) month }
        ensures suits { suits self.now work.new }
        ensures steps { steps work.new ≡ steps work.old };

    /// The first bar that keeps an enrolled person from the job of a vacancy that was made, at this moment, which isn't past its
    /// report; `None` where nothing does.
    fn bar(
        &self,
        work: &mut Self::Work,
        moment: Minute,
        job: &Job,
        number: PersonNo,
        person: &Person,
    ) -> Option<Bar>
        requires { suits self.now work.old }
        ensures answer { (h : History) → tells self.now h → IsAsked h moment job.now
            → person_of h number ≡ Some person.now → result ≡ bar_of h moment job.now number person.now }
        ensures suits { suits self.now work.new }
        ensures steps { steps work.new ≡ steps work.old };

    /// Of the job's chain the first position whose person nothing bars; `None` where all are barred. The vacancy was made, and the
    /// moment isn't past its report.
    fn first_free(&self, work: &mut Self::Work, moment: Minute, job: &Job) -> Option<Link>
        requires { suits self.now work.old }
        ensures answer { (h : History) → tells self.now h → IsAsked h moment job.now
            → result ≡ first_free h moment job.now }
        ensures suits { suits self.now work.new }
        ensures steps { (h : History) → tells self.now h → IsAsked h moment job.now
            → steps work.new ≤ steps work.old + most self.now h moment job.now };

    /// The first position of the chain that is this person's; `None` where none is.
    fn position_in(&self, work: &mut Self::Work, boards: &Chain, person: PersonNo) -> Option<Link>
        requires { suits self.now work.old }
        ensures answer { (h : History) → tells self.now h
            → result ≡ position_in (chain h boards.now) person }
        ensures suits { suits self.now work.new }
        ensures steps { steps work.new ≡ steps work.old };

    /// How many positions the chain has.
    fn listed(&self, work: &mut Self::Work, boards: &Chain) -> u16
        requires { suits self.now work.old }
        ensures answer { (h : History) → tells self.now h → result ≡ length (chain h boards.now) }
        ensures suits { suits self.now work.new }
        ensures steps { steps work.new ≡ steps work.old };
}
