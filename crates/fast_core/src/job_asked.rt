ghost use Rattle.std.specs.Prelude.{◌≡◌, ◌≤◌, ℕ, true};
ghost use Rattle.desk_base.specs.Window.{end_of};
ghost use Rattle.month_hours.specs.Plan.{end_of as end_of_plan};
ghost use Rattle.desk_model.specs.histories.History.{History};
ghost use Rattle.desk_model.specs.histories.Legal.{IsLegal};
ghost use Rattle.person_clock.specs.Clock.{last_now, minute_of};
ghost use Rattle.desk_state.specs.Clocks.{IsClock};
ghost use Rattle.fast_core.specs.Candidates.{IsJobAsked};

use desk_base::Minute;
use desk_model::{Job, each_vacancy_ends_in_the_window, no_event_lies_ahead};
use desk_register::{TurnedDown, VacancyIndex};
use month_hours::PlanMonths;
use person_clock::PersonClock;

/// A vacancy's job that persons are asked about at a moment, with what is the same for each of them: what the months have of its
/// plan, the vacancy's index among all, and who has turned which down.
#[derive(Drop)]
pub(crate) struct JobAsked<'a> {
    pub moment: Minute,
    pub job: &'a Job,
    pub plan: PlanMonths,
    pub vacancy: Option<VacancyIndex>,
    pub turned_down: &'a TurnedDown,
}

// The person did nothing after the moment, the plan's report isn't before it, and the plan ends by the window's end.
pub(crate) fn may_be_asked(clock: &PersonClock, asked: &JobAsked) -> bool
    ensures last { result ≡ true → minute_of (last_now clock.now) ≤ asked.now.moment }
    ensures report { result ≡ true → asked.now.moment ≤ asked.now.plan.report }
    ensures end { result ≡ true → end_of_plan asked.now.plan ≤ end_of clock.now.window }
    ensures asked { (h : History) (p : ℕ) → IsLegal h → IsClock clock.now h p → IsJobAsked asked.now h
        → result ≡ true }
{
    each_vacancy_ends_in_the_window();
    no_event_lies_ahead();
    let last = clock.last().unwrap_or(Minute::FIRST);
    let plan = asked.plan.plan();
    last <= asked.moment
        && asked.moment <= plan.report
        && plan.end() <= clock.window().end().number()
}
