//! What bears on whether a person may have a vacancy.

ghost use Rattle.std.specs.Prelude.{◌<◌, ◌≡◌, ℕ, Some, ◌≤◌, true};
ghost use Rattle.desk_model.specs.declared.limits.TheConstants.{PERSON_LIMIT};
ghost use Rattle.denial_rules.specs.declared.bar.Bar.{Bar as BarValue};
ghost use Rattle.denial_rules.specs.Table.{without_law};
ghost use Rattle.desk_model.specs.declared.person.Person.{Person};
ghost use Rattle.desk_model.specs.histories.History.{History};
ghost use Rattle.desk_model.specs.histories.Register.{person_of};
ghost use Rattle.desk_model.specs.histories.Duty.{in_tour};
ghost use Rattle.desk_model.specs.offers.Held.{held};
ghost use Rattle.desk_model.specs.offers.TurnedDown.{has_turned_down};
ghost use Rattle.desk_model.specs.statements.Job.{JobValue};
ghost use Rattle.desk_model.specs.offers.Bars.{facts_of, bar_of, law_of};
ghost use Rattle.desk_model.specs.histories.Legal.{IsLegal};
ghost use Rattle.desk_base.specs.Window.{end_of};
ghost use Rattle.month_hours.specs.Plan.{end_of as end_of_plan};
ghost use Rattle.person_clock.specs.Clock.{last_now, minute_of};
ghost use Rattle.desk_state.specs.Clocks.{IsClock};

use crate::job_asked::{JobAsked, may_be_asked};
use denial_rules::{Bar, Facts, busy_bar};
use desk_base::Minute;
use desk_model::{each_vacancy_ends_in_the_window, no_event_lies_ahead};
use desk_register::{KeptPerson, PersonIndex};
use duty_events::Stage;
use person_clock::PersonClock;

/// An enrolled person, by their index among all, with what is kept of them and their clock.
#[derive(Drop)]
pub(crate) struct Candidate<'a> {
    pub index: PersonIndex,
    pub kept: &'a KeptPerson,
    pub clock: &'a PersonClock,
}

impl Candidate<'_> {
    ghost use Rattle.fast_core.specs.Candidates.{IsJobAsked, IsCandidate};

    // Whether the person is in a tour.
    fn in_tour(&self) -> bool
        ensures { (h : History) (p : ℕ) → IsCandidate self.now h p → result ≡ in_tour h p }
    {
        self.clock.stage() != Stage::Off
    }

    /// The bar of who is marked off, in a tour, assigned or on offer, before which no other is told, whatever the job; `None` where none
    /// of these holds.
    pub(crate) fn busy_bar(&self) -> Option<Bar>
        ensures { (h : History) (p : ℕ) (person : Person) (m : ℕ) (job : JobValue) (bar : BarValue) → IsLegal h → IsCandidate self.now h p
            → person_of h p ≡ Some person → result ≡ Some bar → bar_of h m job p person ≡ Some bar }
    {
        busy_bar(
            self.kept.marked_off,
            self.in_tour(),
            self.kept.assigned,
            self.kept.on_offer,
        )
    }

    // Whether the person has turned the vacancy down.
    fn has_answered(&self, asked: &JobAsked) -> bool
        ensures { (h : History) (p : ℕ) → IsCandidate self.now h p → IsJobAsked asked.now h
            → result ≡ has_turned_down h asked.now.job.now.vac p }
    {
        match asked.vacancy {
            Some(vacancy) => asked.turned_down.has(self.index, vacancy),
            None => false,
        }
    }

    /// What bears on whether the person may have the job, but for the law. `until` is the minute up to which they are held.
    pub(crate) fn facts(&self, asked: &JobAsked, until: Option<Minute>) -> Facts
        ensures { (h : History) (p : ℕ) (person : Person) → IsLegal h → IsCandidate self.now h p → IsJobAsked asked.now h
            → person_of h p ≡ Some person → until ≡ held h asked.now.moment asked.now.job.now.chain p
            → result ≡ without_law (facts_of h asked.now.moment asked.now.job.now p person) }
    {
        no_event_lies_ahead();
        Facts {
            marked_off: self.kept.marked_off,
            in_tour: self.in_tour(),
            assigned: self.kept.assigned,
            on_offer: self.kept.on_offer,
            place_is: self.clock.place(),
            place_asked: asked.job.place(),
            craft_is: self.kept.person.craft,
            craft_asked: asked.job.craft(),
            quals_has: self.kept.quals,
            quals_asked: asked.job.quals(),
            answered: self.has_answered(asked),
            held: until,
            law: None,
        }
    }

    /// The first section of the law that keeps the person from the job. It is asked only of who is in no tour.
    pub(crate) fn law(&self, asked: &JobAsked) -> Option<Bar>
        ensures { (h : History) (p : ℕ) (person : Person) → IsLegal h → IsCandidate self.now h p → IsJobAsked asked.now h
            → person_of h p ≡ Some person → result ≡ law_of h asked.now.moment asked.now.job.now p person }
    {
        if self.clock.stage() == Stage::Off && may_be_asked(self.clock, asked) {
            self.clock.law_of(asked.moment, &asked.plan)
        } else {
            None
        }
    }
}
