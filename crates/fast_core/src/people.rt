ghost use Rattle.desk_model.specs.histories.History.{History, with_entry, said};
ghost use Rattle.fast_core.specs.People.{KeepsPeople, IsClockOf};
ghost use Rattle.fast_core.specs.Candidates.{IsCandidateOf};
ghost use Rattle.std.specs.Prelude.{◌≡◌, ℕ, true, ◌↔◌, Some, IfOk};
ghost use Rattle.std.specs.Option.{option_copied};
ghost use Rattle.duty_events.specs.Allowed.{allow};
ghost use Rattle.duty_events.specs.Lists.{stage_of, latest};
ghost use Rattle.month_hours.specs.Used.{used};
ghost use Rattle.month_hours.specs.Capped.{capped};
ghost use Rattle.desk_model.specs.histories.Register.{persons};
ghost use Rattle.desk_model.specs.histories.Duty.{events};
ghost use Rattle.desk_model.specs.answers.HoursAnswer.{has_month};
ghost use Rattle.desk_register.specs.Among.{index_among};
ghost use Rattle.desk_model.specs.histories.Legal.{IsLegal, IsNext};
ghost use Rattle.desk_state.specs.Lists.{mover, ready_minute};

use crate::candidate::Candidate;
use desk_base::{Minute, Month, NoMemory, PersonNo, Window};
use desk_model::EntryRef;
use desk_register::{PersonIndex, Register, who_is_enrolled_has_an_index};
use desk_state::{Duty, NEVER};
use duty_events::{Event, EventFault, Stage, allowed};
use month_hours::{capped, used};
use person_clock::PersonClock;
use rest_rules::rest_end;
use std::alloc::Global;

/// What is kept of persons, boards and vacancies, and what each person did.
#[derive(Drop)]
pub(crate) struct People {
    pub register: Register,
    pub duty: Duty,
}

// The month is one of the window's.
fn has_month(window: &Window, month: Month) -> bool
    ensures { result ≡ has_month window.now month }
{
    let first = window.first().number();
    first <= month.number() && month.number() < first + u16::from(window.months())
}

impl People {
    /// The enrolled person of this number; `None` where nobody has it.
    pub(crate) fn candidate(&self, number: PersonNo) -> Option<Candidate<'_>>
        ensures { (h : History) → KeepsPeople self.now h → IsCandidateOf result h number }
    {
        who_is_enrolled_has_an_index();
        let Some(found) = self.register.persons().find(number) else {
            return None;
        };
        let clock = self.duty.clock(found.index)?;
        Some(Candidate {
            index: found.index,
            kept: found.kept,
            clock,
        })
    }

    /// The clock of the person at this index among all; `None` for who has no index.
    fn clock_at(&self, index: Option<PersonIndex>) -> Option<&PersonClock>
        ensures { (h : History) (p : ℕ) → KeepsPeople self.now h → index ≡ index_among (persons h) p
            → IsClockOf (option_copied result) h p }
    {
        who_is_enrolled_has_an_index();
        self.duty.clock(index?)
    }

    // The clock of an enrolled person.
    fn clock(&self, person: PersonNo) -> Option<&PersonClock>
        ensures { (h : History) → KeepsPeople self.now h → IsClockOf (option_copied result) h person }
    {
        self.clock_at(self.register.persons().index(person))
    }

    /// The stage that an event leads to after the person's events, or why it is not allowed.
    pub(crate) fn allow(&self, person: PersonNo, event: &Event) -> Result<Stage, EventFault>
        ensures { (h : History) → KeepsPeople self.now h
            → result ≡ allow (stage_of (events h person)) event.now (latest (events h person)) }
    {
        match self.clock(person) {
            Some(clock) => allowed(clock.stage(), *event, clock.last()),
            None => allowed(Stage::Off, *event, None),
        }
    }

    /// How many minutes of a month of the window the person worked.
    pub(crate) fn used(&self, person: PersonNo, month: Month) -> u32
        ensures { (h : History) → KeepsPeople self.now h → has_month h.opening.window month ≡ true
            → result ≡ used (events h person) month }
    {
        match self.clock(person) {
            Some(clock) if has_month(&clock.window(), month) => clock.used(month),
            _ => used(&[], month),
        }
    }

    /// How many of the person's minutes of limbo in a month of the window are capped.
    pub(crate) fn capped(&self, person: PersonNo, month: Month) -> u32
        ensures { (h : History) → KeepsPeople self.now h → has_month h.opening.window month ≡ true
            → result ≡ capped (events h person) month }
    {
        match self.clock(person) {
            Some(clock) if has_month(&clock.window(), month) => clock.capped(month),
            _ => capped(&[], month),
        }
    }

    /// The same again, with memory of its own; `NoMemory` where there is none for it.
    pub(crate) fn copy(&self, alloc: Global) -> Result<People, NoMemory>
        ensures { IfOk result (λ people. (h : History) → KeepsPeople people h ↔ KeepsPeople self.now h) }
    {
        let register = self.register.copy(alloc)?;
        let duty = self.duty.copy(alloc)?;
        Ok(People { register, duty })
    }

    /// Keeps what the next entry of a legal history changes. `index` is that of the person among all whom it moves or of whom it
    /// tells an event.
    pub(crate) fn keep(&mut self, entry: &EntryRef, index: Option<PersonIndex>)
        ensures { (h : History) → IsLegal h → IsNext h entry.now
            → ((p : ℕ) → said mover entry.now ≡ Some p → index ≡ index_among (persons h) p)
            → KeepsPeople self.old h → KeepsPeople self.new (with_entry h entry.now) }
    {
        self.register.keep(entry);
        self.duty.keep(entry, index);
    }

    /// The minute from which the person at this index among all is ready, and from which anybody is who has no index.
    pub(crate) fn ready_of(&self, index: Option<PersonIndex>) -> Minute
        ensures { (h : History) (p : ℕ) → KeepsPeople self.now h → index ≡ index_among (persons h) p
            → result ≡ ready_minute h p }
    {
        match self.clock_at(index) {
            Some(clock) if clock.stage() == Stage::Off => clock.rest_end(),
            Some(_) => Minute::new(NEVER).unwrap_or(Minute::FIRST),
            None => rest_end(&[]),
        }
    }
}
