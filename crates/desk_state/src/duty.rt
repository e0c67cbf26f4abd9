ghost use Rattle.std.specs.Prelude.{◌≤◌, vec_capacity, ◌≡◌, ◌<◌, length, IfOk, ℕ, Some};
ghost use Rattle.desk_model.specs.declared.limits.TheConstants.{PERSON_LIMIT};
ghost use Rattle.std.specs.Option.{option_copied};
ghost use Rattle.std.specs.List.{slice_get};
ghost use Rattle.desk_model.specs.statements.Opening.{OpeningValue};
ghost use Rattle.desk_model.specs.histories.History.{History, opened, with_entry, said};
ghost use Rattle.desk_model.specs.histories.Register.{persons};
ghost use Rattle.desk_model.specs.histories.Legal.{IsLegal, IsNext};
ghost use Rattle.desk_register.specs.Among.{index_among};
ghost use Rattle.desk_state.specs.DutyTold.{teller, home_of, told_event};

use desk_base::{Code, NoMemory, Window};
use desk_model::{
    Cmd, EntryRef, PERSON_LIMIT, what_an_entry_makes_of_the_desk, what_is_done_rests_on,
    what_is_told_may_follow,
};
use desk_register::{PersonIndex, who_is_enrolled_has_an_index};
use duty_events::{Event, may_follow_in_words};
use person_clock::PersonClock;
use std::alloc::Global;

/// The clocks of a desk's persons, in the order in which these were enrolled, with memory for 1,000.
pub struct Duty {
    pub(crate) clocks: Vec<PersonClock>,
    pub(crate) window: Window,
    ghost room: { PERSON_LIMIT ≤ vec_capacity clocks },
}

/// The home of whom the entry enrols.
fn home_of(entry: &EntryRef) -> Option<Code>
    ensures { result ≡ said home_of entry.now }
{
    let cmd = entry.accepted()?;
    let Cmd::Enrol { home, .. } = cmd else {
        return None;
    };
    Some(*home)
}

/// The event that the entry tells of somebody.
fn told_event(entry: &EntryRef) -> Option<Event>
    ensures { result ≡ said told_event entry.now }
{
    let cmd = entry.accepted()?;
    match cmd {
        Cmd::Past { event, .. } | Cmd::Happened { event, .. } => Some(*event),
        _ => None,
    }
}

impl Duty {
    ghost use Rattle.desk_state.specs.Clocks.{clocks_of, window_of, AreClocks, Tells, Enrols};

    /// Those of a desk with this window where nobody is enrolled; `NoMemory` where there is none for 1,000.
    pub fn new(alloc: Global, window: Window) -> Result<Duty, NoMemory>
        ensures window { IfOk result (λ d. window_of d ≡ window) }
        ensures clocks { IfOk result (λ d. (o : OpeningValue) → AreClocks (clocks_of d) (opened o)) }
    {
        let clocks = Vec::with_capacity(alloc, PERSON_LIMIT)?;
        Ok(Duty { clocks, window })
    }

    /// The same clocks again, with memory for 1,000; `NoMemory` where there is none for them.
    pub fn copy(&self, alloc: Global) -> Result<Duty, NoMemory>
        ensures window { IfOk result (λ d. window_of d ≡ window_of self.now) }
        ensures clocks { IfOk result (λ d. clocks_of d ≡ clocks_of self.now) }
    {
        let mut clocks = Vec::with_capacity(alloc, PERSON_LIMIT)?;
        clocks.extend_from_slice(&self.clocks)?;
        Ok(Duty {
            clocks,
            window: self.window,
        })
    }

    /// The clock of the person at this index among all; `None` where there are fewer.
    pub fn clock(&self, index: PersonIndex) -> Option<&PersonClock>
        ensures { option_copied result ≡ slice_get (clocks_of self.now) index }
    {
        self.clocks.get(index.number())
    }

    // A clock for one person more, where there is room.
    fn enrol(&mut self, home: Code)
        ensures clocks { length (clocks_of self.old) < PERSON_LIMIT → Enrols (window_of self.old) home (clocks_of self.old) (clocks_of self.new) }
        ensures window { window_of self.new ≡ window_of self.old }
    {
        if self.clocks.len() >= PERSON_LIMIT {
            return;
        }
        match PersonClock::new(self.window, home) {
            Ok(clock) => self.clocks.push_reserved(clock),
            Err(_) => {}
        }
    }

    // The clock at this index takes in the event, where it may.
    fn tell(&mut self, index: PersonIndex, event: &Event)
        ensures clocks { Tells index event.now (clocks_of self.old) (clocks_of self.new) }
        ensures window { window_of self.new ≡ window_of self.old }
    {
        let at = index.number();
        if at >= self.clocks.len() {
            return;
        }
        if self.clocks[at].may_take(event) {
            self.clocks[at].apply(*event);
        }
    }

    /// Keeps what the next entry of a legal history tells: a clock more of whom it enrols, and the event that it tells of
    /// somebody. `index` is the person's among all; it isn't looked at where the entry tells no event.
    pub fn keep(&mut self, entry: &EntryRef, index: Option<PersonIndex>)
        ensures clocks { (h : History) → IsLegal h → IsNext h entry.now → window_of self.old ≡ h.opening.window
            → ((p : ℕ) → said teller entry.now ≡ Some p → index ≡ index_among (persons h) p)
            → AreClocks (clocks_of self.old) h → AreClocks (clocks_of self.new) (with_entry h entry.now) }
        ensures window { window_of self.new ≡ window_of self.old }
    {
        what_an_entry_makes_of_the_desk();
        what_is_told_may_follow();
        may_follow_in_words();
        what_is_done_rests_on();
        who_is_enrolled_has_an_index();
        if let Some(home) = home_of(entry) {
            self.enrol(home);
            return;
        }
        let Some(event) = told_event(entry) else {
            return;
        };
        let Some(index) = index else {
            return;
        };
        self.tell(index, &event);
    }
}

impl Drop for Duty {
    fn drop(self) {
        let Self {
            clocks: _,
            window: _,
        } = self;
    }
}
