ghost use Rattle.std.specs.Prelude.{◌≡◌, ◌↔◌, ◌<◌, [], ◌∷◌, ◌++◌, Some, IfSome, IsNone, length};
ghost use Rattle.desk_base.specs.Minute.{IsInYears};
ghost use Rattle.crew_call.specs.declared.crew_outcome.CrewOutcome.{CrewOutcome as CrewOutcomeValue};
ghost use Rattle.crew_call.specs.CrewCalls.{AsksNext, IsFilled, IsOver, crew_of, person_offered, somes};
ghost use Rattle.crew_call.specs.Course.{IsFront, outcome_after, stated_after};

use crate::crew_outcome::CrewOutcome;
use crate::heard::Heard;
use desk_base::{Minute, PersonNo, VacNo};
use desk_model::{Cmd, Entry, Reply, Stated};
use std::marker::Model;

/// A crew call: the first vacancy is called, then the second; where that is not offered, the first offer is withdrawn. What is stated
/// next, and what it came to, follows from its entries.
#[derive(Debug, Drop)]
pub struct Crew {
    minute: Minute,
    first: VacNo,
    second: VacNo,
    heard: Heard,
}

impl Model for Crew {
    ghost use Rattle.desk_base.specs.Minute.{IsInYears};
    ghost use Rattle.crew_call.specs.CrewCalls.{CrewValue, crew_of};
    ghost use Rattle.crew_call.specs.Course.{IsFront, entries_of};

    ghost Value = { CrewValue };

    ghost view = { λ c. crew_of c.minute c.first c.second (entries_of c.heard) };

    ghost invariant = { λ c. IsInYears c.minute × IsFront c.minute c.first c.second (entries_of c.heard) };
}

// To whom a reply offers the vacancy.
fn offered_to(reply: &Reply) -> Option<PersonNo>
    ensures { result ≡ person_offered reply.now }
{
    match reply {
        Reply::Offered { person, .. } => Some(*person),
        _ => None,
    }
}

impl Crew {
    /// A crew call of these vacancies, which may be the same, at a minute of the years 2000 to 2099.
    pub fn new(minute: Minute, first: VacNo, second: VacNo) -> Crew
        requires { IsInYears minute }
        ensures { result ≡ crew_of minute first second [] }
    {
        Crew {
            minute,
            first,
            second,
            heard: Heard::Nothing,
        }
    }

    // What is stated next.
    fn next(&self) -> Option<Stated>
        ensures value { result ≡ stated_after self.now.minute self.now.first self.now.second self.now.heard }
        ensures front { IsFront self.now.minute self.now.first self.now.second self.now.heard }
    {
        self.first.number();
        self.second.number();
        match &self.heard {
            Heard::Nothing => Stated::new(self.minute, Cmd::Next { vac: self.first }),
            Heard::First(first) => match offered_to(&first.reply()) {
                Some(_) => Stated::new(self.minute, Cmd::Next { vac: self.second }),
                None => None,
            },
            Heard::Second(first, second) => {
                match (offered_to(&first.reply()), offered_to(&second.reply())) {
                    (Some(person), None) => {
                        person.number();
                        Stated::new(
                            self.minute,
                            Cmd::Withdraw {
                                vac: self.first,
                                person,
                            },
                        )
                    }
                    _ => None,
                }
            }
            Heard::Third(..) => None,
        }
    }

    // What it came to.
    fn result(&self) -> Option<CrewOutcome>
        ensures value { result ≡ outcome_after self.now.first self.now.second self.now.heard }
        ensures front { IsFront self.now.minute self.now.first self.now.second self.now.heard }
    {
        match &self.heard {
            Heard::Nothing => None,
            Heard::First(entry) => match offered_to(&entry.reply()) {
                Some(_) => None,
                None => Some(CrewOutcome::Neither {
                    vac: self.first,
                    reply: entry.reply(),
                }),
            },
            Heard::Second(entry, other) => {
                match (offered_to(&entry.reply()), offered_to(&other.reply())) {
                    (Some(first), Some(second)) => Some(CrewOutcome::Both { first, second }),
                    _ => None,
                }
            }
            Heard::Third(entry, other, last) => match offered_to(&entry.reply()) {
                Some(person) => Some(match last.accepted() {
                    Some(_) => CrewOutcome::Neither {
                        vac: self.second,
                        reply: other.reply(),
                    },
                    None => CrewOutcome::Between {
                        vac: self.first,
                        person,
                    },
                }),
                None => None,
            },
        }
    }

    /// What is stated next; `None` just where the call is over.
    pub fn ask(&self) -> Option<Stated>
        ensures next { IfSome result (λ s. AsksNext self.now s) }
        ensures few { IfSome result (λ s. length self.now.heard < 3) }
        ensures over { IsNone result ↔ ((told : CrewOutcomeValue) × IsOver self.now told) }
    {
        self.next()
    }

    /// Takes in the entry that came of what `ask` said.
    pub fn hear(&mut self, entry: &Entry)
        requires { AsksNext self.old entry.now.stated }
        ensures { self.new ≡ crew_of self.old.minute self.old.first self.old.second (self.old.heard ++ entry.now ∷ []) }
    {
        self.heard = self.heard.with(entry);
    }

    /// What the call came to; `None` just where it isn't over.
    pub fn outcome(&self) -> Option<CrewOutcome>
        ensures { (told : CrewOutcomeValue) → IsOver self.now told ↔ (result ≡ Some told) }
    {
        self.result()
    }

    /// Its entries so far, filled from the front.
    pub fn entries(&self) -> [Option<Entry>; 3]
        ensures some { somes result ≡ self.now.heard }
        ensures front { IsFilled result }
    {
        self.heard.entries()
    }
}
