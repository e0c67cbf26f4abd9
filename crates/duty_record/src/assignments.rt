ghost use Rattle.std.specs.Prelude.{◌≡◌, None, MatchResult, ℕ, Option};
ghost use Rattle.desk_model.specs.declared.command.Cmd.TheVariants as cmd;
ghost use Rattle.desk_model.specs.laws.Comes.{assigned_by};
ghost use Rattle.duty_record.specs.Kept.{annulments, AreAssigned};

use desk_base::{NoMemory, PersonNo, VacNo};
use indexmap::IndexMap;
use std::alloc::Global;

/// A vacancy that a person has accepted, and how often it had been annulled by then.
#[derive(Clone, Copy, Debug)]
pub(crate) struct Acceptance {
    pub(crate) vac: VacNo,
    pub(crate) annulled: u64,
}

/// The vacancies that are assigned to persons. One that is annulled is nobody's, however many had it.
#[derive(Drop)]
pub(crate) struct Assignments {
    pub(crate) accepted: IndexMap<PersonNo, Acceptance>,
    pub(crate) annulled: IndexMap<VacNo, u64>,
}

impl Assignments {
    /// Nobody has accepted anything.
    pub(crate) fn new(alloc: Global) -> Assignments
        ensures { AreAssigned result (λ _. None) }
    {
        Assignments {
            accepted: IndexMap::new(alloc),
            annulled: IndexMap::new(alloc),
        }
    }

    /// The vacancy that is assigned to the person.
    pub(crate) fn of(&self, person: PersonNo) -> Option<VacNo>
        ensures { (has : ℕ → Option ℕ) → AreAssigned self.now has → result ≡ has person }
    {
        let acceptance = self.accepted.get(&person)?;
        if self.annulments(acceptance.vac) == acceptance.annulled {
            Some(acceptance.vac)
        } else {
            None
        }
    }

    // How often the vacancy was annulled.
    fn annulments(&self, vac: VacNo) -> u64
        ensures { result ≡ annulments self.now vac }
    {
        self.annulled.get(&vac).copied().unwrap_or(0)
    }

    /// The person has accepted the vacancy; on `NoMemory` they haven't.
    pub(crate) fn accept(&mut self, vac: VacNo, person: PersonNo) -> Result<(), NoMemory>
        ensures { (has : ℕ → Option ℕ) → AreAssigned self.old has → MatchResult result
            (λ _. AreAssigned self.new (λ p. assigned_by p (cmd.Accept vac person) (has p)))
            (λ _. AreAssigned self.new has) }
    {
        let annulled = self.annulments(vac);
        self.accepted.insert(person, Acceptance { vac, annulled })?;
        Ok(())
    }

    /// The person has given up what was assigned to them, or has begun it.
    pub(crate) fn free(&mut self, person: PersonNo)
        ensures { (has : ℕ → Option ℕ) → AreAssigned self.old has
            → AreAssigned self.new (λ p. assigned_by p (cmd.Drop person) (has p)) }
    {
        self.accepted.swap_remove(&person);
    }

    /// The vacancy is annulled; on `NoMemory` it isn't. That is also the answer where the same vacancy was annulled 2^64 - 1
    /// times before.
    pub(crate) fn annul(&mut self, vac: VacNo) -> Result<(), NoMemory>
        ensures { (has : ℕ → Option ℕ) → AreAssigned self.old has → MatchResult result
            (λ _. AreAssigned self.new (λ p. assigned_by p (cmd.Annul vac) (has p)))
            (λ _. AreAssigned self.new has) }
    {
        let times = self.annulments(vac).checked_add(1).ok_or(NoMemory)?;
        self.annulled.insert(vac, times)?;
        Ok(())
    }
}
