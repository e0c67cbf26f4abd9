ghost use Rattle.std.specs.Prelude.{◌≡◌, None, MatchResult, ℕ, Option};
ghost use Rattle.std.specs.Option.{option_or};
ghost use Rattle.desk_model.specs.declared.command.Cmd.TheVariants as cmd;
ghost use Rattle.desk_model.specs.statements.Job.{JobValue};
ghost use Rattle.desk_model.specs.histories.Register.{makes};
ghost use Rattle.duty_record.specs.Tours.{relief_in};
ghost use Rattle.duty_record.specs.Kept.{AreMarks};

use desk_base::{NoMemory, VacNo};
use desk_model::Job;
use indexmap::IndexMap;
use std::alloc::Global;

/// Of each vacancy that was made, whether it is for a relief crew.
#[derive(Drop)]
pub(crate) struct ReliefMarks {
    pub(crate) kept: IndexMap<VacNo, bool>,
}

impl ReliefMarks {
    /// No vacancy was made.
    pub(crate) fn new(alloc: Global) -> ReliefMarks
        ensures { AreMarks result (λ _. None) }
    {
        ReliefMarks {
            kept: IndexMap::new(alloc),
        }
    }

    /// A vacancy is made, where none of its number was before; on `NoMemory` it isn't.
    pub(crate) fn make(&mut self, job: &Job) -> Result<(), NoMemory>
        ensures { (made : ℕ → Option JobValue) → AreMarks self.old made → MatchResult result
            (λ _. AreMarks self.new (λ v. option_or (made v) (makes v (cmd.Vacancy job.now))))
            (λ _. AreMarks self.new made) }
    {
        if !self.kept.contains_key(&job.vac()) {
            self.kept.insert(job.vac(), job.is_relief())?;
        }
        Ok(())
    }

    /// Whether the vacancy is for a relief crew; none that was never made is.
    pub(crate) fn is_relief(&self, vacancy: Option<VacNo>) -> bool
        ensures { (made : ℕ → Option JobValue) → AreMarks self.now made
            → result ≡ relief_in made vacancy }
    {
        match vacancy {
            Some(vac) => self.kept.get(&vac).copied().unwrap_or(false),
            None => false,
        }
    }
}
