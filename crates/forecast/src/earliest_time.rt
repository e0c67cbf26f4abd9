ghost use Rattle.desk_model.specs.histories.History.{History};
ghost use Rattle.earliest_minute.specs.When.{IsWhen};

use desk_base::{PersonNo, VacNo};
use desk_model::DeskCore;
use earliest_minute::Earliest;
use fast_core::FastCore;

/// From when on nothing bars a person from a vacancy, as things stand: the first minute from the last moment to the vacancy's report at
/// which nothing bars the person, or what bars them at the report where there is none. The first four answers come in their order, just
/// where `explain` at the last moment has them. It takes no memory, and the core stays as it is.
pub fn when(core: &FastCore, vac: VacNo, person: PersonNo) -> Earliest
    ensures { (h : History) → ⟦<FastCore as DeskCore>⟧.stands core.now h → IsWhen h vac person result }
{
    core.earliest(vac, person)
}
