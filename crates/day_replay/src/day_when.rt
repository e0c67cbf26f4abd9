//! From when on nothing bars somebody from a vacancy, after a day.
ghost use Rattle.std.specs.Prelude.{◌≡◌, ◌≤◌, length};
ghost use Rattle.desk_model.specs.histories.History.{History};
ghost use Rattle.earliest_minute.specs.When.{when_of};
ghost use Rattle.day_replay.specs.Replay.{goes_on};

use desk_base::{PersonNo, VacNo};
use desk_model::{DeskCore, Stated};
use earliest_minute::{Earliest, the_earliest_minute_is_one};
use fast_core::FastCore;
use forecast::when;

/// Steps a desk through the commands as caller 0, and says from when on nothing bars the person from the vacancy then.
pub(crate) fn when_after(
    core: &mut FastCore,
    commands: &[Stated],
    vac: VacNo,
    person: PersonNo,
) -> Earliest
    requires left { length commands.now ≤ ⟦<FastCore as DeskCore>⟧.room core.old }
    ensures { (h : History) → ⟦<FastCore as DeskCore>⟧.stands core.old h
        → result ≡ when_of (goes_on h commands.now) vac person }
{
    the_earliest_minute_is_one();
    step_each(core, commands);
    when(core, vac, person)
}

// Steps a desk through the commands as caller 0, and keeps none of its entries.
fn step_each<C: DeskCore>(core: &mut C, commands: &[Stated])
    requires left { length commands.now ≤ C.room core.old }
    ensures { (h : History) → C.stands core.old h → C.stands core.new (goes_on h commands.now) }
{
    for stated in commands {
        core.step(0, *stated);
    }
}
