//! What would be answered, if commands came.
ghost use Rattle.std.specs.Prelude.{◌≡◌, ◌<◌, ◌≤◌, ◌+◌, [], Err, IfOk, IsErr, length, vec_capacity};
ghost use Rattle.desk_model.specs.histories.History.{History};
ghost use Rattle.forecast.specs.declared.suppose_fault.SupposeFault.TheVariants as fault;
ghost use Rattle.forecast.specs.Supposed.{IsSupposed, with_entries, OnlyThese};

use crate::suppose_fault::SupposeFault;
use desk_model::{DeskCore, Entry, Stated, a_history_goes_on_with_commands, one_history_is_legal};
use fast_core::FastCore;
use std::alloc::Global;

/// Steps a core through commands as caller 0, and keeps their entries. There is room for all.
pub fn answer_each<C: DeskCore>(core: &mut C, commands: &[Stated], entries: &mut Vec<Entry>)
    requires room { length commands.now ≤ C.room core.old }
    requires memory { length commands.now ≤ vec_capacity entries.old }
    requires new { entries.old.items ≡ [] }
    ensures entries { (h : History) → C.stands core.old h → IsSupposed h commands.now entries.new.items }
    ensures stands { (h : History) → C.stands core.old h
        → C.stands core.new (with_entries h entries.new.items) }
    ensures room { C.room core.new + length commands.now ≡ C.room core.old }
{
    one_history_is_legal();
    for stated in commands {
        entries.push_reserved(core.step(0, *stated));
    }
}

/// The entries that the desk would add for these commands, if they came now as caller 0, one after another: those of the one legal
/// history that goes on with them. They are answered on a copy: the core stays as it is. `TooMany` comes exactly where there are more
/// commands than the core has steps left.
pub fn suppose(
    alloc: Global,
    core: &FastCore,
    supposed: &[Stated],
) -> Result<Vec<Entry>, SupposeFault>
    ensures entries { (h : History) → ⟦<FastCore as DeskCore>⟧.stands core.now h
        → IfOk result (λ es. IsSupposed h supposed.now es.items) }
    ensures many { ⟦<FastCore as DeskCore>⟧.room core.now < length supposed.now
        → result ≡ Err (fault.TooMany (⟦<FastCore as DeskCore>⟧.room core.now)) }
    ensures few { length supposed.now ≤ ⟦<FastCore as DeskCore>⟧.room core.now
        → IsErr result → result ≡ Err fault.NoMemory }
{
    let left = core.left();
    if left < supposed.len() as u64 {
        return Err(SupposeFault::TooMany { left });
    }
    let Ok(mut copy) = core.copy(alloc) else {
        return Err(SupposeFault::NoMemory);
    };
    let Ok(mut entries) = Vec::with_capacity(alloc, supposed.len()) else {
        return Err(SupposeFault::NoMemory);
    };
    answer_each(&mut copy, supposed, &mut entries);
    Ok(entries)
}

/// The entries that are supposed of commands after a legal history are those with which the history goes on by the rules, and no
/// others: there is one list of them at most. It only names the laws that it rests on: its clause is the law.
pub fn a_history_goes_on_as_supposed()
    ensures { OnlyThese }
{
    one_history_is_legal();
    a_history_goes_on_with_commands();
}
