ghost use Rattle.std.specs.Prelude.{◌≡◌, is_some};
ghost use Rattle.desk_model.specs.statements.Opening.{OpeningValue};
ghost use Rattle.desk_model.specs.histories.History.{History, history_of, said};
ghost use Rattle.desk_model.specs.offers.Assigned.{assigned};
ghost use Rattle.desk_model.specs.offers.TurnedDown.{turns_down, has_turned_down};

use crate::assigned::assigned_after;
use crate::offers::is_of;
use desk_base::{PersonNo, VacNo};
use desk_model::{Cmd, Entry};

// Whether by the entry the person turns the vacancy down, where this one was assigned to them before.
fn turns_down(entry: &Entry, vac: VacNo, person: PersonNo, was: &Option<VacNo>) -> bool
    ensures { (h : History) → was.now ≡ assigned h person
        → result ≡ is_some (said (turns_down vac person h) entry.now) }
{
    let Some(cmd) = entry.accepted() else {
        return false;
    };
    match cmd {
        Cmd::Decline {
            vac: other,
            person: answered,
        }
        | Cmd::NoAnswer {
            vac: other,
            person: answered,
        } => *other == vac && *answered == person,
        Cmd::Drop { person: dropped } => *dropped == person && is_of(vac, was),
        _ => false,
    }
}

/// Whether the person has turned the vacancy down.
pub(crate) fn has_turned_down(entries: &[Entry], vac: VacNo, person: PersonNo) -> bool
    ensures { (o : OpeningValue) → result ≡ has_turned_down (history_of o entries.now) vac person }
{
    let mut turned_down = false;
    let mut assigned = None;
    for entry in entries {
        turned_down |= turns_down(entry, vac, person, &assigned);
        assigned = assigned_after(entry, person, assigned);
    }
    turned_down
}
