ghost use Rattle.std.specs.Prelude.{◌≡◌, None, fold};
ghost use Rattle.desk_model.specs.offers.Assigned.{reports};
ghost use Rattle.desk_model.specs.laws.Comes.{assigned_by, assigned_after};

use crate::offers::is_of;
use desk_base::{PersonNo, VacNo};
use desk_model::{Cmd, Entry};
use duty_events::Event;

/// The event is a report: a ride or duty.
pub(crate) fn reports(event: &Event) -> bool
    ensures { result ≡ reports event.now }
{
    matches!(event, Event::Ride(_) | Event::Duty(_))
}

// What an accepted command makes of the vacancy that is assigned to a person.
fn assigned_by(cmd: &Cmd, person: PersonNo, was: Option<VacNo>) -> Option<VacNo>
    ensures { result ≡ assigned_by person cmd.now was }
{
    match cmd {
        Cmd::Accept { vac, person: other } if *other == person => Some(*vac),
        Cmd::Drop { person: other } if *other == person => None,
        Cmd::Happened {
            person: other,
            event,
        } if *other == person && reports(event) => None,
        Cmd::Annul { vac } if is_of(*vac, &was) => None,
        _ => was,
    }
}

/// The vacancy that is assigned to a person after an entry, where this one was before.
pub(crate) fn assigned_after(entry: &Entry, person: PersonNo, was: Option<VacNo>) -> Option<VacNo>
    ensures { result ≡ assigned_after person entry.now was }
{
    match entry.accepted() {
        Some(cmd) => assigned_by(cmd, person, was),
        None => was,
    }
}

/// The vacancy that is assigned to the person; `None` where none is.
pub(crate) fn assigned(entries: &[Entry], person: PersonNo) -> Option<VacNo>
    ensures { result ≡ fold (λ was e. assigned_after person e was) None entries.now }
{
    entries
        .iter()
        .fold(None, |was, entry| assigned_after(entry, person, was))
}
