ghost use Rattle.std.specs.Prelude.{◌≡◌, IfOk};
ghost use Rattle.desk_model.specs.statements.Opening.{OpeningValue};
ghost use Rattle.desk_model.specs.histories.History.{history_of};
ghost use Rattle.duty_record.specs.Tours.{tours, excess_list};
ghost use Rattle.duty_record.specs.Kept.{Keeps};

use crate::{DutyRecords, TourRecord};
use desk_base::{NoMemory, PersonNo};
use desk_model::Entry;
use std::alloc::Global;

/// The records of the tours that these entries tell of a person, in order. The entries need not be legal: what is accepted is
/// what is answered `done`, and an event that isn't allowed is left out. `NoMemory` where there is none for them.
pub fn records(
    alloc: Global,
    entries: &[Entry],
    person: PersonNo,
) -> Result<Vec<TourRecord>, NoMemory>
    ensures { (o : OpeningValue) → IfOk result (λ list. list.items ≡ tours (history_of o entries.now) person) }
{
    read_all(alloc, entries)?.tours(person)
}

/// The records of all tours in these entries that have an excess, or more minutes on duty than they may: by rising number of
/// their persons, and of each in order. `NoMemory` where there is none for them.
pub fn excess_list(alloc: Global, entries: &[Entry]) -> Result<Vec<TourRecord>, NoMemory>
    ensures { (o : OpeningValue) → IfOk result (λ list. list.items ≡ excess_list (history_of o entries.now)) }
{
    read_all(alloc, entries)?.excess_list()
}

// Reads all entries.
fn read_all(alloc: Global, entries: &[Entry]) -> Result<DutyRecords, NoMemory>
    ensures { (o : OpeningValue) → IfOk result (λ r. Keeps r (history_of o entries.now)) }
{
    let mut records = DutyRecords::new(alloc);
    for entry in entries {
        records.read(entry)?;
    }
    Ok(records)
}
