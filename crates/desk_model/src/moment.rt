//! The moments of a desk.
ghost use Rattle.std.specs.Prelude.{◌≡◌};
ghost use Rattle.desk_model.specs.histories.History.{history_of};
ghost use Rattle.desk_model.specs.histories.Legal.{last_moment};

use crate::entry::Entry;
use crate::opening::Opening;
use desk_base::Minute;

/// The moment of the last entry; where there is none, the opening's first minute.
pub fn last_moment(opening: &Opening, entries: &[Entry]) -> Minute
    ensures { result ≡ last_moment (history_of opening.now entries.now) }
{
    match entries.last() {
        Some(entry) => entry.moment(),
        None => opening.start(),
    }
}
