ghost use Rattle.std.specs.Prelude.{◌≡◌, ◌<◌};

use desk_base::{Minute, YEARS_END};
use desk_register::{BoardIndex, PersonIndex};

/// The number of the last minute that there is: who is in a tour of duty isn't ready before it.
pub const NEVER: u64 = 268_435_455;

/// Which minute is the last, behind all of the years 2000 to 2099. It does nothing: its clauses are the law.
pub fn the_last_minute()
    ensures number { NEVER ≡ 268_435_455 }
    ensures behind { YEARS_END < NEVER }
{}

/// Whom and what an entry names, by their indexes, and when the person is ready after it.
#[derive(Clone, Copy, Debug)]
pub struct NamedIndexes {
    /// The index among all persons of the one whom the command names.
    pub person: Option<PersonIndex>,
    /// The index among all boards of the one that the command names, or that the offer was made from which it declines, or
    /// that it sets up.
    pub board: Option<BoardIndex>,
    /// The minute from which the person is ready after the entry.
    pub ready: Minute,
}
