//! A desk whose journal is kept while it serves: it begins on a device that has nothing, or goes on behind the journal that is there.
#![tactic(auto)]

mod ahead;
mod ahead_text;
mod clock;
mod guard;
mod guarded;
mod journal_book;
mod limits;
mod line_end;
mod offset;
mod open;
mod opened;
mod refused;
mod serve;
mod set_clock;
mod system_clock;
mod until_end;

pub use ahead::is_ahead;
pub use clock::Clock;
pub use guard::Guard;
pub use guarded::Guarded;
pub use journal_book::book_of_journal;
pub use limits::{
    JOURNAL_ENTRIES, MOST_AHEAD, the_most_entries_of_a_journal, the_most_minutes_ahead,
};
pub use line_end::whole_lines;
pub use offset::Offset;
pub use open::open_desk;
pub use opened::Opened;
pub use refused::Refused;
pub use serve::serve_kept;
pub use set_clock::SetClock;
pub use system_clock::SystemClock;
pub use until_end::UntilEnd;
