ghost use Rattle.std.specs.Prelude.{◌≡◌, ◌<◌, ◌≤◌, ◌+◌, ◌*◌, IfOk, vec_len};
ghost use Rattle.command_parser.specs.declared.limits.TheConstants.{RECORD_LIMIT};
ghost use Rattle.day_replay.specs.Replay.{day_history};

use crate::CALLS_PER_LINE;
use call_history::Book;
use command_parser::DayFile;
use desk_base::NoMemory;
use desk_model::{Booked, LAST_CALLER};
use fast_core::FastCore;
use std::alloc::Global;

/// The book of a desk that has answered the day file's commands as caller 0, with room for all calls of so many lines.
pub fn book_of_day(alloc: Global, day: &DayFile, lines: usize) -> Result<Book<FastCore>, NoMemory>
    requires most { lines ≤ LAST_CALLER }
    requires few { vec_len day.now.commands < RECORD_LIMIT }
    ensures history { IfOk result (λ book.
        ⟦<Book<FastCore> as Booked>⟧.history book ≡ day_history day.now.opening day.now.commands.items) }
    ensures room { IfOk result (λ book.
        ⟦<Book<FastCore> as Booked>⟧.room book ≡ vec_len day.now.commands + lines * CALLS_PER_LINE) }
{
    let calls = lines as u64 * u64::from(CALLS_PER_LINE);
    let core = FastCore::new(alloc, day.opening, day.commands.len() as u64 + calls)?;
    let mut book = Book::new(alloc, core)?;
    book.step_as(0, &day.commands);
    Ok(book)
}
