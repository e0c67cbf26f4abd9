ghost use Rattle.std.specs.Prelude.{◌≡◌, false, length, filter, unwrap_or};
ghost use Rattle.std.specs.List.{filter_map};
ghost use Rattle.desk_model.specs.histories.History.{said, last_of};
ghost use Rattle.desk_model.specs.histories.Register.{sets_up_any};
ghost use Rattle.desk_model.specs.boards.Boards.{puts};

use crate::register::sets_up_any;
use desk_base::{Code, PersonNo};
use desk_model::{Cmd, Entry};

// Whether the person is on this board after the entry; `None` where it says nothing of that.
pub(crate) fn puts(entry: &Entry, person: PersonNo, board: &Code) -> Option<bool>
    ensures { result ≡ said (puts board.now person) entry.now }
{
    let cmd = entry.accepted()?;
    match cmd {
        Cmd::List {
            person: listed,
            board: code,
        } if code == board => (*listed == person).then_some(true),
        Cmd::Unlist {
            person: taken,
            board: code,
        } if code == board => (*taken == person).then_some(false),
        _ => None,
    }
}

/// Whether the person is on the board.
pub(crate) fn is_on(entries: &[Entry], person: PersonNo, board: &Code) -> bool
    ensures { result ≡ unwrap_or (last_of (said (puts board.now person)) entries.now) false }
{
    let mut last = None;
    for entry in entries {
        let Some(on) = puts(entry, person, board) else {
            continue;
        };
        last = Some(on);
    }
    last.unwrap_or(false)
}

/// How many boards the person is on.
pub(crate) fn count_boards_of(entries: &[Entry], person: PersonNo) -> usize
    ensures { result ≡ length (filter
        (λ b. unwrap_or (last_of (said (puts b person)) entries.now) false)
        (filter_map (said sets_up_any) entries.now)) }
{
    let mut count = 0;
    for entry in entries {
        let Some(board) = sets_up_any(entry) else {
            continue;
        };
        if is_on(entries, person, &board) {
            count += 1;
        }
    }
    count
}
