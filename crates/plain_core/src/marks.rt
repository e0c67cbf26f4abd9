ghost use Rattle.std.specs.Prelude.{◌≡◌, false, unwrap_or};
ghost use Rattle.desk_model.specs.histories.History.{said, last_of};
ghost use Rattle.desk_model.specs.boards.Marks.{marks};

use desk_base::PersonNo;
use desk_model::{Cmd, Entry};

// Whether the entry marks this person off; `None` where it says nothing of that.
fn marks(entry: &Entry, person: PersonNo) -> Option<bool>
    ensures { result ≡ said (marks person) entry.now }
{
    let cmd = entry.accepted()?;
    match cmd {
        Cmd::Enrol { person: other, .. } | Cmd::MarkOn { person: other } => {
            (*other == person).then_some(false)
        }
        Cmd::MarkOff { person: other }
        | Cmd::NoAnswer { person: other, .. }
        | Cmd::Drop { person: other } => (*other == person).then_some(true),
        _ => None,
    }
}

/// Whether the person is marked off.
pub(crate) fn is_marked_off(entries: &[Entry], person: PersonNo) -> bool
    ensures { result ≡ unwrap_or (last_of (said (marks person)) entries.now) false }
{
    let mut last = None;
    for entry in entries {
        let Some(off) = marks(entry, person) else {
            continue;
        };
        last = Some(off);
    }
    last.unwrap_or(false)
}
