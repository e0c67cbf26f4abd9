//! The one person whom an entry touches.
ghost use Rattle.std.specs.Prelude.{◌≡◌};
ghost use Rattle.fast_core.specs.Touched.{touched};

use desk_base::PersonNo;
use desk_model::{Cmd, EntryRef, Reply};

/// The one person whose bars, or whose boards, the entry may change; `None` where there may be others, or nobody.
pub(crate) fn touched(entry: &EntryRef) -> Option<PersonNo>
    ensures { result ≡ touched entry.now }
{
    if let Reply::Offered { person, .. } = entry.reply() {
        return Some(person);
    }
    match entry.stated().cmd() {
        Cmd::Enrol { person, .. }
        | Cmd::List { person, .. }
        | Cmd::Unlist { person, .. }
        | Cmd::MarkOff { person }
        | Cmd::MarkOn { person }
        | Cmd::Qualify { person, .. }
        | Cmd::Past { person, .. }
        | Cmd::Happened { person, .. }
        | Cmd::Accept { person, .. }
        | Cmd::Decline { person, .. }
        | Cmd::NoAnswer { person, .. }
        | Cmd::Withdraw { person, .. }
        | Cmd::Drop { person } => Some(*person),
        _ => None,
    }
}
