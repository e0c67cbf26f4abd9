ghost use Rattle.std.specs.Prelude.{◌≡◌};
ghost use Rattle.desk_model.specs.histories.History.{History};
ghost use Rattle.desk_model.specs.histories.Legal.{is_within, moment};

use crate::Reads;
use desk_base::{Minute, Window};

/// Whether the minute lies in the window.
pub(crate) fn is_within(window: &Window, minute: Minute) -> bool
    ensures { result ≡ is_within window.now minute }
{
    window.start() <= minute && minute < window.end()
}

/// The moment at which the desk takes what is stated at this minute.
pub(crate) fn moment<R: Reads>(reads: &R, minute: Minute) -> Minute
    ensures { (h : History) → R.tells reads.now h → result ≡ moment h minute }
{
    let last = reads.last_moment();
    if is_within(&reads.opening().window(), minute) {
        minute.max(last)
    } else {
        last
    }
}
