ghost use Rattle.std.specs.Prelude.{◌≡◌};
ghost use Rattle.desk_model.specs.histories.History.{said};
ghost use Rattle.desk_model.specs.offers.Offers.{settles};
ghost use Rattle.board_window.specs.OfferTold.{opened_by, told};

use desk_base::{Code, VacNo};
use desk_model::{Cmd, Entry, Reply};

/// What an entry tells of a vacancy's offer: from which board it is open since; from none where it was ended.
#[derive(Clone, Copy, Debug)]
pub(crate) struct OfferTold {
    pub vac: VacNo,
    pub from: Option<Code>,
}

// The vacancy whose open offer the entry ends.
fn settled(entry: &Entry) -> Option<VacNo>
    ensures { result ≡ said settles entry.now }
{
    match entry.accepted()? {
        Cmd::Accept { vac, .. }
        | Cmd::Decline { vac, .. }
        | Cmd::NoAnswer { vac, .. }
        | Cmd::Withdraw { vac, .. }
        | Cmd::Annul { vac } => Some(*vac),
        _ => None,
    }
}

// The offer that the entry makes.
fn opened(entry: &Entry) -> Option<OfferTold>
    ensures { result ≡ opened_by entry.now }
{
    let Reply::Offered { board, .. } = entry.reply() else {
        return None;
    };
    match entry.stated().cmd() {
        Cmd::Next { vac } | Cmd::Offer { vac, .. } => Some(OfferTold {
            vac: *vac,
            from: Some(board),
        }),
        _ => None,
    }
}

/// What an entry tells of a vacancy's offer, where it tells anything of one.
pub(crate) fn told(entry: &Entry) -> Option<OfferTold>
    ensures { result ≡ told entry.now }
{
    if let Some(opened) = opened(entry) {
        return Some(opened);
    }
    let vac = settled(entry)?;
    Some(OfferTold { vac, from: None })
}
