ghost use Rattle.std.specs.Prelude.{◌≡◌, None, unwrap_or};
ghost use Rattle.desk_model.specs.statements.Opening.{OpeningValue};
ghost use Rattle.desk_model.specs.histories.History.{history_of, said, last_of};
ghost use Rattle.desk_model.specs.offers.Offers.{asks_for, offer_in, is_of, settles, opens, ends, offer_said, offered_to, is_to};
ghost use Rattle.desk_model.proofs.OnOfferLemmas.{while_open};

use desk_base::{PersonNo, VacNo};
use desk_model::{Cmd, Entry, Offer, Reply};

/// The vacancy that the entry's command asks to be offered.
pub(crate) fn asks_for(entry: &Entry) -> Option<VacNo>
    ensures { result ≡ asks_for entry.now.stated.cmd }
{
    let cmd = entry.stated().cmd();
    match cmd {
        Cmd::Next { vac } | Cmd::Offer { vac, .. } => Some(*vac),
        _ => None,
    }
}

/// The offer that the entry's reply makes.
pub(crate) fn offer_in(entry: &Entry) -> Option<Offer>
    ensures { result ≡ offer_in entry.now.moment entry.now.reply }
{
    let reply = entry.reply();
    let Reply::Offered { person, board, .. } = &reply else {
        return None;
    };
    Some(Offer {
        person: *person,
        board: *board,
        made: entry.moment(),
    })
}

/// It is this vacancy.
pub(crate) fn is_of(vac: VacNo, other: &Option<VacNo>) -> bool
    ensures { result ≡ is_of vac other.now }
{
    match other {
        Some(other) => *other == vac,
        None => false,
    }
}

// The vacancy whose open offer the entry ends.
fn settles(entry: &Entry) -> Option<VacNo>
    ensures { result ≡ said settles entry.now }
{
    let cmd = entry.accepted()?;
    match cmd {
        Cmd::Accept { vac, .. }
        | Cmd::Decline { vac, .. }
        | Cmd::NoAnswer { vac, .. }
        | Cmd::Withdraw { vac, .. }
        | Cmd::Annul { vac } => Some(*vac),
        _ => None,
    }
}

// The offer of the vacancy that the entry opens: `Some` where it opens one, with what is open since.
fn opens(entry: &Entry, vac: VacNo) -> Option<Option<Offer>>
    ensures { result ≡ opens vac entry.now }
{
    if !is_of(vac, &asks_for(entry)) {
        return None;
    }
    let offer = offer_in(entry)?;
    Some(Some(offer))
}

// `Some` where the entry ends the vacancy's open offer: none is open since.
fn ends(entry: &Entry, vac: VacNo) -> Option<Option<Offer>>
    ensures { result ≡ ends vac entry.now }
{
    if is_of(vac, &settles(entry)) {
        Some(None)
    } else {
        None
    }
}

// What the entry says of the vacancy's offer: `Some` where it says anything, with what is open since.
fn offer_said(entry: &Entry, vac: VacNo) -> Option<Option<Offer>>
    ensures { result ≡ offer_said vac entry.now }
{
    opens(entry, vac).or(ends(entry, vac))
}

/// The open offer of a vacancy; `None` where none is. It looks from the last entry back, since an offer is mostly recent.
pub(crate) fn open_offer(entries: &[Entry], vac: VacNo) -> Option<Offer>
    ensures { result ≡ unwrap_or (last_of (offer_said vac) entries.now) None }
{
    for i in (0..entries.len()).rev() {
        if let Some(open) = offer_said(&entries[i], vac) {
            return open;
        }
    }
    None
}

// The offer is open, and to this person.
fn is_to(offer: &Option<Offer>, person: PersonNo) -> bool
    ensures { result ≡ is_to person offer.now }
{
    match offer {
        Some(offer) => offer.person == person,
        None => false,
    }
}

// The vacancy that the entry offers to the person.
fn offered_to(entry: &Entry, person: PersonNo) -> Option<VacNo>
    ensures { result ≡ offered_to person entry.now }
{
    if is_to(&offer_in(entry), person) {
        asks_for(entry)
    } else {
        None
    }
}

// The vacancy that was offered to the person last.
fn last_offered(entries: &[Entry], person: PersonNo) -> Option<VacNo>
    ensures { result ≡ last_of (offered_to person) entries.now }
{
    let mut last = None;
    for entry in entries {
        let Some(vac) = offered_to(entry, person) else {
            continue;
        };
        last = Some(vac);
    }
    last
}

/// The vacancy that was offered to the person last, where that offer is open: the one that is on offer to them.
pub(crate) fn on_offer(entries: &[Entry], person: PersonNo) -> Option<VacNo>
    ensures { (o : OpeningValue) → result
        ≡ while_open (history_of o entries.now) person (last_of (offered_to person) entries.now) }
{
    let vac = last_offered(entries, person)?;
    if is_to(&open_offer(entries, vac), person) {
        Some(vac)
    } else {
        None
    }
}
