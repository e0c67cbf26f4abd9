ghost use Rattle.std.specs.Prelude.{◌≡◌, ◌<◌, ◌^◌};
ghost use Rattle.desk_model.specs.statements.Opening.{OpeningValue};
ghost use Rattle.desk_model.specs.histories.History.{history_of, said};
ghost use Rattle.desk_model.specs.offers.Held.{is_from, hold_told, hold_end, held};

use crate::offers::open_offer;
use desk_base::{Code, Minute, PersonNo};
use desk_model::{Cmd, Edition, Entry, HOLD, Offer, Opening};

// The offer was made from one of these boards.
fn is_from(boards: &[Code], offer: &Option<Offer>) -> bool
    ensures { result ≡ is_from boards.now offer.now }
{
    match offer {
        Some(offer) => boards.contains(&offer.board),
        None => false,
    }
}

// The number of the minute until which the entry holds the person from vacancies of these boards, after those before it.
fn hold_told(before: &[Entry], entry: &Entry, boards: &[Code], person: PersonNo) -> Option<u64>
    ensures { (o : OpeningValue)
        → result ≡ said (hold_told boards.now person (history_of o before.now) entry.now.moment) entry.now }
{
    let cmd = entry.accepted()?;
    match cmd {
        Cmd::Decline {
            vac,
            person: declined,
        } if *declined == person && is_from(boards, &open_offer(before, *vac)) => {
            Some(entry.moment().number() + HOLD)
        }
        _ => None,
    }
}

// The number of the minute at which the person's latest hold from vacancies of these boards ends; 0 where there is none.
fn hold_end(entries: &[Entry], boards: &[Code], person: PersonNo) -> u64
    ensures { (o : OpeningValue) → result ≡ hold_end (history_of o entries.now) boards.now person }
{
    let mut end = 0;
    for (i, entry) in entries.iter().enumerate() {
        let until = hold_told(&entries[..i], entry, boards, person).unwrap_or(0);
        if until > end {
            end = until;
        }
    }
    end
}

/// Until when the person is held, at this moment, from vacancies of these boards.
pub(crate) fn held(
    opening: &Opening,
    entries: &[Entry],
    moment: Minute,
    boards: &[Code],
    person: PersonNo,
) -> Option<Minute>
    requires { hold_end (history_of opening.now entries.now) boards.now person < 2 ^ 28 }
    ensures { result ≡ held (history_of opening.now entries.now) moment boards.now person }
{
    if opening.edition() == Edition::One {
        return None;
    }
    let end = hold_end(entries, boards, person);
    if moment.number() < end {
        Minute::new(end)
    } else {
        None
    }
}
