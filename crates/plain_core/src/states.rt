ghost use Rattle.std.specs.Prelude.{◌≡◌, fold};
ghost use Rattle.desk_model.specs.declared.vac_state.VacState.TheVariants.{Vacant};
ghost use Rattle.desk_model.specs.laws.Comes.{given_up, started, state_by, state_after};

use crate::assigned::reports;
use crate::offers::{asks_for, is_of, offer_in};
use desk_base::{PersonNo, VacNo};
use desk_model::{Cmd, Entry, VacState};

// How a vacancy stands that stood so, where this person gives up theirs.
fn given_up(person: PersonNo, how: VacState) -> VacState
    ensures { result ≡ given_up person how }
{
    match &how {
        VacState::Taken(other) if *other == person => VacState::Vacant,
        _ => how,
    }
}

// How it stands where this person begins theirs.
fn started(person: PersonNo, how: VacState) -> VacState
    ensures { result ≡ started person how }
{
    match &how {
        VacState::Taken(other) if *other == person => VacState::Begun(*other),
        _ => how,
    }
}

// What an accepted command makes of how a vacancy stands.
fn state_by(cmd: &Cmd, vac: VacNo, how: VacState) -> VacState
    ensures { result ≡ state_by vac cmd.now how }
{
    match cmd {
        Cmd::Accept { vac: other, person } if *other == vac => VacState::Taken(*person),
        Cmd::Decline { vac: other, .. }
        | Cmd::NoAnswer { vac: other, .. }
        | Cmd::Withdraw { vac: other, .. }
            if *other == vac => { VacState::Vacant }
        Cmd::Annul { vac: other } if *other == vac => VacState::Annulled,
        Cmd::Drop { person } => given_up(*person, how),
        Cmd::Happened { person, event } if reports(event) => started(*person, how),
        _ => how,
    }
}

// How a vacancy stands after an entry, where it stood so before.
fn state_after(entry: &Entry, vac: VacNo, how: VacState) -> VacState
    ensures { result ≡ state_after vac entry.now how }
{
    if let Some(cmd) = entry.accepted() {
        return state_by(cmd, vac, how);
    }
    match offer_in(entry) {
        Some(offer) if is_of(vac, &asks_for(entry)) => VacState::OnOffer(offer.person),
        _ => how,
    }
}

/// How a vacancy stands.
pub(crate) fn state_of(entries: &[Entry], vac: VacNo) -> VacState
    ensures { result ≡ fold (λ how e. state_after vac e how) Vacant entries.now }
{
    entries.iter().fold(VacState::Vacant, |how, entry| state_after(entry, vac, how))
}
