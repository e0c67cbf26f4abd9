//! Where an offer stands in a list that is kept by rising vacancy or by rising person.
ghost use Rattle.std.specs.Prelude.{◌≡◌, ◌<◌, ◌≤◌, IfOk, vec_len, vec_capacity};
ghost use Rattle.std.specs.List.{insert};
ghost use Rattle.offer_flight.specs.declared.flight.TheConstants.{OFFERS};
ghost use Rattle.offer_flight.specs.Kept.{IsRising, IsIndex, vac_of, person_of};

use crate::{InFlight, OFFERS};
use desk_base::{PersonNo, VacNo};
use std::alloc::{AllocError, Global};

/// Where the offer of a vacancy stands in a list by rising vacancy, or would.
pub(crate) fn index_of_vacancy(offers: &[InFlight], vac: VacNo) -> usize
    requires { IsRising vac_of offers.now }
    ensures { IsIndex vac_of offers.now vac result }
{
    offers.partition_point(|offer| offer.vac.number() < vac.number())
}

/// Where the offer to a person stands in a list by rising person, or would.
pub(crate) fn index_of_person(offers: &[InFlight], person: PersonNo) -> usize
    requires { IsRising person_of offers.now }
    ensures { IsIndex person_of offers.now person result }
{
    offers.partition_point(|offer| offer.person.number() < person.number())
}

/// Puts an offer in at an index. It takes no memory.
pub(crate) fn put_in(offers: &mut Vec<InFlight>, index: usize, offer: &InFlight)
    requires index { index ≤ vec_len offers.old }
    requires room { vec_len offers.old < vec_capacity offers.old }
    ensures items { offers.new.items ≡ insert offers.old.items index offer.now }
    ensures capacity { vec_capacity offers.new ≡ vec_capacity offers.old }
{
    offers.push_reserved(*offer);
    offers[index..].rotate_right(1);
}

/// The same offers again, with room for `OFFERS`.
pub(crate) fn copy_of(alloc: Global, offers: &[InFlight]) -> Result<Vec<InFlight>, AllocError>
    ensures items { IfOk result (λ copy. copy.items ≡ offers.now) }
    ensures room { IfOk result (λ copy. OFFERS ≤ vec_capacity copy) }
{
    let mut copy = Vec::with_capacity(alloc, OFFERS)?;
    copy.extend_from_slice(offers)?;
    Ok(copy)
}
