use crate::Bar;
use desk_base::{Code, Minute, VacNo};
use qualifications::{Craft, Quals};

/// What bears on whether a person may be offered a vacancy.
#[derive(Clone, Copy, Debug, PartialEq, Eq)]
pub struct Facts {
    /// The person is marked off.
    pub marked_off: bool,
    /// The person is in a tour of duty.
    pub in_tour: bool,
    /// The vacancy that the person has accepted and that hasn't begun.
    pub assigned: Option<VacNo>,
    /// The vacancy that is on offer to the person.
    pub on_offer: Option<VacNo>,
    /// The person's place.
    pub place_is: Code,
    /// The vacancy's place.
    pub place_asked: Code,
    /// The person's craft.
    pub craft_is: Craft,
    /// The vacancy's craft.
    pub craft_asked: Craft,
    /// The person's qualifications.
    pub quals_has: Quals,
    /// The qualifications that the vacancy asks for.
    pub quals_asked: Quals,
    /// The person declined, did not answer or dropped the vacancy.
    pub answered: bool,
    /// Until when a decline holds the person from the vacancy; `None` where no hold lasts any more, and in the first edition.
    pub held: Option<Minute>,
    /// The first bar of 49 USC 21103.
    pub law: Option<Bar>,
}
