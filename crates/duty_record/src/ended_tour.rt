ghost use Rattle.std.specs.Prelude.{◌≡◌, ◌+◌, ◌^◌, ◌<◌};
ghost use Rattle.duty_record.specs.Tours.{most_on_duty, record_of};

use crate::TourRecord;
use desk_base::{PersonNo, VacNo};
use desk_model::{PLAN_LIMIT, RELIEF_LIMIT};
use duty_events::{DUTY_LIMIT, Tour};

/// A tour that has ended, by what was told of its person.
#[derive(Clone, Copy, Debug)]
pub(crate) struct EndedTour {
    /// From where to where it went.
    pub tour: Tour,
    /// The vacancy that it was begun for; `None` for none.
    pub vacancy: Option<VacNo>,
    /// Its minutes on duty.
    pub on_duty: u32,
    /// Its minutes in limbo.
    pub limbo: u32,
    /// Those of them that come when it has twelve hours.
    pub capped: u32,
}

// The minutes on duty that a tour may have.
fn most_on_duty(is_relief: bool) -> u16
    ensures { result ≡ most_on_duty is_relief }
{
    if is_relief { RELIEF_LIMIT } else { PLAN_LIMIT }
}

impl EndedTour {
    /// Its record as this person's tour, as a relief crew's or not; its minutes together are below 2^32.
    pub(crate) fn to_record(self, person: PersonNo, is_relief: bool) -> TourRecord
        ensures { self.on_duty + self.limbo < 2 ^ 32 → result ≡ record_of person is_relief self }
    {
        let sum = self.on_duty.saturating_add(self.limbo);
        TourRecord {
            person,
            vacancy: self.vacancy.map_or(0, |vac| vac.number()),
            start: self.tour.start,
            end: self.tour.end,
            place: self.tour.place,
            on_duty: self.on_duty,
            limbo: self.limbo,
            excess: sum.saturating_sub(DUTY_LIMIT),
            capped: self.capped,
            over: self.on_duty > u32::from(most_on_duty(is_relief)),
        }
    }
}
