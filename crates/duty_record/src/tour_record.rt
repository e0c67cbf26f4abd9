ghost use Rattle.std.specs.Prelude.{◌≡◌};
ghost use Rattle.duty_record.specs.Tours.{is_excess};

use desk_base::{Code, Minute, PersonNo};

/// The record of a tour of duty that has ended, of those that 49 CFR 228.11 asks to be kept.
#[derive(Clone, Copy, Debug, PartialEq, Eq)]
pub struct TourRecord {
    /// Whose tour it was.
    pub person: PersonNo,
    /// The number of the vacancy that it was begun for; 0 for none.
    pub vacancy: u32,
    /// The first minute of the ride or duty that began it.
    pub start: Minute,
    /// The minute of the final release; where that came during an interim, the interim's first.
    pub end: Minute,
    /// The place of the final release.
    pub place: Code,
    /// Its minutes on duty.
    pub on_duty: u32,
    /// Its minutes in limbo.
    pub limbo: u32,
    /// What both have over twelve hours, in minutes, 49 USC 21103(c)(4); 0 where they don't.
    pub excess: u32,
    /// Its minutes in limbo that come when it has twelve hours on duty and in limbo, 49 USC 21103(c)(1).
    pub capped: u32,
    /// Whether it has more minutes on duty than twelve hours, 49 USC 21103(a)(2), or as a relief crew's sixteen, (d).
    pub over: bool,
}

impl TourRecord {
    /// Whether it has an excess, or more minutes on duty than it may.
    pub fn is_excess(&self) -> bool
        ensures { result ≡ is_excess self.now }
    {
        self.excess > 0 || self.over
    }
}
