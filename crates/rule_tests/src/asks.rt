//! What is asked of someone, with the answer, as it stands in a table.
use crate::told::{At, Stands, Step, minute};
use denial_rules::Bar;
use desk_base::{Code, Minute, Month};
use duty_events::{MinuteKind, Tour};
use month_hours::{Limit, Over};

/// What someone of HOM did first and then, and what is asked of them with the answers that are wanted.
pub(crate) type Case = (&'static [Step], &'static [Step], &'static [Asks]);

/// What is asked of someone, and then what is wanted.
#[derive(Clone, Copy)]
pub(crate) enum Asks {
    /// Whether each of the events may come where it comes.
    Lawful(bool),
    /// Where they stand in a tour.
    Stands(Stands),
    /// The latest minute.
    Last(At),
    /// That no event was told yet.
    Nothing,
    /// Where they are at a minute.
    Place(At, &'static [u8]),
    /// The used and the capped minutes of a month.
    Hours(&'static [u8], u32, u32),
    /// That a clock's window has no such month; only a clock is asked.
    NoMonth(&'static [u8]),
    /// Since when they are off, and the minutes that their last tour had over twelve hours.
    OffFrom(At, u32),
    /// When rest ends.
    RestEnds(At),
    /// Whether they have rested at a minute for ten hours and so many minutes more.
    Rested(At, u32, bool),
    /// The days in a row on which their tours began.
    Days(u32),
    /// How many days more with a tour, from a day of March on, make six in a row; only a clock is asked.
    MoreToSix(u8, u8),
    /// Whether these days let them report at a minute.
    MayReport(At, bool),
    /// The same, by whether the last tour ended away, and the longest stretch off at home.
    MayReportBy(At, bool, u64, bool),
    /// The month that would be over a limit with a plan, of its report and its minutes on duty and in limbo, and its total.
    Over(Limit, At, u16, u16, Option<(&'static [u8], u32)>),
    /// The first bar for a call, and a report with so many minutes on duty and in limbo.
    Law(At, At, u16, u16, Wanted),
    /// The first bar for a call at the report, and so many minutes on duty and in limbo.
    Plan(At, u16, u16, Wanted),
    /// The first bar for a call at the report, and ten hours on duty.
    Report(At, Wanted),
    /// The last tour that has ended by the first so many events, with its start, its end and its place; and where they stand.
    LastTour(usize, Option<EndedTour>, Stands),
    /// What the minutes up to the event at a place count as, and those behind the event before it if that is the last.
    Kinds(usize, MinuteKind, MinuteKind),
    /// What the minutes from the first of two events to the second count as.
    Between(MinuteKind),
    /// Whether the second of two events may follow the first, on duty.
    MayFollow(bool),
    /// Where they are before the last event, by their stage then.
    PlaceUntil(Stands, &'static [u8]),
    /// Where they are behind the last event.
    PlaceBehind(&'static [u8]),
    /// How many minutes are worked, and how many a tour has, among so many from one on.
    Counts(u64, u32, u32, u32),
}

/// The number of the first minute of a tour, that of the first behind it, and its place.
pub(crate) type EndedTour = (u64, u64, &'static [u8]);

/// The first bar of the law that is wanted.
#[derive(Clone, Copy)]
pub(crate) enum Wanted {
    /// Nobody may ask.
    NoAnswer,
    Free,
    Rest(At),
    MoreRest(At),
    Undisturbed(At),
    SixDays,
    SevenDays,
    MonthHours(&'static [u8], u32),
    LimboHours(&'static [u8], u32),
}

/// The bar that is wanted; `None` where nobody may ask.
pub(crate) fn bar(wanted: &Wanted) -> Option<Option<Bar>> {
    Some(Some(match wanted {
        Wanted::NoAnswer => return None,
        Wanted::Free => return Some(None),
        Wanted::Rest(at) => Bar::Rest(minute(at)?),
        Wanted::MoreRest(at) => Bar::MoreRest(minute(at)?),
        Wanted::Undisturbed(at) => Bar::Undisturbed(minute(at)?),
        Wanted::SixDays => Bar::SixDays {
            run: 6,
            need: 2_880,
        },
        Wanted::SevenDays => Bar::SevenDays {
            run: 7,
            need: 4_320,
        },
        Wanted::MonthHours(month, total) => Bar::MonthHours {
            month: Month::read(month)?,
            total: *total,
        },
        Wanted::LimboHours(month, total) => Bar::LimboHours {
            month: Month::read(month)?,
            total: *total,
        },
    }))
}

/// The month that is wanted, with its total.
pub(crate) fn over(wanted: &Option<(&'static [u8], u32)>) -> Option<Option<Over>> {
    let Some((month, total)) = wanted else {
        return Some(None);
    };
    Some(Some(Over {
        month: Month::read(month)?,
        total: *total,
    }))
}

/// The tour that is wanted.
pub(crate) fn tour(wanted: &Option<EndedTour>) -> Option<Tour> {
    let (start, end, place) = wanted.as_ref()?;
    Some(Tour {
        start: Minute::new(*start)?,
        end: Minute::new(*end)?,
        place: Code::read(place)?,
    })
}
