//! The kinds of replies, as numbers.
use denial_rules::Bar;
use desk_model::Reply;

// A bit for each kind of reply but those of tables that are full.
const ALL_KINDS: u64 = (1 << 48) - 1;

/// Those of the first edition: nobody is held, and no relief vacancy is made.
pub const FIRST_KINDS: u64 = ALL_KINDS & !(1 << 22 | 1 << 40);

/// Those of the second edition, which knows each command.
pub const SECOND_KINDS: u64 = ALL_KINDS & !(1 << 23);

/// The number of a reply's kind: 0 to 47, and 48 for a table that is full.
pub fn kind(reply: &Reply) -> u8 {
    match reply {
        Reply::Done => 0,
        Reply::Offered { .. } => 1,
        Reply::Unfilled { .. } => 2,
        Reply::Hours { .. } => 3,
        Reply::Seen(_) => 4,
        Reply::NoOne { .. } => 5,
        Reply::State(_) => 6,
        Reply::NotListed => 7,
        Reply::RunAround(_) => 8,
        Reply::Clear { .. } => 9,
        Reply::OutsideWindow => 10,
        Reply::Used => 11,
        Reply::Already => 12,
        Reply::UnknownPerson => 13,
        Reply::UnknownBoard(_) => 14,
        Reply::ListsFull => 15,
        Reply::Frozen(_) => 16,
        Reply::PastClosed => 17,
        Reply::EventAhead(_) => 18,
        Reply::Event(_) => 19,
        Reply::BadChain(_) => 20,
        Reply::PlanTooLong => 21,
        Reply::ReliefTooLong => 22,
        Reply::OtherEdition => 23,
        Reply::ReportPast(_) => 24,
        Reply::UnknownVacancy => 25,
        Reply::Closed(_) => 26,
        Reply::OfferOpen(_) => 27,
        Reply::Lapsed(_) => 28,
        Reply::NoOffer => 29,
        Reply::EarlyNoAnswer(_) => 30,
        Reply::NotAssigned => 31,
        Reply::Denied(bar) => kind_of_bar(bar),
        Reply::PersonsFull | Reply::BoardsFull | Reply::MembersFull | Reply::VacanciesFull => 48,
    }
}

// The number of a denial's kind.
fn kind_of_bar(bar: &Bar) -> u8 {
    match bar {
        Bar::MarkedOff => 32,
        Bar::InTour => 33,
        Bar::Assigned(_) => 34,
        Bar::OnOffer(_) => 35,
        Bar::Elsewhere(_) => 36,
        Bar::OtherCraft(_) => 37,
        Bar::Lacks(_) => 38,
        Bar::Answered => 39,
        Bar::Held(_) => 40,
        Bar::Rest(_) => 41,
        Bar::MoreRest(_) => 42,
        Bar::Undisturbed(_) => 43,
        Bar::SixDays { .. } => 44,
        Bar::SevenDays { .. } => 45,
        Bar::MonthHours { .. } => 46,
        Bar::LimboHours { .. } => 47,
    }
}
