use crate::VacState;
use denial_rules::Bar;
use desk_base::{Code, Minute, PersonNo, VacNo};
use duty_events::EventFault;

/// What the desk answers.
#[derive(Clone, Copy, Debug, PartialEq, Eq)]
pub enum Reply {
    /// It was accepted.
    Done,
    /// The vacancy is on offer to this person, who stands at this position of this board, from 1.
    Offered {
        person: PersonNo,
        board: Code,
        position: u16,
    },
    /// Everybody in the chain is barred: so many positions, where who stands there twice counts twice.
    Unfilled {
        listed: u16,
    },
    /// So many minutes of the month are worked, and so many of limbo are capped.
    Hours {
        used: u32,
        capped: u32,
    },
    /// This person stands there.
    Seen(PersonNo),
    /// Nobody stands there: the board has so many persons.
    NoOne {
        length: u16,
    },
    /// The vacancy stands so.
    State(VacState),
    /// The person isn't on the board, or has no position in the vacancy's chain.
    NotListed,
    /// This bar is the first that keeps the person from the vacancy.
    Denied(Bar),
    /// This person, whom nothing bars, comes before in the vacancy's chain.
    RunAround(PersonNo),
    /// Nothing bars the person from the vacancy: the first position in its chain that is theirs is this position of this
    /// board, from 1.
    Clear {
        board: Code,
        position: u16,
    },
    /// The minute or the month isn't in the window, the event begins before it, or the plan ends after it.
    OutsideWindow,
    /// The number or the code is in use, or the person is on the board.
    Used,
    /// The person is marked so already.
    Already,
    /// 1,000 persons are enrolled.
    PersonsFull,
    /// There are 64 boards.
    BoardsFull,
    /// Nobody is enrolled with this number.
    UnknownPerson,
    /// This is no board.
    UnknownBoard(Code),
    /// The person is on 4 boards.
    ListsFull,
    /// 500 are on the board.
    MembersFull,
    /// This vacancy is on offer to the person, or assigned to them.
    Frozen(VacNo),
    /// The person was listed, or an event of theirs was accepted by `event`: what they did before is closed.
    PastClosed,
    /// The event isn't over at this moment.
    EventAhead(Minute),
    /// The event may not follow those before it.
    Event(EventFault),
    /// 20,000 vacancies were made.
    VacanciesFull,
    /// This board of the chain, behind its first, is no extra board.
    BadChain(Code),
    /// 49 USC 21103(a)(2): the job, which is no relief one, has more than twelve hours of duty.
    PlanTooLong,
    /// 49 USC 21103(d): the relief job has more than sixteen hours of duty.
    ReliefTooLong,
    /// The first edition of the rules has no relief vacancies.
    OtherEdition,
    /// The report, at this minute, is past.
    ReportPast(Minute),
    /// There is no such vacancy.
    UnknownVacancy,
    /// The vacancy stands so, and can't be offered or annulled.
    Closed(VacState),
    /// The vacancy is on offer to this person.
    OfferOpen(PersonNo),
    /// The vacancy's report, at this minute, is past.
    Lapsed(Minute),
    /// The vacancy isn't on offer to the person.
    NoOffer,
    /// The person may answer until this minute.
    EarlyNoAnswer(Minute),
    /// No vacancy is assigned to the person.
    NotAssigned,
}
