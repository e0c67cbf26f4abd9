use crate::Job;
use desk_base::{Code, Month, PersonNo, VacNo};
use duty_events::Event;
use qualifications::{Craft, Quals};

/// What the desk is told or asked.
#[derive(Clone, Copy, Debug, PartialEq, Eq)]
pub enum Cmd {
    /// A person is taken on, with a craft, a home and qualifications.
    Enrol {
        person: PersonNo,
        craft: Craft,
        home: Code,
        quals: Quals,
    },
    /// A board is set up at a place: an extra board, or a pool.
    Board {
        board: Code,
        extra: bool,
        place: Code,
    },
    /// A person is put at the bottom of a board.
    List {
        person: PersonNo,
        board: Code,
    },
    /// A person is taken off a board.
    Unlist {
        person: PersonNo,
        board: Code,
    },
    /// A person is marked off: they are not to be called.
    MarkOff {
        person: PersonNo,
    },
    /// A person is marked on again, at the bottom of each of their boards.
    MarkOn {
        person: PersonNo,
    },
    /// A person's qualifications are these, all of them anew.
    Qualify {
        person: PersonNo,
        quals: Quals,
    },
    /// What a person did before they were listed.
    Past {
        person: PersonNo,
        event: Event,
    },
    /// What a person does.
    Happened {
        person: PersonNo,
        event: Event,
    },
    /// A job is to be filled.
    Vacancy(Job),
    /// A vacancy is offered to the first who may have it.
    Next {
        vac: VacNo,
    },
    /// A vacancy is offered to this person, if no other comes before.
    Offer {
        vac: VacNo,
        person: PersonNo,
    },
    /// A person accepts the vacancy that is on offer to them.
    Accept {
        vac: VacNo,
        person: PersonNo,
    },
    /// A person declines it.
    Decline {
        vac: VacNo,
        person: PersonNo,
    },
    /// A person did not answer by the deadline.
    NoAnswer {
        vac: VacNo,
        person: PersonNo,
    },
    /// The offer is taken back.
    Withdraw {
        vac: VacNo,
        person: PersonNo,
    },
    /// The job is called off.
    Annul {
        vac: VacNo,
    },
    /// A person gives up the vacancy that they accepted.
    Drop {
        person: PersonNo,
    },
    /// How much of a month's limits a person has used is asked.
    Hours {
        person: PersonNo,
        month: Month,
    },
    /// Who stands at a position of a board, from 1, is asked.
    At {
        board: Code,
        place: u16,
    },
    /// What bars a person from a vacancy is asked.
    Explain {
        vac: VacNo,
        person: PersonNo,
    },
    /// How a vacancy stands is asked.
    Vac {
        vac: VacNo,
    },
}
