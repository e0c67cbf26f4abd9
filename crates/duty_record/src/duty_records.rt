ghost use Rattle.std.specs.Prelude.{◌≡◌, ◌++◌, true, IfOk, OnOk, MatchResult, filter};
ghost use Rattle.std.specs.List.{flat_map};
ghost use Rattle.desk_model.specs.statements.Opening.{OpeningValue};
ghost use Rattle.desk_model.specs.statements.Entry.{EntryValue};
ghost use Rattle.desk_model.specs.histories.History.{History, opened, with_entry, is_done};
ghost use Rattle.desk_model.specs.offers.Assigned.{reports};
ghost use Rattle.desk_model.specs.laws.Comes.{Comes};
ghost use Rattle.duty_record.specs.Tours.{tours, is_excess, excess_of, excess_list};
ghost use Rattle.duty_record.specs.Kept.{Keeps};

use crate::TourRecord;
use crate::assignments::Assignments;
use crate::relief_marks::ReliefMarks;
use crate::tour_book::TourBook;
use desk_base::{NoMemory, PersonNo};
use desk_model::{Cmd, Entry, what_an_entry_makes_of_the_desk};
use duty_events::Event;
use std::alloc::Global;

/// The records of the tours of all persons, as entries are read one after another. It keeps no entry.
pub struct DutyRecords {
    pub(crate) book: TourBook,
    pub(crate) assignments: Assignments,
    pub(crate) relief: ReliefMarks,
}

impl Drop for DutyRecords {
    fn drop(self) {
        let Self {
            book: _,
            assignments: _,
            relief: _,
        } = self;
    }
}

impl DutyRecords {
    /// Those of no entries yet.
    pub fn new(alloc: Global) -> DutyRecords
        ensures { (o : OpeningValue) → Keeps result (opened o) }
    {
        DutyRecords {
            book: TourBook::new(alloc),
            assignments: Assignments::new(alloc),
            relief: ReliefMarks::new(alloc),
        }
    }

    /// Reads the next entry, which need not be one of a legal history; `NoMemory` where there is none for it, and then it is not
    /// read.
    pub fn read(&mut self, entry: &Entry) -> Result<(), NoMemory>
        ensures { (h : History) → Keeps self.old h
            → MatchResult result (λ _. Keeps self.new (with_entry h entry.now)) (λ _. Keeps self.new h) }
    {
        what_an_entry_makes_of_the_desk();
        match entry.accepted() {
            Some(cmd) => self.follow(cmd),
            None => Ok(()),
        }
    }

    // Reads a command that was accepted.
    fn follow(&mut self, cmd: &Cmd) -> Result<(), NoMemory>
        ensures { (h : History) (e : EntryValue) → is_done e.reply ≡ true → e.stated.cmd ≡ cmd.now → Comes h e → Keeps self.old h
            → MatchResult result (λ _. Keeps self.new (with_entry h e)) (λ _. Keeps self.new h) }
    {
        match cmd {
            Cmd::Past { person, event } => self.book.tell(*person, event, None),
            Cmd::Happened { person, event } => {
                let vacancy = self.assignments.of(*person);
                self.book.tell(*person, event, vacancy)?;
                if is_report(event) {
                    self.assignments.free(*person);
                }
                Ok(())
            }
            Cmd::Accept { vac, person } => self.assignments.accept(*vac, *person),
            Cmd::Drop { person } => {
                self.assignments.free(*person);
                Ok(())
            }
            Cmd::Annul { vac } => self.assignments.annul(*vac),
            Cmd::Vacancy(job) => self.relief.make(job),
            _ => Ok(()),
        }
    }

    /// The records of a person's tours that have ended, in order; `NoMemory` where there is none for them.
    pub fn tours(&self, person: PersonNo) -> Result<Vec<TourRecord>, NoMemory>
        ensures { (h : History) → Keeps self.now h → IfOk result (λ list. list.items ≡ tours h person) }
    {
        match self.book.people.get(&person) {
            Some(kept) => kept.records(self.book.alloc, person, &self.relief),
            None => Ok(Vec::new(self.book.alloc)),
        }
    }

    /// The records of all tours that have an excess, or more minutes on duty than they may: by rising number of their persons,
    /// and of each in order; `NoMemory` where there is none for them.
    pub fn excess_list(&self) -> Result<Vec<TourRecord>, NoMemory>
        ensures { (h : History) → Keeps self.now h → IfOk result (λ list. list.items ≡ excess_list h) }
    {
        self.excess_of(&self.book.persons()?)
    }

    // The records of the tours of these persons that are too long, person by person.
    fn excess_of(&self, persons: &[PersonNo]) -> Result<Vec<TourRecord>, NoMemory>
        ensures { (h : History) → Keeps self.now h
            → IfOk result (λ list. list.items ≡ flat_map (excess_of h) persons.now) }
    {
        let mut list = Vec::new(self.book.alloc);
        for person in persons {
            self.add_excess(*person, &mut list)?;
        }
        Ok(list)
    }

    // Adds those of this person.
    fn add_excess(&self, person: PersonNo, list: &mut Vec<TourRecord>) -> Result<(), NoMemory>
        ensures { (h : History) → Keeps self.now h → OnOk result (list.new.items ≡ list.old.items ++ excess_of h person) }
    {
        add_all(&self.tours(person)?, list)
    }
}

// Whether the event is a report: a ride or duty.
fn is_report(event: &Event) -> bool
    ensures { result ≡ reports event.now }
{
    matches!(event, Event::Ride(_) | Event::Duty(_))
}

// Adds those of these that are too long.
fn add_all(tours: &[TourRecord], list: &mut Vec<TourRecord>) -> Result<(), NoMemory>
    ensures { OnOk result (list.new.items ≡ list.old.items ++ filter is_excess tours.now) }
{
    for tour in tours {
        if tour.is_excess() {
            list.push(*tour)?;
        }
    }
    Ok(())
}
