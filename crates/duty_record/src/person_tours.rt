ghost use Rattle.std.specs.Prelude.{◌≡◌, ◌<◌, ◌++◌, [], List, is_ok, IfOk, ℕ, Option, map, vec_len, vec_capacity};
ghost use Rattle.std.specs.Option.{option_map};
ghost use Rattle.std.specs.List.{cons_option};
ghost use Rattle.desk_model.specs.statements.Job.{JobValue};
ghost use Rattle.duty_record.specs.Deeds.{Deed, deed_of};
ghost use Rattle.duty_record.specs.EndedTours.{begun_for, ended_tours};
ghost use Rattle.duty_record.specs.Kept.{with_sums, marked_record, Takes, IsOf, AreMarks};

use crate::TourRecord;
use crate::ended_tour::EndedTour;
use crate::relief_marks::ReliefMarks;
use desk_base::{NoMemory, PersonNo, VacNo};
use duty_events::{Event, Tour, may_follow, may_follow_in_words};
use std::alloc::Global;
use tour_build::TourTotals;

/// What is kept of a person: the minutes of the tour that began last, the vacancy that it was begun for, and the tours that
/// have ended.
#[derive(Drop)]
pub(crate) struct PersonTours {
    pub(crate) totals: TourTotals,
    pub(crate) vacancy: Option<VacNo>,
    pub(crate) ended: Vec<EndedTour>,
}

impl PersonTours {
    /// What is kept of somebody who did nothing yet.
    pub(crate) fn new(alloc: Global) -> PersonTours
        ensures { IsOf result [] }
    {
        PersonTours {
            totals: TourTotals::none(),
            vacancy: None,
            ended: Vec::new(alloc),
        }
    }

    /// Takes in what the person did next, where it may follow; on `NoMemory` all stays as it was.
    pub(crate) fn take(&mut self, event: &Event, vacancy: Option<VacNo>) -> Result<(), NoMemory>
        ensures { Takes (is_ok result) (deed_of event.now vacancy) self.old self.new }
    {
        may_follow_in_words();
        if !may_follow(&self.totals.stage(), &self.totals.last_minute(), event) {
            return Ok(());
        }
        self.ended.reserve(1)?;
        let vacancy = self.begun_for(event, vacancy);
        let tour = self.totals.ended_by(event);
        self.totals.apply(*event);
        self.vacancy = vacancy;
        self.close(tour);
        Ok(())
    }

    // The vacancy of the last tour, once this is done.
    fn begun_for(&self, event: &Event, vacancy: Option<VacNo>) -> Option<VacNo>
        ensures { result ≡ begun_for self.now.totals.stage self.now.vacancy (deed_of event.now vacancy) }
    {
        if self.totals.stage().begins(event) {
            vacancy
        } else {
            self.vacancy
        }
    }

    // Adds the tour, if any, that has just ended.
    fn close(&mut self, tour: Option<Tour>)
        requires { vec_len self.old.ended < vec_capacity self.old.ended }
        ensures ended { self.new.ended.items ≡ self.old.ended.items
            ++ cons_option (option_map (with_sums self.old.vacancy self.old.totals) tour) [] }
        ensures totals { self.new.totals ≡ self.old.totals }
        ensures vacancy { self.new.vacancy ≡ self.old.vacancy }
    {
        if let Some(tour) = tour {
            self.ended.push_reserved(EndedTour {
                tour,
                vacancy: self.vacancy,
                on_duty: self.totals.on_duty(),
                limbo: self.totals.limbo(),
                capped: self.totals.capped(),
            });
        }
    }

    /// The records of the tours that have ended, as this person's; `NoMemory` where there is none for them.
    pub(crate) fn records(
        &self,
        alloc: Global,
        person: PersonNo,
        relief: &ReliefMarks,
    ) -> Result<Vec<TourRecord>, NoMemory>
        ensures { (ds : List Deed) (made : ℕ → Option JobValue) → IsOf self.now ds → AreMarks relief.now made
            → IfOk result (λ list. list.items ≡ map (marked_record person made) (ended_tours ds)) }
    {
        let mut list = Vec::new(alloc);
        for tour in &self.ended {
            list.push(tour.to_record(person, relief.is_relief(tour.vacancy)))?;
        }
        Ok(list)
    }
}
