ghost use Rattle.std.specs.Prelude.{◌≡◌, ◌≤◌, not, None, length, vec_capacity, if◌then◌else◌};
ghost use Rattle.std.specs.List.{find};
ghost use Rattle.duty_events.specs.Lists.{IsLawful, stage_of};
ghost use Rattle.duty_events.specs.MinuteKind.{is_off};
ghost use Rattle.law_bars.specs.Law.{law_bar};
ghost use Rattle.desk_model.specs.statements.Job.{JobValue};
ghost use Rattle.desk_model.specs.declared.limits.TheConstants.{MEMBER_LIMIT};
ghost use Rattle.desk_model.specs.histories.History.{History};
ghost use Rattle.desk_model.specs.boards.Boards.{links, order};
ghost use Rattle.desk_model.specs.offers.Bars.{facts_of, bar_of, is_free, first_free};
ghost use Rattle.plain_core.specs.Kept.{IsKept};
ghost use Rattle.plain_core.specs.Room.{HasRoom};

use crate::held::held;
use crate::kept::Kept;
use crate::lists::Lists;
use crate::register::quals_of;
use crate::turned_down::has_turned_down;
use denial_rules::{Bar, Facts, first_bar};
use desk_answers::Reads;
use desk_base::{Code, Minute, PersonNo};
use desk_model::{Job, Link, Person, a_legal_history_fits};
use duty_events::{Event, Stage, place, stage_of};
use law_bars::law_bar;

// The first section of the law that keeps an enrolled person from the job, for a call at a moment. It is asked only of who
// is in no tour.
fn law_of(events: &[Event], moment: Minute, job: &Job, person: &Person) -> Option<Bar>
    requires { IsLawful events.now }
    ensures { result ≡ (if not (is_off (stage_of events.now)) then None
        else law_bar events.now person.now.home moment job.now.report job.now.duty job.now.limbo) }
{
    if stage_of(events) != Stage::Off {
        return None;
    }
    let duty = u32::from(job.duty());
    let limbo = u32::from(job.limbo());
    law_bar(events, person.home, moment, job.report(), duty, limbo)
}

impl Kept {
    // What bears at a moment on whether an enrolled person may have the job.
    fn facts_of(
        &self,
        events: &mut Vec<Event>,
        moment: Minute,
        job: &Job,
        number: PersonNo,
        person: &Person,
    ) -> Facts
        requires { vec_capacity self.now.entries ≤ vec_capacity events.old }
        ensures facts { (h : History) → IsKept self.now.opening self.now.entries.items h
            → result ≡ facts_of h moment job.now number person.now }
        ensures room { vec_capacity events.new ≡ vec_capacity events.old }
    {
        self.fill_events(number, events);
        a_legal_history_fits();
        let chain = job.chain();
        Facts {
            marked_off: self.is_marked_off(number),
            in_tour: stage_of(events) != Stage::Off,
            assigned: self.assigned(number),
            on_offer: self.on_offer(number),
            place_is: place(events, person.home, moment),
            place_asked: job.place(),
            craft_is: person.craft,
            craft_asked: job.craft(),
            quals_has: quals_of(&self.entries, number),
            quals_asked: job.quals(),
            answered: has_turned_down(&self.entries, job.vac(), number),
            held: held(&self.opening, &self.entries, moment, chain.codes(), number),
            law: law_of(events, moment, job, person),
        }
    }

    /// The first bar that keeps an enrolled person from the job at this moment.
    pub(crate) fn bar_of(
        &self,
        events: &mut Vec<Event>,
        moment: Minute,
        job: &Job,
        number: PersonNo,
        person: &Person,
    ) -> Option<Bar>
        requires { vec_capacity self.now.entries ≤ vec_capacity events.old }
        ensures bar { (h : History) → IsKept self.now.opening self.now.entries.items h
            → result ≡ bar_of h moment job.now number person.now }
        ensures room { vec_capacity events.new ≡ vec_capacity events.old }
    {
        first_bar(&self.facts_of(events, moment, job, number, person))
    }

    // The person is enrolled, and at this moment nothing bars them from the job.
    fn is_free(&self, events: &mut Vec<Event>, moment: Minute, job: &Job, number: PersonNo) -> bool
        requires { vec_capacity self.now.entries ≤ vec_capacity events.old }
        ensures free { (h : History) → IsKept self.now.opening self.now.entries.items h
            → result ≡ is_free h moment job.now number }
        ensures room { vec_capacity events.new ≡ vec_capacity events.old }
    {
        match &self.person(number) {
            Some(person) => self.bar_of(events, moment, job, number, person).is_none(),
            None => false,
        }
    }

    // The first of these members of a board whom nothing bars, with their position, from 1.
    fn first_free_on(
        &self,
        events: &mut Vec<Event>,
        moment: Minute,
        job: &Job,
        board: &Code,
        members: &[PersonNo],
    ) -> Option<Link>
        requires room { vec_capacity self.now.entries ≤ vec_capacity events.old }
        requires few { length members.now ≤ MEMBER_LIMIT }
        ensures first { (h : History) → IsKept self.now.opening self.now.entries.items h
            → result ≡ find (λ link. is_free h moment job.now link.person) (links board.now 1 members.now) }
        ensures room { vec_capacity events.new ≡ vec_capacity events.old }
    {
        let mut position = 1;
        for person in members {
            if self.is_free(events, moment, job, *person) {
                return Some(Link {
                    board: *board,
                    position,
                    person: *person,
                });
            }
            position += 1;
        }
        None
    }

    /// The first of the job's chain whom nothing bars at this moment.
    pub(crate) fn first_free_in(&self, lists: &mut Lists, moment: Minute, job: &Job) -> Option<Link>
        requires { HasRoom (vec_capacity self.now.entries) lists.old }
        ensures first { (h : History) → IsKept self.now.opening self.now.entries.items h
            → result ≡ first_free h moment job.now }
        ensures room { HasRoom (vec_capacity self.now.entries) lists.new }
    {
        let chain = job.chain();
        for board in chain.codes() {
            self.fill_members(board, &mut lists.members);
            if let Some(link) = self.first_free_on(
                &mut lists.events,
                moment,
                job,
                board,
                &lists.members,
            ) {
                return Some(link);
            }
        }
        None
    }
}
