ghost use Rattle.std.specs.Prelude.{◌≡◌, ◌≤◌, ◌<◌, ◌+◌, ◌++◌, ◌∷◌, [], ℕ, IfOk, nat_eq, None, Some, if◌then◌else◌, length};
ghost use Rattle.indexmap.specs.IndexMap.{get, keys, spare, index_map_len};
ghost use Rattle.desk_model.specs.declared.limits.TheConstants.{VACANCY_LIMIT};
ghost use Rattle.desk_model.specs.statements.Opening.{OpeningValue};
ghost use Rattle.desk_model.specs.histories.History.{History, opened, with_entry, said};
ghost use Rattle.desk_model.specs.histories.Legal.{IsLegal, IsNext};
ghost use Rattle.desk_model.specs.histories.Register.{makes_any};
ghost use Rattle.board_window.specs.Becomes.{declines_from};
ghost use Rattle.board_window.specs.OfferTold.{told};
ghost use Rattle.board_window.specs.OffersKept.{with_made, numbers_with, with_told};
ghost use Rattle.board_window.specs.Shows.{AreOffers};

use crate::offer_told::told;
use desk_base::{Code, NoMemory, VacNo};
use desk_model::{
    Cmd, Entry, VACANCY_LIMIT, what_an_entry_makes_of_the_desk, what_is_done_rests_on,
    what_was_never_made_is_not_on_offer,
};
use indexmap::IndexMap;
use std::alloc::Global;

/// The vacancies that were made, each with the board that its open offer was made from, with memory for 20,000.
#[derive(Drop)]
pub(crate) struct Offers {
    boards: IndexMap<VacNo, Option<Code>>,
    ghost room: { VACANCY_LIMIT ≤ index_map_len boards + spare boards },
}

// The vacancy that an entry makes.
fn made(entry: &Entry) -> Option<VacNo>
    ensures { result ≡ said makes_any entry.now }
{
    match entry.accepted()? {
        Cmd::Vacancy(job) => Some(job.vac()),
        _ => None,
    }
}

impl Offers {
    /// No vacancies, with memory for 20,000; `NoMemory` where there is none for them.
    pub(crate) fn new(alloc: Global) -> Result<Offers, NoMemory>
        ensures { IfOk result (λ x. (o : OpeningValue) → AreOffers (get nat_eq x.boards) (keys x.boards) (opened o)) }
    {
        Ok(Offers {
            boards: IndexMap::with_capacity(alloc, VACANCY_LIMIT)?,
        })
    }

    /// The board of the offer that an entry declines.
    pub(crate) fn declined(&self, entry: &Entry) -> Option<Code>
        ensures { (h : History) → IsLegal h → AreOffers (get nat_eq self.now.boards) (keys self.now.boards) h
            → result ≡ said (declines_from h) entry.now }
    {
        what_was_never_made_is_not_on_offer();
        let Cmd::Decline { vac, .. } = entry.accepted()? else {
            return None;
        };
        *self.boards.get(vac)?
    }

    // Adds a vacancy that is new, on offer from no board. There is room.
    fn add(&mut self, vac: VacNo)
        requires new { get nat_eq self.old.boards vac ≡ None }
        requires few { length (keys self.old.boards) < VACANCY_LIMIT }
        ensures under { (v : ℕ) → get nat_eq self.new.boards v ≡ (if nat_eq vac v then Some None else get nat_eq self.old.boards v) }
        ensures keys { keys self.new.boards ≡ keys self.old.boards ++ vac ∷ [] }
    {
        match self.boards.insert(vac, None) {
            Ok(_) => {}
            Err(_) => {}
        }
    }

    // Adds the vacancy that an entry makes, where it is new and there is room.
    fn make(&mut self, entry: &Entry)
        ensures under { (v : ℕ) → get nat_eq self.new.boards v ≡ with_made (said makes_any entry.now) (get nat_eq self.old.boards) (keys self.old.boards) v }
        ensures keys { keys self.new.boards ≡ numbers_with (said makes_any entry.now) (get nat_eq self.old.boards) (keys self.old.boards) }
    {
        let Some(vac) = made(entry) else {
            return;
        };
        if !self.boards.contains_key(&vac) && self.boards.len() < VACANCY_LIMIT {
            self.add(vac);
        }
    }

    // Keeps what an entry tells of a vacancy's offer.
    fn tell(&mut self, entry: &Entry)
        ensures under { (v : ℕ) → get nat_eq self.new.boards v ≡ with_told (told entry.now) v (get nat_eq self.old.boards v) }
        ensures keys { keys self.new.boards ≡ keys self.old.boards }
    {
        let Some(told) = told(entry) else {
            return;
        };
        if let Some(board) = self.boards.get_mut(&told.vac) {
            *board = told.from;
        }
    }

    /// Follows an entry. It takes no memory.
    pub(crate) fn keep(&mut self, entry: &Entry)
        ensures { (h : History) → IsLegal h → IsNext h entry.now → AreOffers (get nat_eq self.old.boards) (keys self.old.boards) h
            → AreOffers (get nat_eq self.new.boards) (keys self.new.boards) (with_entry h entry.now) }
    {
        what_an_entry_makes_of_the_desk();
        what_is_done_rests_on();
        what_was_never_made_is_not_on_offer();
        self.make(entry);
        self.tell(entry);
    }
}
