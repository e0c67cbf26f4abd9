ghost use Rattle.std.specs.Prelude.{◌≡◌, ◌+◌, ◌<◌, ◌^◌, [], length, IfOk, IfSome, IfNone};
ghost use Rattle.desk_model.specs.statements.Opening.{IsOpening};
ghost use Rattle.desk_model.specs.histories.Legal.{IsLegal};
ghost use Rattle.board_window.specs.Shelves.{IsNextChange};
ghost use Rattle.board_window.specs.Walls.{history_in, longer_by};

use crate::change::Change;
use crate::front::Front;
use crate::laws::the_last_entry_is_next;
use crate::logbook_rule::Head;
use crate::offers::Offers;
use desk_base::NoMemory;
use desk_model::{Entry, Opening};
use std::alloc::Global;
use std::marker::Model;

/// All entries that a wall was given, and the boards of the offers that are open by them.
#[derive(Drop)]
pub(crate) struct WallList {
    head: Head,
    front: Front,
    offers: Offers,
}

impl Model for WallList {
    ghost use Rattle.std.specs.Prelude.{◌≡◌, nat_eq};
    ghost use Rattle.indexmap.specs.IndexMap.{get, keys};
    ghost use Rattle.board_window.specs.Lists.{head_of};
    ghost use Rattle.board_window.specs.Shows.{AreOffers};
    ghost use Rattle.board_window.specs.Walls.{FrontValue, history_in};

    ghost Value = { FrontValue };

    ghost view = { λ l. l.front };

    ghost invariant = { λ l. (l.head ≡ head_of l.front.wall.logbook.book)
        × AreOffers (get nat_eq l.offers.boards) (keys l.offers.boards) (history_in l.front) };
}

impl WallList {
    /// The list of a new wall, without an entry; `NoMemory` where there is none for the offers.
    pub(crate) fn new(alloc: Global, opening: Opening) -> Result<WallList, NoMemory>
        requires { IsOpening opening }
        ensures none { IfOk result (λ l. l.entries ≡ []) }
        ensures opening { IfOk result (λ l. l.wall.opening ≡ opening) }
    {
        let offers = Offers::new(alloc)?;
        let (head, front) = Front::open(opening);
        Ok(WallList {
            head,
            front,
            offers,
        })
    }

    /// All of it, as a beginning.
    pub(crate) fn front(&self) -> &Front
        ensures { result.now ≡ self.now }
    {
        &self.front
    }

    /// Takes the next entry, and answers what it changes; `None` where it could not be taken.
    pub(crate) fn give(&mut self, entry: &Entry) -> Option<Change>
        requires few { length self.old.entries + 1 < 2 ^ 32 }
        requires legal { IsLegal (history_in (longer_by self.old entry.now)) }
        ensures change { IfSome result (λ change. IsNextChange self.old change) }
        ensures entry { IfSome result (λ change. change.entry ≡ entry.now) }
        ensures front { IfSome result (λ change. self.new ≡ change.front) }
        ensures none { IfNone result (self.new ≡ self.old) }
    {
        the_last_entry_is_next();
        let from = self.offers.declined(entry);
        if !self.front.add(&self.head, entry) {
            return None;
        }
        self.offers.keep(entry);
        Some(Change {
            entry: *entry,
            from,
            front: self.front.again(),
        })
    }
}
