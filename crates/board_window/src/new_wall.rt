ghost use Rattle.std.specs.Prelude.{◌≡◌, ◌+◌, ◌<◌, ◌^◌, [], length, IfOk, OnOk, IsErr};
ghost use Rattle.desk_model.specs.statements.Opening.{IsOpening};
ghost use Rattle.desk_model.specs.histories.History.{history_of};
ghost use Rattle.desk_model.specs.histories.Legal.{IsLegal};
ghost use Rattle.board_window.specs.Walls.{history_in, longer_by};

use crate::laws::{
    a_desk_opens_without_boards, the_last_entry_is_next, what_an_entry_makes_of_the_boards,
};
use crate::shelf::Shelf;
use crate::wall_list::WallList;
use desk_base::NoMemory;
use desk_model::{Entry, Opening, the_first_entries_are_legal};
use std::alloc::Global;
use std::marker::Model;

/// A wall that no view sees yet: it is given the entries that a desk has before it is shown.
#[derive(Drop)]
pub struct NewWall {
    pub(crate) list: WallList,
    // The boards that the entries make, twice, as the wall keeps them.
    pub(crate) first: Shelf,
    pub(crate) second: Shelf,
}

impl Model for NewWall {
    ghost use Rattle.std.specs.Prelude.{◌≡◌};
    ghost use Rattle.board_window.specs.Shelves.{IsRight};
    ghost use Rattle.board_window.specs.Walls.{FrontValue};

    ghost Value = { FrontValue };

    ghost view = { λ w. w.list };

    ghost invariant = { λ w. (w.first.front ≡ w.list) × (w.second ≡ w.first) × IsRight w.first };
}

impl NewWall {
    /// The wall of a desk that was opened so and has answered nothing yet; `NoMemory` where there is none for its boards.
    pub fn new(alloc: Global, opening: Opening) -> Result<NewWall, NoMemory>
        requires { IsOpening opening }
        ensures none { IfOk result (λ wall. wall.entries ≡ []) }
        ensures opening { IfOk result (λ wall. wall.wall.opening ≡ opening) }
    {
        a_desk_opens_without_boards();
        let list = WallList::new(alloc, opening)?;
        let first = Shelf::new(alloc, list.front())?;
        let second = Shelf::new(alloc, list.front())?;
        Ok(NewWall {
            list,
            first,
            second,
        })
    }

    /// The wall of a desk that was opened so and has these entries, fewer than 2^32; `NoMemory` where there is none for it.
    pub fn with_entries(
        alloc: Global,
        opening: &Opening,
        entries: &[Entry],
    ) -> Result<NewWall, NoMemory>
        requires legal { IsLegal (history_of opening.now entries.now) }
        requires few { length entries.now < 2 ^ 32 }
        ensures entries { IfOk result (λ wall. wall.entries ≡ entries.now) }
        ensures opening { IfOk result (λ wall. wall.wall.opening ≡ opening.now) }
    {
        the_first_entries_are_legal();
        let mut wall = NewWall::new(alloc, *opening)?;
        for entry in entries {
            wall.add(entry)?;
        }
        Ok(wall)
    }

    /// Takes the desk's next entry; `NoMemory` where there is none for it, and then nothing changes.
    pub fn add(&mut self, entry: &Entry) -> Result<(), NoMemory>
        requires few { length self.old.entries + 1 < 2 ^ 32 }
        requires legal { IsLegal (history_in (longer_by self.old entry.now)) }
        ensures next { OnOk result (self.new ≡ longer_by self.old entry.now) }
        ensures same { IsErr result → self.new ≡ self.old }
    {
        what_an_entry_makes_of_the_boards();
        the_last_entry_is_next();
        let Some(change) = self.list.give(entry) else {
            return Err(NoMemory);
        };
        self.first.follow(&change);
        self.second.follow(&change);
        Ok(())
    }
}
