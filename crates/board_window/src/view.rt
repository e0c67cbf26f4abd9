ghost use Rattle.std.specs.Prelude.{◌≡◌, ◌≤◌, Some, IfSome, IfNone, length};
ghost use mathlib.Core.List.{IsPrefix};
ghost use Rattle.desk_model.specs.histories.Legal.{IsLegal};
ghost use Rattle.board_window.specs.Shows.{spot_of};
ghost use Rattle.board_window.specs.Walls.{history_in};

use crate::front::Front;
use crate::look::Look;
use crate::note::Note;
use crate::published::{Enter, Published};
use crate::shelf::Shelf;
use crate::spot::Spot;
use crate::wall_name::WallName;
use desk_base::Code;
use left_right::reader::Reader;
use std::marker::Model;

/// A view of a desk's boards through a window. It stands for the beginning of the wall's list that it saw or was told of, the longest.
#[derive(Drop)]
pub struct View {
    reader: Option<Reader<Shelf, Option<WallName>, Published>>,
    front: Front,
}

impl Model for View {
    ghost use Rattle.std.specs.Prelude.{◌≡◌, Some, IfSome};
    ghost use Rattle.board_window.specs.Walls.{FrontValue};

    ghost Value = { FrontValue };

    ghost view = { λ v. v.front };

    ghost invariant = { λ v. IfSome v.reader (λ r. r.place.me.0.client ≡ Some v.front.wall) };
}

impl View {
    /// A view by a reader that knows the wall of this list.
    pub(crate) fn new(reader: Reader<Shelf, Option<WallName>, Published>, front: Front) -> View
        requires { reader.place.me.0.client ≡ Some front.wall }
        ensures { result ≡ front }
    {
        View {
            reader: Some(reader),
            front,
        }
    }

    /// What it stands for is a legal history. It does nothing: its clause is the law.
    pub fn is_legal(&self)
        ensures { IsLegal (history_in self.now) }
    {
        self.front.count();
    }

    /// Learns a note of the same wall: it stands for no less than that from then on.
    pub fn learn(&mut self, note: Note)
        requires { note.wall ≡ self.old.wall }
        ensures wall { self.new.wall ≡ self.old.wall }
        ensures before { IsPrefix self.old.entries self.new.entries }
        ensures told { IsPrefix note.entries self.new.entries }
        ensures within { length note.entries ≤ length self.old.entries → self.new ≡ self.old }
        ensures beyond { length self.old.entries ≤ length note.entries → self.new ≡ note }
    {
        self.front.learn(&note.front);
    }

    // Takes in what was read, where it is no shorter than what it stands for.
    fn see(&mut self, front: Front, what: Spot) -> Option<Look>
        requires { front.wall ≡ self.old.wall }
        ensures wall { self.new.wall ≡ self.old.wall }
        ensures later { IsPrefix self.old.entries self.new.entries }
        ensures seen { IfSome result (λ look. (look.seen ≡ length self.new.entries) × (self.new ≡ front) × (look.what ≡ what)) }
        ensures none { IfNone result (self.new ≡ self.old) }
    {
        if front.count() < self.front.count() {
            return None;
        }
        self.front.learn(&front);
        Some(Look {
            seen: self.front.count(),
            what,
        })
    }

    /// What stands at a position of a board, from 1, by the beginning of the list that it stands for then. It waits for nobody and takes no
    /// memory. `None` where the windows have ended; then it stands for the same as before.
    pub fn look(&mut self, board: Code, position: u16) -> Option<Look>
        ensures wall { self.new.wall ≡ self.old.wall }
        ensures later { IsPrefix self.old.entries self.new.entries }
        ensures seen { IfSome result (λ look. look.seen ≡ length self.new.entries) }
        ensures what { IfSome result (λ look. look.what ≡ spot_of (history_in self.new) board position) }
        ensures none { IfNone result (self.new ≡ self.old) }
    {
        let reader = self.reader.take()?;
        match reader.enter_as::<Enter>() {
            Ok(reading) => {
                let shelf = reading.get();
                let what = shelf.boards.look(board, position);
                let front = shelf.front.again();
                self.reader = Some(reading.leave());
                self.see(front, what)
            }
            Err(reader) => {
                self.reader = Some(reader);
                None
            }
        }
    }
}
