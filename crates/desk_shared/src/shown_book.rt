//! What a desk with windows keeps.

ghost use Rattle.std.specs.Prelude.{◌≡◌, ◌+◌, ◌<◌, ◌≤◌, length, take, true, false};
ghost use Rattle.std.specs.Bool.{OnTrue, OnFalse};
ghost use mathlib.Core.List.{IsPrefix};
ghost use Rattle.desk_model.specs.histories.History.{with_entry};
ghost use Rattle.desk_model.specs.histories.Legal.{IsLegal, next};
ghost use Rattle.desk_model.specs.declared.limits.TheConstants.{LAST_CALLER};
ghost use Rattle.board_window.specs.declared.wall_name.WallName.{WallName as Name};
ghost use Rattle.desk_shared.specs.Shown.{IsWallOf};
ghost use Rattle.desk_shared.specs.Kept.{AreKept};
ghost use Rattle.turn_gate.specs.Seats.{GateValue};

use board_window::{Showing, Wall};
use call_history::Steps;
use desk_model::{Booked, Entry, Stated};
use std::marker::Model;
use std::sync::Wait;
use turn_gate::Lasting;

/// A book with the wall of windows that shows its entries. It is not `Drop`: end it by `end`.
pub struct ShownBook<B: Steps> {
    pub(crate) book: B,
    pub(crate) wall: Wall,
    // How many entries, the first, are kept.
    pub(crate) sure: u32,
}

/// A desk has one wall: what is of its wall, a note or a view, is of the same. It does nothing: its clause is the law.
pub fn a_desk_has_one_wall()
    ensures { (desk : GateValue) (one other : Name) → IsWallOf desk one → IsWallOf desk other → one ≡ other }
{}

impl<B: Steps> ShownBook<B> {
    /// Answers what caller 0 to 63 states, and tells what is shown once the entry is kept. There is room for it.
    pub(crate) fn step(&mut self, caller: u8, stated: Stated) -> (Entry, Showing)
        requires caller { caller ≤ LAST_CALLER }
        requires room { 0 < self.old.left }
        ensures answer { result.0 ≡ next self.old.history caller stated }
        ensures history { self.new.history ≡ with_entry self.old.history result.0 }
        ensures left { self.new.left + 1 ≡ self.old.left }
        ensures wall { self.new.wall ≡ self.old.wall }
        ensures note_wall { result.1.note.wall ≡ self.old.wall }
        ensures note { IsPrefix result.1.note.entries self.new.history.entries }
        ensures behind { length result.1.note.entries + result.1.behind ≡ length self.new.history.entries }
        ensures sure { self.new.sure ≡ self.old.sure }
        ensures shown { self.new.shown ≡ self.old.shown }
    {
        let place = self.book.count();
        let Ok(entry) = self.book.step(caller, stated) else {
            unreachable!()
        };
        self.book.is_legal();
        (entry, self.wall.add(&entry, place))
    }

    /// Has all entries kept, and shown, and says whether they are kept; where that is left to a later turn, nothing is done.
    pub(crate) fn keep<R: Wait>(&mut self, rt: &R, is_later: bool) -> bool
        ensures history { self.new.history ≡ self.old.history }
        ensures left { self.new.left ≡ self.old.left }
        ensures wall { self.new.wall ≡ self.old.wall }
        ensures sure { OnTrue result (self.new.sure ≡ length self.new.history.entries) }
        ensures no_fewer { self.old.sure ≤ self.new.sure }

        // What isn't kept is not shown.
        ensures shown { length self.old.shown ≤ self.old.sure → length self.new.shown ≤ self.new.sure }
        ensures unshown { OnFalse result (self.new.shown ≡ self.old.shown) }
        ensures always { B.always ≡ true → is_later ≡ false → result ≡ true }
    {
        if is_later {
            return false;
        }
        if !self.book.keep() {
            return false;
        }
        self.sure = self.book.count();
        self.wall.publish(rt);
        true
    }

    /// Whether the entries of several turns are better kept at once.
    pub(crate) fn is_slow(&self) -> bool
        ensures always { B.always ≡ true → result ≡ false }
    {
        self.book.defers()
    }

    /// What it keeps is a legal history, and its wall is of a desk that was opened so. It does nothing: its clauses are the laws.
    pub(crate) fn is_legal(&self)
        ensures legal { IsLegal self.now.history }
        ensures opening { self.now.wall.opening ≡ self.now.history.opening }
    {
        self.book.is_legal();
    }

    /// Ends the windows, and gives the book, of whose entries so many are kept, the first.
    pub(crate) fn end<R: Wait>(self, rt: &R) -> B
        ensures history { B.history result ≡ self.history }
        ensures room { B.room result ≡ length self.history.entries + self.left }
        ensures kept { AreKept (B.kept result) self.history.opening (take self.sure self.history.entries) }
    {
        let ShownBook {
            book,
            wall,
            sure: _,
        } = self;
        wall.end(rt);
        book
    }
}

impl<B: Steps> Model for ShownBook<B> {
    ghost use Rattle.std.specs.Prelude.{◌≡◌, ◌-◌, ◌≤◌, length, take};
    ghost use Rattle.desk_shared.specs.Shown.{ShownValue};
    ghost use Rattle.desk_shared.specs.Kept.{AreKept};

    ghost Value = { ShownValue };

    ghost view = { λ b. record {
      history = B.history b.book;
      left = B.room b.book - length (B.history b.book).entries;
      wall = b.wall.wall;
      shown = b.wall.shown;
      added = b.wall.added;
      sure = b.sure;
    } };

    ghost invariant = { λ b. (b.wall.wall.opening ≡ (B.history b.book).opening)
        × (b.wall.added ≡ take (length b.wall.added) (B.history b.book).entries)
        × (b.sure ≤ length (B.history b.book).entries)
        × AreKept (B.kept b.book) (B.history b.book).opening (take b.sure (B.history b.book).entries) };
}

impl<B: Steps> Booked for ShownBook<B> {
    ghost use Rattle.std.specs.Prelude.{◌+◌, length};
    ghost use Rattle.std.proofs.Common.{arith};
    ghost use Rattle.desk_shared.specs.Shown.{mark_of};

    ghost history = { λ b. b.history };

    ghost room = { λ b. length b.history.entries + b.left };

    ghost mark = { λ b. mark_of b.wall };

    fn count(&self) -> u32 {
        self.book.count()
    }

    ghost within = { λ b. Prim.omega arith };
}

impl<B: Steps> Lasting for ShownBook<B> {
    ghost sure = { λ b. b.sure };

    fn defers(&self) -> bool {
        self.is_slow()
    }
}
