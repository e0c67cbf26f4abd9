ghost use Rattle.std.specs.Prelude.{◌≡◌, ◌+◌, ◌<◌, ◌^◌, nat_lt, if◌then◌else◌, [], length, MatchBool};
ghost use mathlib.Core.List.{IsPrefix};
ghost use Rattle.desk_model.specs.statements.Opening.{IsOpening};
ghost use Rattle.desk_model.specs.histories.Legal.{IsLegal};
ghost use Rattle.board_window.specs.Lists.{head_of};
ghost use Rattle.board_window.specs.Walls.{history_in, longer_by};

use crate::logbook_rule::{Add, Head, Law, Nothing};
use desk_model::{Entry, Opening, a_history_is_legal_in_one_way, one_history_is_legal};
use logbook::{Offer, Seen, Start, Word};
use std::marker::Model;

/// A beginning of a wall's list of entries: a legal history of its desk. It has no bytes for the entries.
#[derive(Drop)]
pub(crate) struct Front {
    opening: Opening,
    count: u32,
    seen: Seen<Entry, u64, Law>,
}

impl Model for Front {
    ghost use Rattle.std.specs.Prelude.{◌≡◌, length};
    ghost use Rattle.desk_model.specs.histories.History.{history_of};
    ghost use Rattle.desk_model.specs.histories.Legal.{IsLegal};
    ghost use Rattle.board_window.specs.Walls.{FrontValue, front_of, name_of};

    ghost Value = { FrontValue };

    ghost view = { λ f. front_of (name_of f.opening f.seen.book) f.seen.log };

    ghost invariant = { λ f. (f.count ≡ length f.seen.log) × ∥ IsLegal (history_of f.opening f.seen.log) ∥₁ };
}

impl Front {
    /// The beginning of a new wall's list that has no entry, and the word that has its length.
    pub(crate) fn open(opening: Opening) -> (Head, Front)
        requires { IsOpening opening }
        ensures none { result.1.entries ≡ [] }
        ensures opening { result.1.wall.opening ≡ opening }
        ensures head { result.0 ≡ head_of result.1.wall.logbook.book }
    {
        one_history_is_legal();
        let (seen, mut first, _second) = Seen::open(Start::alone(), 0, 0);
        let head = Word::tracked(0, &mut first);
        let front = Front {
            opening,
            count: 0,
            seen,
        };
        (head, front)
    }

    /// How many entries it has, and that they are a legal history.
    pub(crate) fn count(&self) -> u32
        ensures count { result ≡ length self.now.entries }
        ensures legal { IsLegal (history_in self.now) }
    {
        a_history_is_legal_in_one_way();
        self.count
    }

    /// The same again.
    pub(crate) fn again(&self) -> Front
        ensures { result ≡ self.now }
    {
        Front {
            opening: self.opening,
            count: self.count,
            seen: self.seen.again(),
        }
    }

    /// Becomes the longer of two beginnings of one wall's list, each of which begins it.
    pub(crate) fn learn(&mut self, other: &Front)
        requires { other.now.wall ≡ self.old.wall }
        ensures wall { self.new.wall ≡ self.old.wall }
        ensures longer { self.new.entries
            ≡ (if nat_lt (length self.old.entries) (length other.now.entries) then other.now.entries else self.old.entries) }
        ensures this { IsPrefix self.old.entries self.new.entries }
        ensures that { IsPrefix other.now.entries self.new.entries }
    {
        let mut both = self.seen.again();
        both.learn(&other.seen);
        if self.count < other.count {
            self.count = other.count;
            self.seen = other.seen.again();
        }
    }

    /// Adds an entry to the list, where this is all of it, and says whether it did.
    pub(crate) fn add(&mut self, head: &Head, entry: &Entry) -> bool
        requires head { head.now ≡ head_of self.old.wall.logbook.book }
        requires room { length self.old.entries + 1 < 2 ^ 32 }
        requires legal { IsLegal (history_in (longer_by self.old entry.now)) }
        ensures { MatchBool result (self.new ≡ longer_by self.old entry.now) (self.new ≡ self.old) }
    {
        let mut seen = self.seen.again();
        let mut offer: Offer<Entry, u64, Law, Nothing> = seen.plain::<Nothing, Entry, Add>(entry);
        let mut pen = seen.no_pen();
        let from = u64::from(self.count);
        let found = head.compare_exchange::<Add, Nothing>(
            from,
            from + 1,
            &mut seen,
            &mut offer,
            &mut pen,
        );
        if found != from {
            return false;
        }
        self.count += 1;
        self.seen = seen;
        true
    }
}
