ghost use Rattle.std.specs.Prelude.{◌≡◌, ◌↔◌, ◌<◌, ◌≤◌, ◌^◌, ℕ, Bool, List, length, true, false, IfOk, IsErr};
ghost use Rattle.std.specs.Bool.{OnTrue, OnFalse};
ghost use Rattle.std.specs.declared.option.Option.{Option};
ghost use Rattle.desk_model.specs.declared.limits.TheConstants.{LAST_CALLER};
ghost use Rattle.desk_model.specs.histories.History.{with_entry};
ghost use Rattle.desk_model.specs.histories.Legal.{IsLegal, next};
ghost use Rattle.desk_model.specs.texts.Journal.{journal};
ghost use Rattle.journal_device.specs.Device.{Begins, Tells};

use crate::{Book, Full};
use desk_model::{Booked, DeskCore, Entry, Stated};

/// A book that answers what is stated, one command after another.
pub trait Steps: Booked {
    /// The bytes with which what is found of its journal begins, whenever the run stops from now on; `None` where it keeps no journal,
    /// or doesn't tell what is kept of it.
    ghost kept: { Self → Option (List ℕ) };

    /// Whether all is told as kept, whatever happens: so tells a book that keeps no journal.
    ghost always: { Bool };

    /// Answers what caller 0 to 63 states: the entry is the one that the rules give after all entries before it, and stands behind them.
    /// Where the book is full nothing is answered, and its history stays as it was. By itself it has nothing kept.
    fn step(&mut self, caller: u8, stated: Stated) -> Result<Entry, Full>
        requires { caller ≤ LAST_CALLER }
        ensures answer { IfOk result (λ entry. entry ≡ next (Self.history self.old) caller stated) }
        ensures history { IfOk result (λ entry. Self.history self.new ≡ with_entry (Self.history self.old) entry) }
        ensures full { IsErr result ↔ (length (Self.history self.old).entries ≡ Self.room self.old) }
        ensures same { IsErr result → Self.history self.new ≡ Self.history self.old }
        ensures room { Self.room self.new ≡ Self.room self.old }
        ensures mark { Self.mark self.new ≡ Self.mark self.old }
        ensures unkept { kept self.new ≡ kept self.old };

    /// Has its journal kept, with the lines of all entries, and says whether it is. Where it isn't, nothing more is kept, and what was kept
    /// stays kept.
    fn keep(&mut self) -> bool
        ensures history { Self.history self.new ≡ Self.history self.old }
        ensures room { Self.room self.new ≡ Self.room self.old }
        ensures mark { Self.mark self.new ≡ Self.mark self.old }
        ensures kept { OnTrue result (Tells (kept self.new) (journal (Self.history self.new))) }
        ensures unkept { OnFalse result (kept self.new ≡ kept self.old) }
        ensures grows { Begins (kept self.old) (kept self.new) }
        ensures always { always ≡ true → result ≡ true };

    /// Whether it takes so long to keep that the entries of several turns are better kept at once.
    fn defers(&self) -> bool
        ensures always { always ≡ true → result ≡ false };

    /// What a book has is a legal history, and it has room for fewer than 2^32 entries in all. It only names the law that it rests on: its
    /// clauses are the laws.
    fn is_legal(&self)
        ensures legal { IsLegal (Self.history self.now) }
        ensures few { Self.room self.now < 2 ^ 32 };
}

impl<C: DeskCore> Steps for Book<C> {
    ghost use Rattle.std.specs.Prelude.{None, true};

    ghost kept = { λ _. None };

    ghost always = { true };

    fn step(&mut self, caller: u8, stated: Stated) -> Result<Entry, Full>
        requires { caller ≤ LAST_CALLER }
        ensures answer { IfOk result (λ entry. entry ≡ next (⟦<Book<C> as Booked>⟧.history self.old) caller stated) }
        ensures history { IfOk result (λ entry.
            ⟦<Book<C> as Booked>⟧.history self.new ≡ with_entry (⟦<Book<C> as Booked>⟧.history self.old) entry) }
        ensures full { IsErr result ↔ (length (⟦<Book<C> as Booked>⟧.history self.old).entries ≡ ⟦<Book<C> as Booked>⟧.room self.old) }
        ensures same { IsErr result → self.new ≡ self.old }
        ensures room { ⟦<Book<C> as Booked>⟧.room self.new ≡ ⟦<Book<C> as Booked>⟧.room self.old }
    {
        Book::step(self, caller, stated)
    }

    fn keep(&mut self) -> bool
        ensures same { self.new ≡ self.old }
        ensures kept { result ≡ true }
    {
        true
    }

    fn defers(&self) -> bool
        ensures { result ≡ false }
    {
        false
    }

    fn is_legal(&self) {
        Book::is_legal(self);
    }
}
