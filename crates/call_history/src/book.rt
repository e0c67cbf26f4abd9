ghost use Rattle.std.specs.Prelude.{◌≡◌, ◌↔◌, ℕ, ◌+◌, ◌<◌, ◌≤◌, ◌^◌, List, length, map, Some, IfOk, IsErr, vec_len, vec_capacity};
ghost use Rattle.std.specs.Box.{box_value};
ghost use Rattle.std.specs.List.{All, slice_get};
ghost use Rattle.desk_model.specs.statements.Statement.{StatedValue};
ghost use Rattle.desk_model.specs.histories.History.{history_of, opened, with_entry};
ghost use Rattle.desk_model.specs.histories.Legal.{IsLegal, next, history_from};
ghost use Rattle.desk_model.specs.histories.Mark.{no_wall};

use crate::{CountedBook, Full, Steps};
use desk_base::NoMemory;
use desk_model::{Booked, DeskCore, Entry, LAST_CALLER, Stated, a_history_goes_on_with_commands};
use std::alloc::Global;
use turn_gate::Lasting;

/// A desk, and all entries that it has answered.
pub struct Book<C: DeskCore> {
    desk: CountedBook<C>,
    entries: Vec<Entry>,
    ghost all: { entries.items ≡ desk.past },
    ghost room: { vec_len entries + C.room (box_value desk.core) ≤ vec_capacity entries },
}

impl<C: DeskCore> Drop for Book<C> {
    fn drop(self) {
        let Self {
            desk: _,
            entries: _,
        } = self;
    }
}

impl<C: DeskCore> Book<C> {
    /// The book of a desk that has answered nothing yet, with memory for an entry for each step that is left to it, fewer than
    /// 2^32, and for the desk; `NoMemory` where there is none for them.
    pub fn new(alloc: Global, core: C) -> Result<Book<C>, NoMemory>
        requires new { C.stands core (opened (C.opening core)) }
        requires few { C.room core < 2 ^ 32 }
        ensures history { IfOk result (λ book. ⟦<Book<C> as Booked>⟧.history book ≡ opened (C.opening core)) }
        ensures room { IfOk result (λ book. ⟦<Book<C> as Booked>⟧.room book ≡ C.room core) }
    {
        let entries = Vec::with_capacity(alloc, core.left() as usize)?;
        let desk = CountedBook::new(alloc, core)?;
        Ok(Book { desk, entries })
    }

    /// Answers what caller 0 to 63 states, and keeps the entry as the last: it is the one that the rules give after all entries
    /// before it. Where the book is full nothing is answered, and nothing changes.
    pub fn step(&mut self, caller: u8, stated: Stated) -> Result<Entry, Full>
        requires { caller ≤ LAST_CALLER }
        ensures answer { IfOk result (λ entry.
            entry ≡ next (⟦<Book<C> as Booked>⟧.history self.old) caller stated) }
        ensures kept { IfOk result (λ entry.
            ⟦<Book<C> as Booked>⟧.history self.new ≡ with_entry (⟦<Book<C> as Booked>⟧.history self.old) entry) }
        ensures full { IsErr result ↔ (length (⟦<Book<C> as Booked>⟧.history self.old).entries ≡ ⟦<Book<C> as Booked>⟧.room self.old) }
        ensures same { IsErr result → self.new ≡ self.old }
        ensures room { ⟦<Book<C> as Booked>⟧.room self.new ≡ ⟦<Book<C> as Booked>⟧.room self.old }
    {
        if self.left() == 0 {
            return Err(Full);
        }
        let Ok(entry) = self.desk.step(caller, stated) else {
            unreachable!()
        };
        self.entries.push_reserved(entry);
        Ok(entry)
    }

    /// Answers these commands one after another, each as its caller, 0 to 63, and keeps their entries: the history goes on with
    /// those that the rules give for them. The book has room for all.
    pub fn step_all(&mut self, commands: &[(u8, Stated)])
        requires callers { All (λ command. command.0 ≤ LAST_CALLER) commands.now }
        requires room { length (⟦<Book<C> as Booked>⟧.history self.old).entries + length commands.now
            ≤ ⟦<Book<C> as Booked>⟧.room self.old }
        ensures history { ⟦<Book<C> as Booked>⟧.history self.new
            ≡ history_from (⟦<Book<C> as Booked>⟧.history self.old) commands.now }
        ensures room { ⟦<Book<C> as Booked>⟧.room self.new ≡ ⟦<Book<C> as Booked>⟧.room self.old }
    {
        self.step_each(commands.len(), |index| commands[index]);
    }

    /// Answers these commands one after another, as `step_all` does, all as one caller, 0 to 63.
    pub fn step_as(&mut self, caller: u8, commands: &[Stated])
        requires caller { caller ≤ LAST_CALLER }
        requires room { length (⟦<Book<C> as Booked>⟧.history self.old).entries + length commands.now
            ≤ ⟦<Book<C> as Booked>⟧.room self.old }
        ensures history { ⟦<Book<C> as Booked>⟧.history self.new
            ≡ history_from (⟦<Book<C> as Booked>⟧.history self.old) (map (λ stated. (caller, stated)) commands.now) }
        ensures room { ⟦<Book<C> as Booked>⟧.room self.new ≡ ⟦<Book<C> as Booked>⟧.room self.old }
    {
        self.step_each(commands.len(), |index| (caller, commands[index]));
    }

    // Answers so many commands, the one for each index from 0 on.
    fn step_each<F: Fn(usize) -> (u8, Stated)>(&mut self, count: usize, command_at: F)
        requires told { (index : ℕ) → index < count → F.pre command_at index }
        requires callers { (index : ℕ) (command : _) → index < count → F.post command_at index command
            → command.0 ≤ LAST_CALLER }
        requires room { length (⟦<Book<C> as Booked>⟧.history self.old).entries + count
            ≤ ⟦<Book<C> as Booked>⟧.room self.old }
        ensures history { (commands : List (ℕ × StatedValue)) → length commands ≡ count
            → ((index : ℕ) (command : _) → index < count → F.post command_at index command
            → slice_get commands index ≡ Some command)
            → ⟦<Book<C> as Booked>⟧.history self.new
            ≡ history_from (⟦<Book<C> as Booked>⟧.history self.old) commands }
        ensures room { ⟦<Book<C> as Booked>⟧.room self.new ≡ ⟦<Book<C> as Booked>⟧.room self.old }
    {
        a_history_goes_on_with_commands();
        for index in 0..count {
            let (caller, stated) = command_at(index);
            let Ok(_entry) = self.step(caller, stated) else {
                unreachable!()
            };
        }
    }

    /// All entries, in order.
    pub fn entries(&self) -> &[Entry]
        ensures { result.now ≡ (⟦<Book<C> as Booked>⟧.history self.now).entries }
    {
        &self.entries
    }

    /// The same desk with its entries only counted; and the entries.
    pub fn into_parts(self) -> (CountedBook<C>, Vec<Entry>)
        ensures history { ⟦<CountedBook<C> as Booked>⟧.history result.0 ≡ ⟦<Book<C> as Booked>⟧.history self }
        ensures room { ⟦<CountedBook<C> as Booked>⟧.room result.0 ≡ ⟦<Book<C> as Booked>⟧.room self }
        ensures entries { result.1.items ≡ (⟦<Book<C> as Booked>⟧.history self).entries }
    {
        let Book { desk, entries } = self;
        (desk, entries)
    }

    /// What a book keeps is a legal history, it has room for fewer than 2^32 entries in all, and no wall of windows shows
    /// them. It only names the law that it rests on: its clauses are the laws.
    pub fn is_legal(&self)
        ensures legal { IsLegal (⟦<Book<C> as Booked>⟧.history self.now) }
        ensures few { ⟦<Book<C> as Booked>⟧.room self.now < 2 ^ 32 }
        ensures mark { ⟦<Book<C> as Booked>⟧.mark self.now ≡ no_wall }
    {
        self.desk.is_legal();
    }

    /// How many more entries the book has room for.
    pub fn left(&self) -> u32
        ensures { result + length (⟦<Book<C> as Booked>⟧.history self.now).entries ≡ ⟦<Book<C> as Booked>⟧.room self.now }
    {
        self.desk.core.left() as u32
    }
}

impl<C: DeskCore> Booked for Book<C> {
    ghost use Rattle.std.proofs.Common.{rules, arith};

    ghost history = { λ book. history_of (C.opening (box_value book.desk.core)) book.desk.past };

    ghost room = { λ book. length book.desk.past + C.room (box_value book.desk.core) };

    ghost mark = { λ _. no_wall };

    fn count(&self) -> u32 {
        self.desk.count()
    }

    ghost within = { λ book. Prim.omega arith };
}

// It keeps no journal, so none is sure.
impl<C: DeskCore> Lasting for Book<C> {
    ghost sure = { λ _. 0 };

    fn defers(&self) -> bool {
        false
    }
}
