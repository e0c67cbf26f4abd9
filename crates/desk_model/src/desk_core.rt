ghost use Rattle.std.specs.Prelude.{◌≡◌, ◌+◌, ◌<◌, ◌≤◌};

use crate::{Entry, EntryRef, LAST_CALLER, Stated};

/// What answers commands. It stands for the history of all that it was asked so far.
pub trait DeskCore: Drop {
    ghost use Rattle.std.specs.Prelude.{ℕ};
    ghost use Rattle.desk_model.specs.statements.Opening.{OpeningValue};
    ghost use Rattle.desk_model.specs.histories.History.{History, with_entry};
    ghost use Rattle.desk_model.specs.histories.Legal.{next, IsLegal};

    // How the desk was opened.
    ghost opening: { Self → OpeningValue };

    // How many further steps it takes.
    ghost room: { Self → ℕ };

    // It answers as a desk does after this history.
    ghost stands: { Self → History → Type 0 };

    /// Answers what caller 0 to 63 states: the entry that the rules give after all entries before it. It takes no
    /// memory, and one of the steps that are left.
    fn answer<'s>(&mut self, caller: u8, stated: &'s Stated) -> EntryRef<'s>
        requires room { 0 < room self.old }
        requires caller { caller ≤ LAST_CALLER }
        ensures answer { (h : History) → stands self.old h → result ≡ next h caller stated.now }
        ensures stands { (h : History) → stands self.old h → stands self.new (with_entry h result) }
        ensures room { room self.new + 1 ≡ room self.old }
        ensures opening { opening self.new ≡ opening self.old };

    /// The same entry, with a statement of its own.
    fn step(&mut self, caller: u8, stated: Stated) -> Entry
        requires room { 0 < room self.old }
        requires caller { caller ≤ LAST_CALLER }
        ensures answer { (h : History) → stands self.old h → result ≡ next h caller stated }
        ensures stands { (h : History) → stands self.old h → stands self.new (with_entry h result) }
        ensures room { room self.new + 1 ≡ room self.old }
        ensures opening { opening self.new ≡ opening self.old }
    {
        self.answer(caller, &stated).to_entry()
    }

    /// How many further steps it takes.
    fn left(&self) -> u64
        ensures { result ≡ room self.now };

    // There is a history that it stands for.
    ghost some: { (core : Self) → ∥ ((h : History) × stands core h) ∥₁ };

    // What it stands for was opened as it was, and is legal.
    ghost opened: { (core : Self) (h : History) → stands core h → h.opening ≡ opening core };

    ghost legal: { (core : Self) (h : History) → stands core h → IsLegal h };
}
