ghost use Rattle.std.specs.Prelude.{◌≡◌, ◌↔◌, ◌+◌, ◌<◌, ◌≤◌, ◌^◌, [], length, IfOk, IsErr, IfSome, IfNone};
ghost use Rattle.std.specs.Box.{box_value};
ghost use Rattle.desk_model.specs.declared.limits.TheConstants.{LAST_CALLER};
ghost use Rattle.desk_model.specs.histories.History.{history_of, opened, with_entry};
ghost use Rattle.desk_model.specs.histories.Legal.{next};
ghost use Rattle.desk_model.specs.histories.Mark.{no_wall};
ghost use Rattle.call_history.specs.Past.{IsLast};

use crate::past::Past;
use crate::{Full, Steps};
use desk_base::NoMemory;
use desk_model::{Booked, DeskCore, Entry, LAST_CALLER, Stated, a_history_is_legal_in_one_way};
use std::alloc::Global;
use turn_gate::Lasting;

/// A desk, and how many entries it has answered, of which it has the last. The desk stands in memory of its own, so that a book is
/// handed from caller to caller without it.
pub struct CountedBook<C: DeskCore> {
    pub(crate) core: Box<C>,
    pub(crate) past: Past,
    ghost stands: { ∥ C.stands (box_value core) (history_of (C.opening (box_value core)) past) ∥₁ },
    ghost few: { length past + C.room (box_value core) < 2 ^ 32 },
}

impl<C: DeskCore> Drop for CountedBook<C> {
    fn drop(self) {
        let Self { core: _, past: _ } = self;
    }
}

impl<C: DeskCore> CountedBook<C> {
    /// The book of a desk that has answered nothing yet, with fewer than 2^32 steps left to it; `NoMemory` where there is none for
    /// the desk.
    pub fn new(alloc: Global, core: C) -> Result<CountedBook<C>, NoMemory>
        requires new { C.stands core (opened (C.opening core)) }
        requires few { C.room core < 2 ^ 32 }
        ensures history { IfOk result (λ book. ⟦<CountedBook<C> as Booked>⟧.history book ≡ opened (C.opening core)) }
        ensures room { IfOk result (λ book. ⟦<CountedBook<C> as Booked>⟧.room book ≡ C.room core) }
    {
        let Ok(core) = Box::new(alloc, core) else {
            return Err(NoMemory);
        };
        Ok(CountedBook {
            core,
            past: Past::new(),
        })
    }

    /// The last entry.
    pub fn last(&self) -> Option<&Entry>
        ensures some { IfSome result (λ entry. IsLast (⟦<CountedBook<C> as Booked>⟧.history self.now).entries entry.now) }
        ensures none { IfNone result ((⟦<CountedBook<C> as Booked>⟧.history self.now).entries ≡ []) }
    {
        self.past.last()
    }
}

impl<C: DeskCore> Booked for CountedBook<C> {
    ghost use Rattle.std.proofs.Common.{rules, arith};

    ghost history = { λ book. history_of (C.opening (box_value book.core)) book.past };

    ghost room = { λ book. length book.past + C.room (box_value book.core) };

    ghost mark = { λ _. no_wall };

    fn count(&self) -> u32 {
        self.past.count()
    }

    ghost within = { λ book. Prim.omega arith };
}

// It keeps no journal, so none is sure.
impl<C: DeskCore> Lasting for CountedBook<C> {
    ghost sure = { λ _. 0 };

    fn defers(&self) -> bool {
        false
    }
}

// It keeps no journal, so all is told as kept.
impl<C: DeskCore> Steps for CountedBook<C> {
    ghost use Rattle.std.specs.Prelude.{None, true, false};

    ghost kept = { λ _. None };

    ghost always = { true };

    fn step(&mut self, caller: u8, stated: Stated) -> Result<Entry, Full>
        requires { caller ≤ LAST_CALLER }
        ensures answer { IfOk result (λ entry.
            entry ≡ next (⟦<CountedBook<C> as Booked>⟧.history self.old) caller stated) }
        ensures history { IfOk result (λ entry.
            ⟦<CountedBook<C> as Booked>⟧.history self.new ≡ with_entry (⟦<CountedBook<C> as Booked>⟧.history self.old) entry) }
        ensures full { IsErr result ↔ (length (⟦<CountedBook<C> as Booked>⟧.history self.old).entries
            ≡ ⟦<CountedBook<C> as Booked>⟧.room self.old) }
        ensures same { IsErr result → self.new ≡ self.old }
        ensures room { ⟦<CountedBook<C> as Booked>⟧.room self.new ≡ ⟦<CountedBook<C> as Booked>⟧.room self.old }
    {
        if self.core.left() == 0 {
            return Err(Full);
        }
        let entry = self.core.step(caller, stated);
        self.past.add(entry);
        Ok(entry)
    }

    fn keep(&mut self) -> bool
        ensures same { self.new ≡ self.old }
        ensures kept { result ≡ true }
    {
        true
    }

    fn defers(&self) -> bool
        ensures { result ≡ false }
    {
        false
    }

    fn is_legal(&self) {
        a_history_is_legal_in_one_way();
    }
}
